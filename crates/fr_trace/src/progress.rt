// What is read so far.
ghost use Rattle.std.specs.Prelude.{◌≡◌, ◌+◌, ◌<◌, ◌≤◌, ◌↔◌, ◌^◌, Any, IfOk, IsTrue, OnOk};
ghost use Rattle.fr_trace.specs.Reads.{MayMiss, after, is_open, marked, start};
ghost use Rattle.fr_trace.specs.Views.{so_far};

use crate::effect::Addition;
use fr_events::{Event, Happening, is_same};
use fr_instr::Verb;
use fr_program::ActorId;
use std::alloc::{AllocError, Global};

/// What is read so far: what a trace is made of, and for each actor whether it is inside a call.
#[derive(Drop)]
pub(crate) struct Progress {
    /// Whether the trace may begin anywhere in a run.
    pub from_anywhere: bool,
    pub events: Vec<Event>,
    pub unseen: Vec<Verb>,
    pub lost: Vec<usize>,
    pub ignored: usize,
    pub inside: Vec<bool>,
}

impl Progress {
    /// Nothing is read of a trace that may begin anywhere or doesn't, and none of so many actors is inside a call.
    pub fn start(alloc: Global, from_anywhere: bool, actors: usize) -> Result<Progress, AllocError>
        ensures { IfOk result (λ p. so_far p ≡ start from_anywhere actors) }
    {
        Ok(Progress {
            from_anywhere,
            events: Vec::new(alloc),
            unseen: Vec::new(alloc),
            lost: Vec::new(alloc),
            ignored: 0,
            inside: vec![in alloc; false; actors]?,
        })
    }

    /// Whether the actor is inside a call.
    pub fn is_open(&self, actor: ActorId) -> bool
        ensures { result ≡ is_open (so_far self.now) actor }
    {
        match self.inside.get(actor.0) {
            Some(inside) => *inside,
            None => false,
        }
    }

    /// Whether events may be missing before this.
    pub fn may_miss(&self) -> bool
        ensures { IsTrue result ↔ MayMiss (so_far self.now) }
    {
        self.from_anywhere || !self.lost.is_empty()
    }

    /// Whether the header names this call.
    pub fn is_unseen(&self, verb: Verb) -> bool
        ensures { IsTrue result ↔ Any (λ v. v ≡ verb) self.now.unseen.items }
    {
        self.unseen.iter().any(|unseen| is_same(*unseen, verb))
    }

    /// Says whether the actor is inside a call from now on.
    fn mark(&mut self, actor: ActorId, now: bool)
        ensures { so_far self.new ≡ marked actor now (so_far self.old) }
    {
        if actor.0 < self.inside.len() {
            self.inside[actor.0] = now;
        }
    }

    /// Adds what a line adds.
    pub fn add(&mut self, effect: Addition) -> Result<(), AllocError>
        requires { self.old.ignored + 1 < 2 ^ 64 }
        ensures added { OnOk result (so_far self.new ≡ after effect (so_far self.old)) }
        ensures bound { self.new.ignored ≤ self.old.ignored + 1 }
    {
        match effect {
            Addition::Nothing => {}
            Addition::Add(event) => {
                self.events.push(event)?;
                match event.what {
                    Happening::Enter(_) => self.mark(event.actor, true),
                    Happening::Return { .. } => self.mark(event.actor, false),
                    _ => {}
                }
            }
            Addition::Lose => {
                self.lost.push(self.events.len())?;
                self.inside.fill(false);
            }
            Addition::Ignore => self.ignored += 1,
        }
        Ok(())
    }
}
