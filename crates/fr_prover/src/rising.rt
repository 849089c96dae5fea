// Working through all actors in turn until the notes of all are stable.
use crate::effect::Effects;
use crate::lists::is_marked;
use crate::settling::settle;
use crate::trial::Trial;
use fr_finder::claims_at_start;
use fr_notes::Alternative;
use fr_program::{ActorId, App, Point, Range, Side, VarId};
use std::alloc::{AllocError, Global};
use std::collections::VecDeque;

/// So often an actor is worked through at most, for each actor that there is.
const MOST_TURNS: usize = 60;

/// The range of each variable at the start, as far as notes speak of it.
fn ranges_at_start(alloc: Global, app: &App, said: &[bool]) -> Result<Vec<Range>, AllocError> {
    let variables = app.variables().len();
    let mut ranges = Vec::with_capacity(alloc, variables)?;
    for variable in 0..variables {
        let name = VarId(variable);
        let range = if is_marked(said, variable) {
            Range::only(app.variable(name).init)
        } else {
            app.range(name)
        };
        ranges.push(range)?;
    }
    Ok(ranges)
}

impl<'a> Trial<'a> {
    /// Gives the actor's first point the note of the start.
    fn begin_actor(&mut self, alloc: Global, actor: usize) -> Result<(), AllocError> {
        let app = self.pool.app();
        let point = Point {
            actor: ActorId(actor),
            pc: 0,
            side: Side::Before,
        };
        let Some(number) = app.number(point) else {
            return Ok(());
        };
        let claims = claims_at_start(alloc, app)?;
        let ranges = ranges_at_start(alloc, app, self.kept.row(actor))?;
        let start = Alternative::fitting(app, 0, 0, claims, ranges);
        if let Some(facts) = self.pool.kept(start)? {
            let note = Vec::from_slice(alloc, &[facts])?;
            self.set_note(number, note);
        }
        Ok(())
    }

    /// Gives each actor's first point the note of the start.
    fn begin(&mut self, alloc: Global) -> Result<(), AllocError> {
        for actor in 0..self.plan.app.actors().len() {
            self.begin_actor(alloc, actor)?;
        }
        Ok(())
    }
}

/// The actors that have to be worked through, and what the steps of all actors do so far.
#[derive(Drop)]
struct Round {
    /// By actor: what its steps do to others.
    effects: Vec<Effects>,
    /// The actors that wait, each once, the first one first.
    queue: VecDeque<usize>,
    /// By actor: whether it waits.
    waits: Vec<bool>,
}

impl Round {
    /// All actors, waiting in their order, whose steps do nothing yet.
    fn new(alloc: Global, app: &App) -> Result<Round, AllocError> {
        let actors = app.actors().len();
        let waits = vec![in alloc; false; actors]?;
        let mut round = Round {
            effects: Vec::new(alloc),
            queue: VecDeque::new(alloc),
            waits,
        };
        for actor in 0..actors {
            round.effects.push(Effects::none(alloc, app)?)?;
            round.add(actor)?;
        }
        Ok(round)
    }

    /// Has the actor wait, unless it does already.
    fn add(&mut self, actor: usize) -> Result<(), AllocError> {
        if let Some(waits) = self.waits.get_mut(actor) {
            if !*waits {
                *waits = true;
                self.queue.push_back(actor)?;
            }
        }
        Ok(())
    }

    /// Has all actors wait but this one.
    fn add_others(&mut self, actor: usize) -> Result<(), AllocError> {
        for other in 0..self.waits.len() {
            if other != actor {
                self.add(other)?;
            }
        }
        Ok(())
    }

    /// The actor that waits longest, which waits no more.
    fn next(&mut self) -> Option<usize> {
        let actor = self.queue.pop_front()?;
        if let Some(waits) = self.waits.get_mut(actor) {
            *waits = false;
        }
        Some(actor)
    }

    /// Finds out what the actor's steps do by its notes now. Whether they do something else than before.
    fn renew(&mut self, alloc: Global, trial: &Trial, actor: usize) -> Result<bool, AllocError> {
        let new = Effects::of(alloc, trial, actor)?;
        match self.effects.get_mut(actor) {
            Some(old) => {
                let differs = old.print() != new.print();
                *old = new;
                Ok(differs)
            }
            None => Ok(false),
        }
    }

    /// Works through the actor that waits longest; all others wait where its steps now do something else to
    /// them. Whether an actor was waiting and more steps may be looked at.
    fn turn(&mut self, alloc: Global, trial: &mut Trial) -> Result<bool, AllocError> {
        let Some(actor) = self.next() else {
            return Ok(false);
        };
        settle(alloc, trial, actor, &self.effects)?;
        if self.renew(alloc, trial, actor)? {
            self.add_others(actor)?;
        }
        Ok(trial.left > 0)
    }
}

/// Works through all actors, from their starts, until no note changes or no more steps may be looked at.
pub fn rise(alloc: Global, trial: &mut Trial) -> Result<(), AllocError> {
    let app = trial.plan.app;
    trial.begin(alloc)?;
    let mut round = Round::new(alloc, app)?;
    for _ in 0..app.actors().len().saturating_mul(MOST_TURNS) {
        if !round.turn(alloc, trial)? {
            break;
        }
    }
    Ok(())
}
