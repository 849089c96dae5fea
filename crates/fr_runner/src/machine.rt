// A machine that runs an application that has passed, one poll at a time.
ghost use Rattle.std.specs.Prelude.{◌≡◌, ◌≢◌, ◌<◌, ◌≤◌, ◌+◌, ◌↔◌, ℕ, [], ◌∷◌, ◌++◌, length, IsTrue, IsErrOf, IfOk, IfErr, OnOk, OnErr};
ghost use Rattle.fr_rules.specs.State.{Done, place_of, start};
ghost use Rattle.fr_rules.specs.declared.rules.Rule.{Rule as RuleOf};
ghost use Rattle.fr_rules.specs.Rule.{Breach};
ghost use Rattle.fr_judge.specs.Sound.{KeepsNotes};
ghost use Rattle.fr_runner.specs.declared.fault.RunFault.TheVariants.{Polls, Threads, Spent, NoActor};
ghost use Rattle.fr_runner.specs.Trace.{IsEntry, Replays, actor_of, word_at};

use crate::fault::RunFault;
use crate::trace::{Entry, Trace};
use crate::turn::turn;
use fr_calls::{Place, State};
use fr_judge::{Passed, notes_exclude_breaches, the_start_keeps_notes};
use fr_program::ActorId;
use std::alloc::Global;
use std::marker::Model;

/// The most polls that a run has (this project's profile).
pub const MOST_POLLS: u64 = 1_000_000;

/// An application that has passed, and where it is in a run of it: the entries so far replay from
/// the start to the state, in which the note of each actor that isn't done holds, and each poll that
/// it began with has given an entry or is left.
#[derive(Drop)]
pub struct Machine<'a> {
    passed: &'a Passed,
    words: Vec<u64>,
    entries: Vec<Entry>,
    state: State,
    polls: u64,
}

impl<'a> Model for Machine<'a> {
    ghost use Rattle.fr_runner.specs.Machine.{MachineOf, IsRunning};

    ghost Value = { MachineOf };

    ghost use Rattle.fr_runner.specs.View.{machine_of};

    ghost view = { machine_of };

    ghost invariant = { λ m. IsRunning (machine_of m) };
}

impl<'a> Machine<'a> {
    /// A machine at the start of the application, with so many polls and with these words to pick
    /// choices by.
    ///
    /// # Errors
    ///
    /// `Polls` exactly where there are more than 1,000,000, before any memory is asked for; `Memory`
    /// where memory is refused.
    pub fn new(
        alloc: Global,
        passed: &'a Passed,
        polls: u64,
        words: &[u64],
    ) -> Result<Machine<'a>, RunFault>
        ensures of { IfOk result (λ m. (m.approved ≡ passed.now) × (m.words ≡ words.now)) }
        ensures begins { IfOk result
            (λ m. (m.entries ≡ []) × (m.state ≡ start passed.now.app) × (m.polls ≡ polls) × (m.left ≡ polls)) }
        ensures polls { IsErrOf result Polls ↔ (1000000 < polls) }
        ensures fault { IfErr result (λ f. (f ≢ Threads) × (f ≢ Spent) × (f ≢ NoActor)) }
    {
        if polls > MOST_POLLS {
            return Err(RunFault::Polls);
        }
        passed.recall_certified();
        the_start_keeps_notes();
        let words = words.to_vec(alloc)?;
        let state = State::start(alloc, passed.app())?;
        Ok(Machine {
            passed,
            words,
            entries: Vec::new(alloc),
            state,
            polls,
        })
    }

    /// The actor's turn: it steps by the choice that the next word picks, or is blocked where it has
    /// no step. It spends one poll.
    ///
    /// # Errors
    ///
    /// `Spent` exactly where no poll is left, `NoActor` exactly where one is left and the application has
    /// no such actor, `Memory` where memory is refused. After any of them the machine is as it was.
    pub fn poll(&mut self, actor: ActorId) -> Result<Entry, RunFault>
        ensures entry { IfOk result (λ e. self.new.entries ≡ self.old.entries ++ e ∷ []) }
        ensures is { IfOk result (λ e. IsEntry self.old.approved.app
            (word_at self.old.words (length self.old.entries)) self.old.state e self.new.state) }
        ensures whose { IfOk result (λ e. actor_of e ≡ actor) }
        ensures spends { OnOk result (self.new.left + 1 ≡ self.old.left) }
        ensures count { length self.new.entries + self.new.left ≡ self.new.polls }
        ensures same { (self.new.approved ≡ self.old.approved) × (self.new.words ≡ self.old.words)
            × (self.new.polls ≡ self.old.polls) }
        ensures err { OnErr result (self.new ≡ self.old) }
        ensures spent { IsErrOf result Spent ↔ (self.old.left ≡ 0) }
        ensures no_actor { IsErrOf result NoActor
            ↔ ((0 < self.old.left) × (length self.old.approved.app.actors ≤ actor.0)) }
        ensures fault { IfErr result (λ f. (f ≢ Threads) × (f ≢ Polls)) }
    {
        if self.left() == 0 {
            return Err(RunFault::Spent);
        }
        if actor.0 >= self.actors() {
            return Err(RunFault::NoActor);
        }
        self.entries.reserve(1)?;
        let word = word_at(&self.words, self.entries.len());
        let entry = turn(self.passed, &mut self.state, actor, word)?;
        self.entries.push_reserved(entry);
        Ok(entry)
    }

    /// Whether the actor is done; false for a number that is no actor.
    pub fn done(&self, actor: ActorId) -> bool
        ensures { IsTrue result ↔ ((actor.0 < length self.now.approved.app.actors) × (place_of self.now.state actor.0 ≡ Done)) }
    {
        actor.0 < self.actors() && matches!(self.state.place(actor), Place::Done)
    }

    /// How many actors the application has.
    pub(crate) fn actors(&self) -> usize
        ensures { result ≡ length self.now.approved.app.actors }
    {
        self.passed.app().actors().len()
    }

    /// Whether it is an actor of the application that isn't done.
    pub(crate) fn waits(&self, actor: ActorId) -> bool
        ensures { IsTrue result ↔ ((actor.0 < length self.now.approved.app.actors) × (place_of self.now.state actor.0 ≢ Done)) }
    {
        actor.0 < self.actors() && !self.done(actor)
    }

    /// How many polls are left.
    pub fn left(&self) -> u64
        ensures left { result ≡ self.now.left }
        ensures count { length self.now.entries + result ≡ self.now.polls }
    {
        self.polls - self.entries.len() as u64
    }

    /// The state after the entries so far: they replay to it from the start, the note of each actor
    /// that isn't done holds in it, and no actor breaches any of the twelve rules in it.
    pub fn state(&self) -> &State
        ensures state { result.now ≡ self.now.state }
        ensures replays { Replays self.now.approved.app self.now.words 0
            (start self.now.approved.app) self.now.entries self.now.state }
        ensures notes { KeepsNotes self.now.approved.app self.now.approved.certificate self.now.state }
        ensures safe { (rule : RuleOf) (a : ℕ) →
            Breach self.now.approved.app self.now.state rule a → ⊥ }
    {
        self.passed.recall_certified();
        notes_exclude_breaches();
        &self.state
    }

    /// The entries and the words: they replay from the start to the machine's state.
    pub fn into_trace(self) -> Trace
        ensures entries { result.entries.items ≡ self.entry.entries }
        ensures words { result.words.items ≡ self.entry.words }
        ensures count { length result.entries.items + self.entry.left ≡ self.entry.polls }
        ensures replays { Replays self.entry.approved.app result.words.items 0
            (start self.entry.approved.app) result.entries.items self.entry.state }
    {
        let Machine {
            passed: _,
            words,
            entries,
            state: _,
            polls: _,
        } = self;
        Trace { entries, words }
    }
}

/// The word for the entry with this number: the words in turn, over and over; 0 where there are none.
fn word_at(words: &[u64], number: usize) -> u64
    ensures { result ≡ word_at words.now number }
{
    if words.is_empty() {
        return 0;
    }
    words[number % words.len()]
}
