// A run with a thread for each actor.
ghost use Rattle.std.specs.Prelude.{◌≡◌, ◌≢◌, ◌<◌, ◌↔◌, IfOk, IfErr, IsErrOf};
ghost use Rattle.fr_runner.specs.declared.fault.RunFault.TheVariants.{Polls, Spent, NoActor};
ghost use Rattle.fr_runner.specs.Trace.{IsRunOf};

use crate::fault::RunFault;
use crate::lock::{Course, Locked};
use crate::machine::Machine;
use crate::rest::finish;
use crate::trace::Trace;
use fr_board::Gate;
use fr_judge::Passed;
use fr_program::ActorId;
use std::alloc::Global;
use std::marker::Brand;
use std::sync::{Mutex, Wait};
use std::thread;
use std::thread::Threads;

/// The turns of one actor, each under the lock, until it has no other one.
fn turns<'a, K: Course, R: Wait, G: Gate>(
    rt: &R,
    lock: &Mutex<Locked<'a, K>>,
    actor: ActorId,
    gate: &G,
) {
    let mut polls = 0u64;
    for _ in rt.forever() {
        gate.arrive(actor.0, polls);
        if !lock.lock(rt).turn(actor) {
            return;
        }
        polls = polls.saturating_add(1);
    }
}

/// Starts a thread for each actor and waits for all of them. Where one can't be started, those that
/// were end at their next turn.
fn run_threads<'a, K: Course + Send, R: Threads + Wait + Sync, G: Gate>(
    rt: &R,
    lock: &Mutex<Locked<'a, K>>,
    actors: usize,
    gate: &G,
) {
    thread::scope(thread::scope_env(), rt, |scope| {
        for actor in 0..actors {
            if scope
                .spawn(move || turns(rt, lock, ActorId(actor), gate))
                .is_err()
            {
                lock.lock(rt).stop();
                return;
            }
        }
    });
}

/// A run of the machine under a lock, with a thread for each actor.
fn run_locked<'a, K: Course + Send, R: Threads + Wait + Sync, G: Gate>(
    rt: &R,
    machine: Machine<'a>,
    gate: &G,
) -> Result<Trace, RunFault>
    requires app { machine.approved.app ≡ K.app }
    requires words { machine.words ≡ K.words }
    requires polls { machine.polls ≡ K.polls }
    ensures run { IfOk result (λ t. IsRunOf K.app K.words K.polls t.entries.items) }
    ensures words { IfOk result (λ t. t.words.items ≡ K.words) }
    ensures fault { IfErr result (λ f. (f ≢ Polls) × (f ≢ Spent) × (f ≢ NoActor)) }
{
    let actors = machine.actors();
    let lock: Mutex<Locked<'a, K>> = Mutex::new(Locked::new(machine));
    run_threads(rt, &lock, actors, gate);
    let mut machine = lock.into_inner().into_machine()?;
    finish(&mut machine)?;
    Ok(machine.into_trace())
}

/// Runs an application that has passed, each actor in a thread of its own, for so many polls, and
/// gives the trace. Each thread arrives at the gate with its actor's number and its own polls so far,
/// takes the one lock and polls the machine, and ends when its actor is done or no poll is left.
/// After that one thread polls alone while a poll is left and some actor isn't done.
///
/// The trace replays from the start: each entry is a step by the choice that its word picks, or a
/// true "blocked". It has exactly `polls` entries, or fewer where every actor is done after them.
/// The order of the actors is open, and that the call returns isn't promised.
///
/// # Errors
///
/// `Polls` exactly where there are more than 1,000,000, before any memory is asked for; `Memory` where
/// memory is refused; `Threads` where a thread can't be started. Threads that were started have
/// ended then.
pub fn run<R: Threads + Wait + Sync, G: Gate>(
    rt: &R,
    alloc: Global,
    passed: &Passed,
    polls: u64,
    words: &[u64],
    gate: &G,
) -> Result<Trace, RunFault>
    ensures run { IfOk result (λ t. IsRunOf passed.now.app words.now polls t.entries.items) }
    ensures words { IfOk result (λ t. t.words.items ≡ words.now) }
    ensures polls { IsErrOf result Polls ↔ (1000000 < polls) }
    ensures fault { IfErr result (λ f. (f ≢ Spent) × (f ≢ NoActor)) }
{
    let machine = Machine::new(alloc, passed, polls, words)?;
    run_locked::<Brand, R, G>(rt, machine, gate)
}
