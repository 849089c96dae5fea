// The rest of a run: what one thread polls of it alone.
ghost use Rattle.std.specs.Prelude.{◌≡◌, ◌≢◌, ◌<◌, ◌≤◌, ◌+◌, ◌^◌, ℕ, length, IfSome, IfNone, IfErr, OnOk};
ghost use Rattle.fr_rules.specs.State.{Done, place_of};
ghost use Rattle.fr_runner.specs.declared.fault.RunFault.TheVariants.{Polls, Threads, Spent, NoActor};
ghost use Rattle.fr_runner.specs.Trace.{AllDone};

use crate::fault::RunFault;
use crate::machine::Machine;
use fr_program::ActorId;

/// The first actor from `from` on, and below `to`, that isn't done.
fn first_waiting(machine: &Machine, from: usize, to: usize) -> Option<ActorId>
    requires { to ≡ length machine.now.approved.app.actors }
    ensures some { IfSome result (λ a. a.0 < to) }
    ensures none { IfNone result ((a : ℕ) → from ≤ a → a < to → place_of machine.now.state a ≡ Done) }
{
    for actor in from..to {
        if machine.waits(ActorId(actor)) {
            return Some(ActorId(actor));
        }
    }
    None
}

/// The next actor that isn't done, in their order, from this one on and then from the first.
fn next_waiting(machine: &Machine, from: usize) -> Option<ActorId>
    ensures some { IfSome result
        (λ a. (a.0 < length machine.now.approved.app.actors) × (a.0 + 1 < 2 ^ 64)) }
    ensures none { IfNone result (AllDone machine.now.approved.app machine.now.state) }
{
    let actors = machine.actors();
    match first_waiting(machine, from, actors) {
        Some(actor) => Some(actor),
        None => first_waiting(machine, 0, actors),
    }
}

/// Polls in actor order, while a poll is left and some actor isn't done.
pub(crate) fn finish(machine: &mut Machine) -> Result<(), RunFault>
    ensures of { (machine.new.approved ≡ machine.old.approved) × (machine.new.words ≡ machine.old.words) }
    ensures polls { machine.new.polls ≡ machine.old.polls }
    ensures done { OnOk result (0 < machine.new.left → AllDone machine.new.approved.app machine.new.state) }
    ensures fault { IfErr result (λ f. (f ≢ Polls) × (f ≢ Threads) × (f ≢ Spent) × (f ≢ NoActor)) }
{
    let mut from = 0;
    while machine.left() > 0 {
        let Some(actor) = next_waiting(machine, from) else {
            return Ok(());
        };
        machine.poll(actor)?;
        from = actor.0 + 1;
    }
    Ok(())
}
