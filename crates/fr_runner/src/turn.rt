// One turn of an actor, from a state that keeps the notes of a certificate.
ghost use Rattle.std.specs.Prelude.{◌≡◌, ◌<◌, length, IfOk, OnOk, OnErr};
ghost use Rattle.fr_judge.specs.Sound.{KeepsNotes};
ghost use Rattle.fr_runner.specs.Trace.{IsEntry, actor_of};

use crate::choice::chosen;
use crate::trace::Entry;
use fr_calls::State;
use fr_judge::{Passed, a_step_keeps_notes, notes_exclude_breaches};
use fr_program::ActorId;
use std::alloc::AllocError;

/// The actor steps by the choice that the word picks, or is blocked where it has no step. Where
/// memory is refused, the state is as it was.
pub(crate) fn turn(
    passed: &Passed,
    state: &mut State,
    actor: ActorId,
    word: u64,
) -> Result<Entry, AllocError>
    requires notes { KeepsNotes passed.now.app passed.now.certificate state.old }
    requires actor { actor.0 < length passed.now.app.actors }
    ensures entry { IfOk result (λ e. IsEntry passed.now.app word state.old e state.new) }
    ensures whose { IfOk result (λ e. actor_of e ≡ actor) }
    ensures notes { OnOk result (KeepsNotes passed.now.app passed.now.certificate state.new) }
    ensures err { OnErr result (state.new ≡ state.old) }
{
    passed.recall_certified();
    a_step_keeps_notes();
    notes_exclude_breaches();
    let app = passed.app();
    let Some(choice) = chosen(state.moves(app, actor), word) else {
        return Ok(Entry::Blocked(actor));
    };
    state.apply(app, actor, choice)?;
    Ok(Entry::Stepped(actor, choice))
}
