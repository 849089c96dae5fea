// A step that is shown: the states before and after it.
ghost use Rattle.std.specs.Prelude.{◌≡◌, ◌<◌, IfOk, IfSome, length};
ghost use Rattle.fr_rules.specs.State.{IsWellFormed};
ghost use Rattle.fr_witness.specs.Shown.{IsTaken};

use fr_calls::{Rule, State, Way};
use fr_program::{ActorId, App};
use std::alloc::AllocError;

/// A step: the state before it, the actor that moves with its choice, and the state after it.
#[derive(Drop)]
pub struct Taken {
    pub before: State,
    pub actor: ActorId,
    pub choice: i64,
    pub after: State,
}

/// The actor's step from this state by a choice, with its row of the step table; None where it has no
/// such step, or would put a number out of its declared range.
pub(crate) fn step_from(
    app: &App,
    before: &State,
    actor: ActorId,
    choice: i64,
) -> Result<Option<(Way, Taken)>, AllocError>
    requires formed { IsWellFormed app.now before.now }
    requires actor { actor.0 < length app.now.actors }
    ensures { IfOk result (λ found. IfSome found
        (λ t. IsTaken app.now t.0 t.1 × (t.1.before ≡ before.now) × (t.1.actor ≡ actor))) }
{
    let can = before.moves(app, actor).has(choice)
        && before.is_shallow(app, actor)
        && !before.breaches(app, actor, Rule::InRange);
    if !can {
        return Ok(None);
    }
    let way = before.way(app, actor, choice);
    let mut after = before.copied()?;
    after.apply(app, actor, choice)?;
    Ok(Some((
        way,
        Taken {
            before: before.copied()?,
            actor,
            choice,
            after,
        },
    )))
}
