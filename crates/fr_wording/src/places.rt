// Where actors stand, with their lines of code.
ghost use Rattle.std.specs.Prelude.{◌≡◌, IfOk, Some, string_bytes};
ghost use Rattle.fr_rules.specs.State.{IsWellFormed, place_of};
ghost use Rattle.fr_calls.specs.View.{placed};
ghost use Rattle.fr_wording.specs.Sources.{source_at};
ghost use Rattle.fr_wording.specs.Standings.{IsPlaced, place_said};

use crate::listing::line_of_code;
use crate::sources::Sources;
use crate::standing::Standing;
use fr_calls::{Place, State};
use fr_program::{ActorId, App, Point};
use std::alloc::{AllocError, Global};

/// An actor at a point, with the line of code there. Its error is that an allocation was refused.
pub fn standing_at(
    alloc: Global,
    app: &App,
    sources: &Sources,
    point: Point,
) -> Result<Standing, AllocError>
    ensures placed { IfOk result (IsPlaced app.now point.actor) }
    ensures point { IfOk result (λ s. s.point ≡ Some point) }
    ensures source { IfOk result (λ s. string_bytes s.source ≡ source_at sources.now point) }
{
    Ok(Standing {
        actor: point.actor,
        point: Some(point),
        code: line_of_code(alloc, app, point)?,
        source: String::from_str(alloc, sources.at(point))?,
    })
}

/// Where the actor stands in the state; done where the application has no such actor.
pub fn actor_place(app: &App, state: &State, actor: ActorId) -> Place
    requires { IsWellFormed app.now state.now }
    ensures { placed result ≡ place_of state.now actor.0 }
{
    if actor.0 < app.actors().len() {
        state.place(actor)
    } else {
        Place::Done
    }
}

/// Where the actor is in the state, with its line of code. Its error is that an allocation was refused.
pub fn standing_in(
    alloc: Global,
    app: &App,
    sources: &Sources,
    actor: ActorId,
    state: &State,
) -> Result<Standing, AllocError>
    requires { IsWellFormed app.now state.now }
    ensures placed { IfOk result (IsPlaced app.now actor) }
    ensures place { IfOk result (λ s. place_said s ≡ place_of state.now actor.0) }
{
    match actor_place(app, state, actor) {
        Place::At { pc, side } => standing_at(alloc, app, sources, Point { actor, pc, side }),
        Place::Done => Ok(Standing {
            actor,
            point: None,
            code: String::new(alloc),
            source: String::new(alloc),
        }),
    }
}
