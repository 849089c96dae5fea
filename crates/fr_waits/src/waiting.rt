// Whom an actor waits for: the holder of a mutex that it takes without limit.
ghost use Rattle.std.specs.Prelude.{◌≡◌, ◌<◌, ◌↔◌, ℕ, length, None, IsTrue, IfSome, IfNone};
ghost use Rattle.fr_rules.specs.State.{IsWellFormed, Held, kind_of, content_of};
ghost use Rattle.fr_rules.specs.Step.{taken};
ghost use Rattle.fr_waits.specs.Waits.{TakesWithoutLimit, WaitsFor};

use fr_calls::{State, Stock};
use fr_program::{Act, ActorId, App, Attempt, BlockTime, Kind, ObjId, ObjectCall, Timing};

/// What an actor waits for: a mutex, and the actor that holds it.
#[derive(Clone, Copy, Debug, PartialEq, Eq)]
pub struct Awaited {
    pub mutex: ObjId,
    pub holder: ActorId,
}

/// Whether the call is a take that waits without limit.
fn takes_without_limit(call: &ObjectCall) -> bool
    ensures { IsTrue result ↔ TakesWithoutLimit call.now call.now.object.0 }
{
    match (call.act, call.timing) {
        (
            Act::Try {
                attempt: Attempt::Take(_),
                ..
            },
            Timing::Waits(BlockTime::MaxDelay),
        ) => true,
        _ => false,
    }
}

/// Whether the actor holds a recursive mutex, so that it can take it once more.
fn is_taken_again(kind: Kind, holder: ActorId, actor: ActorId) -> bool
    ensures works { (count : ℕ) →
        (IsTrue result → taken kind actor.0 (Held holder.0 count) ≡ None → ⊥) }
    ensures refused { (count : ℕ) →
        ((IsTrue result → ⊥) → taken kind actor.0 (Held holder.0 count) ≡ None) }
{
    matches!(kind, Kind::Recursive) && holder.0 == actor.0
}

/// The actor that holds the mutex, where a take by this actor can't work because of it.
fn holder_before(app: &App, state: &State, actor: ActorId, mutex: ObjId) -> Option<ActorId>
    requires formed { IsWellFormed app.now state.now }
    requires mutex { mutex.0 < length app.now.objects }
    ensures held { IfSome result
        (λ holder. (count : ℕ) × (content_of state.now mutex.0 ≡ Held holder.0 count)) }
    ensures refused { IfSome result
        (λ holder. taken (kind_of app.now mutex.0) actor.0 (content_of state.now mutex.0) ≡ None) }
    ensures none { IfNone result ((holder count : ℕ) →
        content_of state.now mutex.0 ≡ Held holder count →
        taken (kind_of app.now mutex.0) actor.0 (content_of state.now mutex.0) ≡ None → ⊥) }
{
    let Stock::Held { holder, .. } = state.content(mutex).stock() else {
        return None;
    };
    if is_taken_again(app.kind(mutex), *holder, actor) {
        return None;
    }
    Some(*holder)
}

/// Whom the actor waits for, and over which mutex. An actor waits for another one where it is inside a
/// take with `portMAX_DELAY` of a mutex that the other one holds; it waits for itself where it is inside
/// such a take of a plain mutex that it holds. None exactly where it waits for nobody in this way. State
/// and actor are of the application. Takes no memory.
pub fn waits_for(app: &App, state: &State, actor: ActorId) -> Option<Awaited>
    requires formed { IsWellFormed app.now state.now }
    requires actor { actor.0 < length app.now.actors }
    ensures some { IfSome result
        (λ w. WaitsFor app.now state.now actor.0 w.holder.0 w.mutex.0) }
    ensures none { IfNone result
        ((holder m : ℕ) → WaitsFor app.now state.now actor.0 holder m → ⊥) }
    ensures holder { IfSome result (λ w. w.holder.0 < length app.now.actors) }
{
    app.recall_faultless();
    let Some(call) = state.call_inside(app, actor) else {
        return None;
    };
    if !takes_without_limit(&call) {
        return None;
    }
    match holder_before(app, state, actor, call.object) {
        Some(holder) => Some(Awaited {
            mutex: call.object,
            holder,
        }),
        None => None,
    }
}
