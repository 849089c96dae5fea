// What a note says of a state: the first thing that is otherwise.
ghost use Rattle.std.specs.Prelude.{◌≡◌, ◌<◌, ◌↔◌, ℕ, All, IsTrue, IfSome, IfNone, length};
ghost use Rattle.fr_rules.specs.State.{IsWellFormed, value_of, content_of};
ghost use Rattle.fr_notes.specs.Fits.{AlternativeFits, NoteFits};
ghost use Rattle.fr_notes.specs.Note.{Meets, Within, HoldsOne, Holds, claim_of, range_of};
ghost use Rattle.fr_witness.specs.Subject.{IsFirstBroken};

use fr_calls::{Content, State, Stock};
use fr_notes::{Alternative, Claim, Note, Subject};
use fr_program::{ActorId, App, ObjId, VarId};

/// Whether the claim is true of the object for the actor.
fn is_met(claim: Claim, actor: ActorId, content: &Content) -> bool
    ensures { IsTrue result ↔ Meets actor.0 claim content.now }
{
    match claim {
        Claim::NotHeld => content.count_held(actor) == 0,
        Claim::Alive => !content.is_dead() && content.count_held(actor) == 0,
        Claim::Gone => content.is_dead(),
        Claim::HeldTimes(count) => is_held_times(content, actor, count),
    }
}

/// Whether the actor holds the object exactly so often.
fn is_held_times(content: &Content, actor: ActorId, count: u32) -> bool
    ensures { IsTrue result ↔ Meets actor.0 (Claim.HeldTimes count) content.now }
{
    match content.stock() {
        Stock::Held {
            holder,
            count: times,
        } => holder.0 == actor.0 && *times == count,
        _ => false,
    }
}

/// The first object of which what the alternative says isn't true for the actor.
fn object_broken(
    app: &App,
    alternative: &Alternative,
    actor: ActorId,
    state: &State,
) -> Option<ObjId>
    requires formed { IsWellFormed app.now state.now }
    requires fits { AlternativeFits app.now alternative.now }
    ensures some { IfSome result (λ b. (Meets actor.0 (claim_of alternative.now b.0) (content_of state.now b.0) → ⊥)
        × ((o : ℕ) → o < b.0 → Meets actor.0 (claim_of alternative.now o) (content_of state.now o))) }
    ensures none { IfNone result ((o : ℕ) → Meets actor.0 (claim_of alternative.now o) (content_of state.now o)) }
{
    for number in 0..app.objects().len() {
        let object = ObjId(number);
        if !is_met(alternative.claim(object), actor, state.content(object)) {
            return Some(object);
        }
    }
    None
}

/// The first variable that isn't in the range that the alternative says.
fn variable_broken(app: &App, alternative: &Alternative, state: &State) -> Option<VarId>
    requires formed { IsWellFormed app.now state.now }
    requires fits { AlternativeFits app.now alternative.now }
    ensures some { IfSome result (λ b. (Within (range_of alternative.now b.0) (value_of state.now b.0) → ⊥)
        × ((x : ℕ) → x < b.0 → Within (range_of alternative.now x) (value_of state.now x))) }
    ensures none { IfNone result ((x : ℕ) → Within (range_of alternative.now x) (value_of state.now x)) }
{
    for number in 0..app.variables().len() {
        let variable = VarId(number);
        if !alternative.range(variable).has(state.value(variable)) {
            return Some(variable);
        }
    }
    None
}

/// The first thing that the state has otherwise than the alternative says of the actor: its depth in
/// the critical section, its suspension depth, an object, a variable, in this order and each by its
/// number. None exactly where the alternative holds. State, actor and alternative are of the
/// application. Takes no memory.
pub fn claim_broken(
    app: &App,
    alternative: &Alternative,
    actor: ActorId,
    state: &State,
) -> Option<Subject>
    requires formed { IsWellFormed app.now state.now }
    requires fits { AlternativeFits app.now alternative.now }
    requires actor { actor.0 < length app.now.actors }
    ensures { IsFirstBroken alternative.now actor.0 state.now result }
{
    if state.depth(actor) != u32::from(alternative.critical()) {
        return Some(Subject::Critical);
    }
    if state.suspension(actor) != u32::from(alternative.suspended()) {
        return Some(Subject::Suspended);
    }
    if let Some(object) = object_broken(app, alternative, actor, state) {
        return Some(Subject::Object(object));
    }
    match variable_broken(app, alternative, state) {
        Some(variable) => Some(Subject::Variable(variable)),
        None => None,
    }
}

/// Whether the alternative holds of the actor in the state. Takes no memory.
pub(crate) fn holds_one(app: &App, alternative: &Alternative, actor: ActorId, state: &State) -> bool
    requires formed { IsWellFormed app.now state.now }
    requires fits { AlternativeFits app.now alternative.now }
    requires actor { actor.0 < length app.now.actors }
    ensures { IsTrue result ↔ HoldsOne alternative.now actor.0 state.now }
{
    claim_broken(app, alternative, actor, state).is_none()
}

/// Whether the note holds of the actor in the state: one of its alternatives does. Takes no memory.
pub fn note_holds(app: &App, note: &Note, actor: ActorId, state: &State) -> bool
    requires formed { IsWellFormed app.now state.now }
    requires fits { NoteFits app.now note.now }
    requires actor { actor.0 < length app.now.actors }
    ensures { IsTrue result ↔ Holds note.now actor.0 state.now }
{
    for alternative in note.alternatives() {
        if holds_one(app, alternative, actor, state) {
            return true;
        }
    }
    false
}
