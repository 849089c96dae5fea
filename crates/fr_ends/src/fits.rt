// Whether guards fit an application.
ghost use Rattle.std.specs.Prelude.{◌≡◌, ◌↔◌, ◌<◌, ℕ, IsTrue, All, AllPairs, Any, IfNone, IfSome, length, map};
ghost use Rattle.fr_program.specs.Limits.{IsNumber};
ghost use Rattle.fr_ends.specs.Guard.{Turn, ByMutex};
ghost use Rattle.fr_ends.specs.Certificate.{HasDistinctTurns};
ghost use Rattle.fr_ends.specs.Fits.{is_any_buffer, is_any_mutex, AreRising, GuardFits, EndFits, EndsFit};
ghost use Rattle.fr_ends.specs.Refused.{IsPresent};
ghost use Rattle.fr_ends.specs.Tests.{is_turn_value, are_turn_values, is_value_of, are_distinct};
ghost use Rattle.fr_ends.specs.View.{values_of, guard_of, end_of};

use crate::ends::EndName;
use crate::fault::EndsFault;
use crate::guard::{EndGuard, Guard};
use fr_notes::{object_count, variable_count};
use fr_program::{ActorId, App, Kind, ObjId, VarId};
use std::collections::BTreeMap;

/// Whether the kind is that of a stream or message buffer.
fn is_any_buffer(kind: Kind) -> bool
    ensures { result ≡ is_any_buffer kind }
{
    match kind {
        Kind::Stream { .. } | Kind::Message { .. } => true,
        _ => false,
    }
}

/// Whether the kind is that of a mutex, plain or recursive.
fn is_any_mutex(kind: Kind) -> bool
    ensures { result ≡ is_any_mutex kind }
{
    match kind {
        Kind::Mutex | Kind::Recursive => true,
        _ => false,
    }
}

/// How many actors the application has.
fn actor_count(app: &App) -> usize
    ensures { result ≡ length app.now.actors }
{
    app.actors().len()
}

/// Whether the actor is one of so many. Its value has 64 bits, as each `i64`.
fn is_turn_value(count: usize, actor: ActorId, value: i64) -> bool
    ensures { result ≡ is_turn_value count (actor, value) }
{
    let _value = value;
    actor.0 < count
}

/// Whether each actor of a turn is one of so many.
fn are_turn_values(count: usize, values: &BTreeMap<ActorId, i64>) -> bool
    ensures { result ≡ are_turn_values count values.now.entries }
{
    values
        .iter()
        .all(|(actor, value)| is_turn_value(count, *actor, *value))
}

/// Whether no other actor has this value.
fn is_value_of(values: &BTreeMap<ActorId, i64>, actor: ActorId, value: i64) -> bool
    ensures { result ≡ is_value_of values.now.entries actor.0 value }
{
    values
        .iter()
        .all(|(other, their)| *their != value || other.0 == actor.0)
}

/// Whether no two actors have one value.
fn are_distinct(values: &BTreeMap<ActorId, i64>) -> bool
    ensures distinct { result ≡ are_distinct values.now.entries values.now.entries }
    ensures rising { AreRising (values_of values.now) }
{
    values
        .iter()
        .all(|(actor, value)| is_value_of(values, *actor, *value))
}

/// Whether the values of a turn are of actors of the application, and distinct.
fn values_fit(app: &App, values: &BTreeMap<ActorId, i64>) -> bool
    ensures { (x : ℕ) → (IsTrue result
        ↔ (All (λ v. (v.0 < length app.now.actors) × IsNumber v.1) (values_of values.now)
        × HasDistinctTurns (Turn x (values_of values.now)) × AreRising (values_of values.now))) }
{
    are_turn_values(actor_count(app), values) && are_distinct(values)
}

/// Whether this is a mutex of the application.
fn is_mutex_of(app: &App, mutex: ObjId) -> bool
    ensures { IsTrue result ↔ GuardFits app.now (ByMutex mutex.0) }
{
    mutex.0 < object_count(app) && is_any_mutex(app.kind(mutex))
}

/// Whether the guard names things of the application.
fn guard_fits(app: &App, guard: &Guard) -> bool
    ensures { IsTrue result ↔ GuardFits app.now (guard_of guard.now) }
{
    match guard {
        Guard::Sole(actor) => actor.0 < actor_count(app),
        Guard::Mutex(mutex) => is_mutex_of(app, *mutex),
        Guard::Critical => true,
        Guard::Turn(variable, values) => {
            variable.0 < variable_count(app) && values_fit(app, values)
        }
    }
}

/// Whether it is the guard of an end of a stream or message buffer, and fits.
pub fn end_fits(app: &App, end: &EndGuard) -> bool
    ensures { IsTrue result ↔ EndFits app.now (end_of end.now) }
{
    let buffer = end.end.buffer;
    buffer.0 < object_count(app) && is_any_buffer(app.kind(buffer)) && guard_fits(app, &end.guard)
}

/// Whether each of them fits.
fn all_fit(app: &App, ends: &[EndGuard]) -> bool
    ensures { IsTrue result ↔ All (λ e. EndFits app.now (end_of e)) ends.now }
{
    ends.iter().all(|end| end_fits(app, end))
}

/// Whether one of the guards is of this end.
pub fn is_listed(ends: &[EndGuard], end: EndName) -> bool
    ensures { IsTrue result ↔ Any (λ e. e.end ≡ end) ends.now }
{
    ends.iter().any(|listed| listed.end == end)
}

/// Whether no two of them are of one end.
fn are_apart(ends: &[EndGuard]) -> bool
    ensures { IsTrue result ↔ AllPairs (λ e f. e.end ≡ f.end → ⊥) ends.now }
{
    for (index, end) in ends.iter().enumerate() {
        if is_listed(&ends[index + 1..], end.end) {
            return false;
        }
    }
    true
}

/// The fault that is present in guards, or None where they fit the application.
pub fn refusal(app: &App, ends: &[EndGuard]) -> Option<EndsFault>
    ensures none { IfNone result (EndsFit app.now (map end_of ends.now)) }
    ensures some { IfSome result (IsPresent app.now (map end_of ends.now)) }
{
    if !all_fit(app, ends) {
        return Some(EndsFault::Guard);
    }
    if !are_apart(ends) {
        return Some(EndsFault::EndTwice);
    }
    None
}
