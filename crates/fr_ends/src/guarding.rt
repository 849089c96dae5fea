// Whether a point inside a call on a buffer has the guards of the ends that the call is at.
ghost use Rattle.std.specs.Prelude.{◌≡◌, ◌<◌, ◌↔◌, IsTrue, IfSome, Some, length, slice_get};
ghost use Rattle.fr_program.specs.declared.ids.Point.{Point};
ghost use Rattle.fr_program.specs.Lookup.{instr_of};
ghost use Rattle.fr_program.specs.Points.{points_of};
ghost use Rattle.fr_notes.specs.Known.{is_held};
ghost use Rattle.fr_notes.specs.Note.{claim_of};
ghost use Rattle.fr_ends.specs.Certificate.{value_for};
ghost use Rattle.fr_ends.specs.Fits.{CertificateFits};
ghost use Rattle.fr_ends.specs.FirstEnd.{IsFirstEnd, inside_end};
ghost use Rattle.fr_ends.specs.Guard.{Turn};
ghost use Rattle.fr_ends.specs.Guarded.{called_inside};
ghost use Rattle.fr_ends.specs.Implied.{SaysGuard, NoteSays, KeepsEnd};
ghost use Rattle.fr_ends.specs.View.{values_of, guard_of};

use crate::certificate::Certificate;
use crate::ends::{EndName, Ends};
use crate::guard::Guard;
use fr_notes::{Alternative, Claim, Known, Note};
use fr_program::{ActorId, App, Call, End, Instr, ObjId, ObjectCall, Point, Range, Side, VarId};
use fr_rules::is_at_end;
use std::collections::BTreeMap;

/// The object call that the point is inside; None where it is inside none.
pub(crate) fn called_inside(app: &App, point: Point) -> Option<ObjectCall>
    ensures { result ≡ called_inside point.side (instr_of app.now point) }
{
    match (point.side, app.instr(point)) {
        (Side::Inside, Some(Instr::Call(Call::On(call)))) => Some(*call),
        (_, _) => None,
    }
}

/// Whether the point is inside a call at this end of its buffer.
pub fn is_inside_end(app: &App, point: Point, end: EndName) -> bool
    ensures { result ≡ inside_end (called_inside point.side (instr_of app.now point)) end }
{
    match called_inside(app, point) {
        Some(call) => call.object.0 == end.buffer.0 && is_at_end(end.end, call.act),
        None => false,
    }
}

/// The turn value that is listed for an actor.
pub fn value_for(values: &BTreeMap<ActorId, i64>, actor: ActorId) -> Option<i64>
    ensures { result ≡ value_for (values_of values.now) actor.0 }
{
    values.get(&actor).copied()
}

/// Whether the variable can have the actor's value alone.
#[tactic(auto, unfolding(crate::specs::Implied::SaysGuard))]
fn has_turn(
    alternative: &Alternative,
    actor: ActorId,
    variable: VarId,
    values: &BTreeMap<ActorId, i64>,
) -> bool
    ensures { IsTrue result ↔ SaysGuard alternative.now actor.0 (Turn variable.0 (values_of values.now)) }
{
    match value_for(values, actor) {
        Some(value) => alternative.range(variable) == Range::only(value),
        None => false,
    }
}

/// Whether the alternative says that its actor holds the mutex.
fn holds(alternative: &Alternative, mutex: ObjId) -> bool
    ensures { result ≡ is_held (claim_of alternative.now mutex.0) }
{
    matches!(alternative.claim(mutex), Claim::HeldTimes(_))
}

/// Whether the alternative says that the guard holds of its actor.
#[tactic(auto, unfolding(crate::specs::Implied::SaysGuard))]
fn says_guard(alternative: &Alternative, actor: ActorId, guard: &Guard) -> bool
    ensures { IsTrue result ↔ SaysGuard alternative.now actor.0 (guard_of guard.now) }
{
    match guard {
        Guard::Sole(only) => actor.0 == only.0,
        Guard::Mutex(mutex) => holds(alternative, *mutex),
        Guard::Critical => alternative.critical() > 0,
        Guard::Turn(variable, values) => has_turn(alternative, actor, *variable, values),
    }
}

/// Whether each alternative of the note says that the guard holds of its actor. Takes no memory.
pub fn note_says(note: &Note, actor: ActorId, guard: &Guard) -> bool
    ensures { IsTrue result ↔ NoteSays note.now actor.0 (guard_of guard.now) }
{
    note.alternatives()
        .iter()
        .all(|alternative| says_guard(alternative, actor, guard))
}

/// Whether an actor with this note, inside this call, isn't at the end or has its guard. An end without
/// a listed guard is kept by no note.
fn keeps_end(ends: &Ends, note: &Note, actor: ActorId, end: End, call: ObjectCall) -> bool
    ensures { IsTrue result ↔ KeepsEnd ends.now note.now actor.0 end call }
{
    if !is_at_end(end, call.act) {
        return true;
    }
    let buffer = call.object;
    match ends.guard(EndName { buffer, end }) {
        Some(guard) => note_says(note, actor, guard),
        None => false,
    }
}

/// The first end, the writer's before the reader's, that the point with this number owes and whose
/// guard its note doesn't imply; None where there is none. A point owes the writer's end inside a
/// send, the reader's inside a receive and both inside a reset, of a stream or message buffer. The
/// note implies a guard where the guard holds of the point's actor in each state in which the actor
/// is at the point and the note holds of it. An end without a listed guard is implied by no note. The
/// certificate fits the application. Takes no memory.
pub fn guarded(app: &App, certificate: &Certificate, number: usize) -> Option<EndName>
    requires number { number < length (points_of app.now) }
    requires fit { CertificateFits app.now certificate.now }
    ensures first { (p : Point) → slice_get (points_of app.now) number ≡ Some p →
        IsFirstEnd app.now certificate.now p result }
    ensures buffer { IfSome result (λ e. e.buffer.0 < length app.now.objects) }
{
    app.recall_faultless();
    app.recall_numbered();
    let point = app.point(number);
    let call = called_inside(app, point)?;
    let (notes, ends) = (&certificate.notes, &certificate.ends);
    let (note, buffer) = (notes.at(app, number), call.object);
    if !keeps_end(ends, note, point.actor, End::Writer, call) {
        let end = End::Writer;
        return Some(EndName { buffer, end });
    }
    if !keeps_end(ends, note, point.actor, End::Reader, call) {
        let end = End::Reader;
        return Some(EndName { buffer, end });
    }
    None
}
