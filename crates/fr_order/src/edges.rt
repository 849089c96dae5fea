// The edges of an application, read off the notes of a certificate.
ghost use Rattle.std.specs.Prelude.{◌≡◌, ◌<◌, ◌↔◌, ◌+◌, ℕ, Some, IsTrue, IfOk, IfSome, IfNone, length, slice_get};
ghost use Rattle.fr_program.specs.declared.ids.Point.{Point as PointOf};
ghost use Rattle.fr_program.specs.Lookup.{instr_of};
ghost use Rattle.fr_rules.specs.State.{kind_of};
ghost use Rattle.fr_notes.specs.Fits.{NotesFit};
ghost use Rattle.fr_order.specs.Order.{CanHold, IsEdge};
ghost use Rattle.fr_order.specs.Edges.{waits_to_take, inside_take, inside_any_take, can_be_edge, AreTakes, AreAllTakes, CanBeEdge, AreEdges, HasEdgesBelow};

use crate::edge::Edge;
use fr_notes::{Claim, Note, Notes, object_count};
use fr_program::{
    Act, App, Attempt, BlockTime, Call, Instr, Kind, ObjId, ObjectCall, Point, Side, Timing,
};
use std::alloc::{AllocError, Global};

/// Whether the call is a take that waits without limit.
fn waits_to_take(call: ObjectCall) -> bool
    ensures { result ≡ waits_to_take call.act call.timing }
{
    match (call.act, call.timing) {
        (
            Act::Try {
                attempt: Attempt::Take(_),
                ..
            },
            Timing::Waits(BlockTime::MaxDelay),
        ) => true,
        (_, _) => false,
    }
}

/// Whether the actor at the point is inside a take of the object that waits without limit.
fn is_inside_take(app: &App, point: Point, object: ObjId) -> bool
    ensures { result ≡ inside_take point.side (instr_of app.now point) object.0 }
{
    match (point.side, app.instr(point)) {
        (Side::Inside, Some(Instr::Call(Call::On(call)))) => {
            call.object.0 == object.0 && waits_to_take(*call)
        }
        (_, _) => false,
    }
}

/// Whether the actor at the point is inside a take of any object that waits without limit.
fn is_inside_any_take(app: &App, point: Point) -> bool
    ensures { result ≡ inside_any_take point.side (instr_of app.now point) }
{
    match (point.side, app.instr(point)) {
        (Side::Inside, Some(Instr::Call(Call::On(call)))) => waits_to_take(*call),
        (_, _) => false,
    }
}

/// The numbers of the points inside takes that wait without limit, of any object.
fn all_takes(alloc: Global, app: &App) -> Result<Vec<usize>, AllocError>
    ensures { IfOk result (λ takes. AreAllTakes app.now takes.items) }
{
    let mut takes = Vec::new(alloc);
    for number in 0..app.points() {
        if is_inside_any_take(app, app.point(number)) {
            takes.push(number)?;
        }
    }
    Ok(takes)
}

/// Those of them that are inside takes of the object.
fn takes_of(
    alloc: Global,
    app: &App,
    all: &[usize],
    object: ObjId,
) -> Result<Vec<usize>, AllocError>
    requires { AreAllTakes app.now all.now }
    ensures { IfOk result (λ takes. AreTakes app.now object.0 takes.items) }
{
    let mut takes = Vec::new(alloc);
    for number in all {
        if is_inside_take(app, app.point(*number), object) {
            takes.push(*number)?;
        }
    }
    Ok(takes)
}

/// Whether some alternative of the note says that the actor holds the mutex.
fn can_hold(note: &Note, mutex: ObjId) -> bool
    ensures { IsTrue result ↔ CanHold note.now mutex.0 }
{
    for alternative in note.alternatives() {
        if let Claim::HeldTimes(_) = alternative.claim(mutex) {
            return true;
        }
    }
    false
}

/// Whether an edge can lead from one object to the other, by their kinds.
fn can_be_edge(app: &App, held: ObjId, taken: ObjId) -> bool
    requires { taken.0 < length app.now.objects }
    ensures { result ≡ can_be_edge (kind_of app.now taken.0) held.0 taken.0 }
{
    match app.kind(taken) {
        Kind::Mutex => true,
        Kind::Recursive => held.0 != taken.0,
        _ => false,
    }
}

/// The edge from one object to the other at the first of these takes, if there is one.
fn first_edge(app: &App, notes: &Notes, held: ObjId, taken: ObjId, takes: &[usize]) -> Option<Edge>
    requires fit { NotesFit app.now notes.now }
    requires takes { AreTakes app.now taken.0 takes.now }
    requires kinds { CanBeEdge app.now held.0 taken.0 }
    ensures ends { IfSome result (λ e. (e.held.0 ≡ held.0) × (e.taken.0 ≡ taken.0)) }
    ensures edge { IfSome result (λ e. IsEdge app.now notes.now e.point held.0 taken.0) }
    ensures none { IfNone result ((p : PointOf) → IsEdge app.now notes.now p held.0 taken.0 → ⊥) }
{
    for number in takes {
        if can_hold(notes.at(app, *number), held) {
            return Some(Edge {
                held,
                taken,
                point: app.point(*number),
            });
        }
    }
    None
}

/// Adds the edges that lead to the object, of which all are known that lead to one before it.
fn add_edges(
    alloc: Global,
    app: &App,
    notes: &Notes,
    all: &[usize],
    taken: ObjId,
    mut edges: Vec<Edge>,
) -> Result<Vec<Edge>, AllocError>
    requires fit { NotesFit app.now notes.now }
    requires takes { AreAllTakes app.now all.now }
    requires taken { taken.0 < length app.now.objects }
    requires edges { AreEdges app.now notes.now edges.items }
    requires all { HasEdgesBelow app.now notes.now edges.items taken.0 }
    ensures edges { IfOk result (λ more. AreEdges app.now notes.now more.items) }
    ensures all { IfOk result (λ more. HasEdgesBelow app.now notes.now more.items (taken.0 + 1)) }
{
    let takes = takes_of(alloc, app, all, taken)?;
    for number in 0..object_count(app) {
        let held = ObjId(number);
        if can_be_edge(app, held, taken) {
            if let Some(edge) = first_edge(app, notes, held, taken, &takes) {
                edges.push(edge)?;
            }
        }
    }
    Ok(edges)
}

/// For each two mutexes with an edge from one to the other, the one at the first point.
pub(crate) fn edges_of(alloc: Global, app: &App, notes: &Notes) -> Result<Vec<Edge>, AllocError>
    requires { NotesFit app.now notes.now }
    ensures edges { IfOk result (λ edges. AreEdges app.now notes.now edges.items) }
    ensures all { IfOk result (λ edges. HasEdgesBelow app.now notes.now edges.items (length app.now.objects)) }
{
    let takes = all_takes(alloc, app)?;
    let mut edges = Vec::new(alloc);
    for number in 0..object_count(app) {
        edges = add_edges(alloc, app, notes, &takes, ObjId(number), edges)?;
    }
    Ok(edges)
}
