// Deletes of an object while another actor is inside a call on it.
ghost use Rattle.std.specs.Prelude.{◌≡◌, ◌<◌, ◌↔◌, IsTrue, Some, length, slice_get};
ghost use Rattle.fr_program.specs.declared.ids.Point.{Point};
ghost use Rattle.fr_program.specs.Lookup.{instr_of};
ghost use Rattle.fr_program.specs.Points.{points_of};
ghost use Rattle.fr_notes.specs.Fits.{NotesFit};
ghost use Rattle.fr_ends.specs.Guarded.{deleted_before, Near};
ghost use Rattle.fr_ends.specs.Nearness.{used_inside, deletes_used};

use crate::guarding::called_inside;
use fr_notes::{Notes, together};
use fr_program::{App, Call, Instr, ObjId, Point, Side};

/// The object of the call that the point is inside; None where it is inside none.
pub fn used_inside(app: &App, point: Point) -> Option<ObjId>
    ensures { result ≡ used_inside point.side (instr_of app.now point) }
{
    called_inside(app, point).map(|call| call.object)
}

/// The object that the point's instruction deletes.
fn deleted_before(app: &App, point: Point) -> Option<ObjId>
    ensures { result ≡ deleted_before point.side (instr_of app.now point) }
{
    match (point.side, app.instr(point)) {
        (Side::Before, Some(Instr::Call(Call::Delete { object, .. }))) => Some(*object),
        (_, _) => None,
    }
}

/// Whether the other point's instruction deletes the object of the call that the point is inside.
fn deletes_used(app: &App, point: Point, other: Point) -> bool
    ensures { result ≡ deletes_used app.now point other }
{
    match (used_inside(app, point), deleted_before(app, other)) {
        (Some(used), Some(deleted)) => used.0 == deleted.0,
        (_, _) => false,
    }
}

/// Whether a delete at the point with the other number is no danger to the point with this one: that
/// isn't inside a call on the object that is deleted, or no state has both notes. Between points of
/// one actor it is none. The notes fit the application. Takes no memory.
pub fn near(app: &App, notes: &Notes, number: usize, other: usize) -> bool
    requires number { number < length (points_of app.now) }
    requires other { other < length (points_of app.now) }
    requires fit { NotesFit app.now notes.now }
    ensures { (p q : Point) → slice_get (points_of app.now) number ≡ Some p →
        slice_get (points_of app.now) other ≡ Some q → (IsTrue result ↔ Near app.now notes.now p q) }
{
    app.recall_faultless();
    app.recall_numbered();
    let (point, other_point) = (app.point(number), app.point(other));
    if point.actor.0 == other_point.actor.0 {
        return true;
    }
    if !deletes_used(app, point, other_point) {
        return true;
    }
    let (note, other_note) = (notes.at(app, number), notes.at(app, other));
    !together(app, point.actor, note, other_point.actor, other_note)
}
