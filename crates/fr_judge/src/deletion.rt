// Deletes of an object while the point's actor is inside a call on it.
ghost use Rattle.std.specs.Prelude.{◌≡◌, ◌<◌, Some, length, slice_get};
ghost use Rattle.fr_program.specs.declared.ids.Point.{Point as PointOf};
ghost use Rattle.fr_program.specs.Lookup.{instr_of};
ghost use Rattle.fr_program.specs.Points.{points_of};
ghost use Rattle.fr_notes.specs.Fits.{NotesFit};
ghost use Rattle.fr_ends.specs.Nearness.{used_inside};
ghost use Rattle.fr_effects.specs.Index.{IsIndexOf};
ghost use Rattle.fr_judge.specs.Deleter.{IsDeleter};

use fr_ends::{near, used_inside};
use fr_interfere::Index;
use fr_notes::Notes;
use fr_program::{App, ObjId, Point};

/// The least point at which another actor can delete the object of the call that the point with this
/// number is inside. None where no actor can, and where the point isn't inside a call. The notes fit
/// the application. Every point is looked at. Takes no memory.
pub fn deleter(app: &App, notes: &Notes, number: usize) -> Option<Point>
    requires number { number < length (points_of app.now) }
    requires fit { NotesFit app.now notes.now }
    ensures { (p : PointOf) → slice_get (points_of app.now) number ≡ Some p →
        IsDeleter app.now notes.now p result }
{
    app.recall_numbered();
    for other in 0..app.points() {
        if !near(app, notes, number, other) {
            return Some(app.point(other));
        }
    }
    None
}

/// The same as `deleter`, by the index of that application. Takes no memory.
pub fn deleter_by(app: &App, notes: &Notes, index: &Index, number: usize) -> Option<Point>
    requires number { number < length (points_of app.now) }
    requires fit { NotesFit app.now notes.now }
    requires index { IsIndexOf app.now index.now }
    ensures { (p : PointOf) → slice_get (points_of app.now) number ≡ Some p →
        IsDeleter app.now notes.now p result }
{
    app.recall_faultless();
    match used_inside(app, app.point(number)) {
        Some(object) => first_delete(app, notes, index, number, object),
        None => None,
    }
}

/// The least point at which this object, which the point is inside a call on, is deleted to its
/// danger. Only points that create or delete the object are looked at.
fn first_delete(
    app: &App,
    notes: &Notes,
    index: &Index,
    number: usize,
    object: ObjId,
) -> Option<Point>
    requires number { number < length (points_of app.now) }
    requires fit { NotesFit app.now notes.now }
    requires index { IsIndexOf app.now index.now }
    requires object { object.0 < length app.now.objects }
    ensures { (p : PointOf) → slice_get (points_of app.now) number ≡ Some p →
        used_inside p.side (instr_of app.now p) ≡ Some object → IsDeleter app.now notes.now p result }
{
    for other in index.lives(object) {
        if !near(app, notes, number, *other) {
            return Some(app.point(*other));
        }
    }
    None
}
