// The first point whose steps disturb a point's note.
ghost use Rattle.std.specs.Prelude.{◌≡◌, ◌<◌, All, AllPairs, Some, length, slice_get};
ghost use Rattle.std.specs.Option.{ForSome};
ghost use Rattle.fr_program.specs.declared.ids.Point.{Point};
ghost use Rattle.fr_program.specs.Points.{points_of};
ghost use Rattle.fr_notes.specs.Fits.{NotesFit};
ghost use Rattle.fr_effects.specs.Disturbance.{IsSpoiler};
ghost use Rattle.fr_effects.specs.Index.{IsIndexOf};
ghost use Rattle.fr_interfere.specs.Rows.{AreHullsOf, AreClosed};
ghost use Rattle.fr_interfere.specs.Spoilers.{IsFirstOf, IsListed, WritesInside, MakesOne, IsBelow, least_of};

use crate::rows::{Hulls, closed_to, first_among, maker_row, writer_row};
use fr_effects::{Index, is_free, is_unclaimed, undisturbed};
use fr_notes::Notes;
use fr_program::{App, ObjId, VarId};

/// The first of these points, whose numbers rise, that disturbs the point's note.
pub fn first_listed(app: &App, notes: &Notes, number: usize, listed: &[usize]) -> Option<usize>
    requires number { number < length (points_of app.now) }
    requires fit { NotesFit app.now notes.now }
    requires rising { AllPairs (λ j k. j < k) listed.now }
    requires below { All (λ k. k < length (points_of app.now)) listed.now }
    ensures { (p : Point) → slice_get (points_of app.now) number ≡ Some p →
        IsFirstOf app.now notes.now p (IsListed app.now listed.now) result }
{
    app.recall_numbered();
    for other in listed {
        if !undisturbed(app, notes, number, *other) {
            return Some(*other);
        }
    }
    None
}

/// The first point that disturbs the point's note by a number that it gives the variable, within its
/// declared range. Where the note says nothing of the variable, no point is looked at.
fn first_writer_of(
    app: &App,
    notes: &Notes,
    index: &Index,
    hulls: Option<&Hulls>,
    number: usize,
    variable: VarId,
    closed: &[bool],
) -> Option<usize>
    requires number { number < length (points_of app.now) }
    requires fit { NotesFit app.now notes.now }
    requires index { IsIndexOf app.now index.now }
    requires hulls { ForSome hulls (λ h. AreHullsOf app.now notes.now index.now h.now) }
    requires variable { variable.0 < length app.now.variables }
    requires closed { (p : Point) → slice_get (points_of app.now) number ≡ Some p →
        AreClosed app.now notes.now p closed.now }
    ensures { (p : Point) → slice_get (points_of app.now) number ≡ Some p →
        IsFirstOf app.now notes.now p (WritesInside app.now notes.now variable.0) result }
{
    app.recall_faultless();
    app.recall_numbered();
    if is_free(app, notes.at(app, number), variable) {
        None
    } else {
        first_among(
            app,
            notes,
            number,
            index.writers(variable),
            writer_row(hulls, variable),
            closed,
        )
    }
}

/// The first point that disturbs the point's note by creating or deleting the object. Where the note says
/// nothing of the object, no point is looked at.
fn first_maker_of(
    app: &App,
    notes: &Notes,
    index: &Index,
    hulls: Option<&Hulls>,
    number: usize,
    object: ObjId,
) -> Option<usize>
    requires number { number < length (points_of app.now) }
    requires fit { NotesFit app.now notes.now }
    requires index { IsIndexOf app.now index.now }
    requires hulls { ForSome hulls (λ h. AreHullsOf app.now notes.now index.now h.now) }
    requires object { object.0 < length app.now.objects }
    ensures { (p : Point) → slice_get (points_of app.now) number ≡ Some p →
        IsFirstOf app.now notes.now p (MakesOne app.now object.0) result }
{
    app.recall_faultless();
    app.recall_numbered();
    if is_unclaimed(notes.at(app, number), object) {
        None
    } else {
        first_among(
            app,
            notes,
            number,
            index.lives(object),
            maker_row(hulls, object),
            &[],
        )
    }
}

/// The lesser number, where there are two.
pub fn lesser(one: Option<usize>, other: Option<usize>) -> Option<usize>
    ensures { result ≡ least_of one other }
{
    match (one, other) {
        (Some(one), Some(other)) => { if one <= other { Some(one) } else { Some(other) } }
        (None, other) => other,
        (one, None) => one,
    }
}

/// The first point that disturbs the point's note by a number that it gives a variable, within its
/// declared range.
pub fn first_writer(
    app: &App,
    notes: &Notes,
    index: &Index,
    hulls: Option<&Hulls>,
    number: usize,
) -> Option<usize>
    requires number { number < length (points_of app.now) }
    requires fit { NotesFit app.now notes.now }
    requires index { IsIndexOf app.now index.now }
    requires hulls { ForSome hulls (λ h. AreHullsOf app.now notes.now index.now h.now) }
    ensures { (p : Point) → slice_get (points_of app.now) number ≡ Some p →
        IsFirstOf app.now notes.now p (IsBelow (WritesInside app.now notes.now) (length app.now.variables)) result }
{
    let closed = closed_to(app, notes, index, hulls, number);
    let mut least = None;
    for variable in 0..app.variables().len() {
        let writer = first_writer_of(app, notes, index, hulls, number, VarId(variable), &closed);
        least = lesser(least, writer);
    }
    least
}

/// The first point that disturbs the point's note by creating or deleting an object.
pub fn first_maker(
    app: &App,
    notes: &Notes,
    index: &Index,
    hulls: Option<&Hulls>,
    number: usize,
) -> Option<usize>
    requires number { number < length (points_of app.now) }
    requires fit { NotesFit app.now notes.now }
    requires index { IsIndexOf app.now index.now }
    requires hulls { ForSome hulls (λ h. AreHullsOf app.now notes.now index.now h.now) }
    ensures { (p : Point) → slice_get (points_of app.now) number ≡ Some p →
        IsFirstOf app.now notes.now p (IsBelow (MakesOne app.now) (length app.now.objects)) result }
{
    let mut least = None;
    for object in 0..app.objects().len() {
        let maker = first_maker_of(app, notes, index, hulls, number, ObjId(object));
        least = lesser(least, maker);
    }
    least
}

/// The least number of a point whose steps disturb the note of the point with this number; None
/// where no step of another actor does. The notes fit the application. Every point is looked at. Takes
/// no memory.
pub fn spoiler(app: &App, notes: &Notes, number: usize) -> Option<usize>
    requires number { number < length (points_of app.now) }
    requires fit { NotesFit app.now notes.now }
    ensures { (p : Point) → slice_get (points_of app.now) number ≡ Some p →
        IsSpoiler app.now notes.now p result }
{
    app.recall_numbered();
    for other in 0..app.points() {
        if !undisturbed(app, notes, number, other) {
            return Some(other);
        }
    }
    None
}
