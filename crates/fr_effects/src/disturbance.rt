// Whether another actor's steps leave a point's note holding.
ghost use Rattle.std.specs.Prelude.{◌≡◌, ◌≢◌, ◌<◌, ◌↔◌, IsTrue, Some, Contains, length, slice_get};
ghost use Rattle.fr_program.specs.declared.ids.Point.{Point};
ghost use Rattle.fr_program.specs.Lookup.{IsPoint};
ghost use Rattle.fr_program.specs.Points.{points_of};
ghost use Rattle.fr_notes.specs.Fits.{AlternativeFits, NoteFits, NotesFit};
ghost use Rattle.fr_notes.specs.Known.{IsPossible, KnownFits, IsOther, LeavesSome};
ghost use Rattle.fr_notes.specs.Note.{Alternative as AlternativeOf};
ghost use Rattle.fr_effects.specs.Disturbance.{SparesSome, IsSparedByRows};
ghost use Rattle.fr_effects.specs.Undisturbed.{Undisturbed};

use crate::effects::{all_bear, effect_of};
use fr_notes::{Alternative, Case, Change, Known, Note, Notes, Spot, can_meet, change_by, spares};
use fr_program::App;
use fr_rules::Way;

/// Whether some alternative of the note holds of the other actor after each step that makes this
/// change, where this one held before.
fn some_spared(known: &Known, alternative: &Alternative, change: &Change, note: &Note) -> bool
    requires possible { IsPossible known.now }
    requires other { known.now.other ≡ Some alternative.now }
    ensures { IsTrue result ↔ SparesSome known.now alternative.now change.now note.now }
{
    note.alternatives().iter().any(
        |next|
            requires possible { IsPossible known.now }
            requires other { known.now.other ≡ Some alternative.now }
        { spares(known, alternative, change, next) },
    )
}

/// Whether one alternative of the note is left by every step of the mover by this row.
fn is_spared_by_row(
    mover: &Spot,
    known: &Known,
    alternative: &Alternative,
    way: Way,
    note: &Note,
) -> bool
    requires fits { KnownFits mover.now.app.now known.now }
    requires other { known.now.other ≡ Some alternative.now }
    requires note { NoteFits mover.now.app.now note.now }
    ensures { (p : Point) → IsOther mover.now.app.now known.now mover.now.point p →
        (IsTrue result ↔ LeavesSome mover.now.app.now known.now mover.now.point p way p.actor.0 note.now) }
{
    match change_by(mover.app, known, mover.point, mover.instr, way) {
        Some(change) => some_spared(known, alternative, &change, note),
        None => true,
    }
}

/// Whether, for this alternative of the note and that one of the mover's, one alternative of the note is
/// left by every step of the mover by either row. Where the two exclude each other, no state has such a
/// step.
fn is_spared(mover: &Spot, alternative: &Alternative, other: &Alternative, note: &Note) -> bool
    requires alternative { AlternativeFits mover.now.app.now alternative.now }
    requires other { AlternativeFits mover.now.app.now other.now }
    requires note { NoteFits mover.now.app.now note.now }
    ensures { (p : Point) → IsPoint mover.now.app.now p → p.actor ≢ mover.now.point.actor →
        (IsTrue result ↔ IsSparedByRows mover.now.app.now p alternative.now mover.now.point other.now note.now) }
{
    if !can_meet(other, alternative) {
        return true;
    }
    let known = Known::beside(other, alternative);
    is_spared_by_row(mover, &known, alternative, Way::Then, note)
        && is_spared_by_row(mover, &known, alternative, Way::Else, note)
}

/// Whether, for this alternative of the note and each one of the mover's, one alternative of the note is
/// left by every step of the mover, row by row.
fn is_spared_beside_each(mover: &Spot, alternative: &Alternative, note: &Note) -> bool
    requires alternative { AlternativeFits mover.now.app.now alternative.now }
    requires note { NoteFits mover.now.app.now note.now }
    ensures { (p : Point) → IsPoint mover.now.app.now p → p.actor ≢ mover.now.point.actor →
        (IsTrue result ↔ ((m : AlternativeOf) → Contains mover.now.note.now m → IsSparedByRows mover.now.app.now p alternative.now mover.now.point m note.now)) }
{
    for other in mover.note.alternatives() {
        if !is_spared(mover, alternative, other, note) {
            return false;
        }
    }
    true
}

/// Whether, for each alternative of the note and each one of the mover's, one alternative of the note is
/// left by every step of the mover, row by row.
fn is_each_spared(mover: &Spot, note: &Note) -> bool
    requires { NoteFits mover.now.app.now note.now }
    ensures { (p : Point) → IsPoint mover.now.app.now p → p.actor ≢ mover.now.point.actor →
        (IsTrue result ↔ ((n m : AlternativeOf) → Contains note.now n → Contains mover.now.note.now m → IsSparedByRows mover.now.app.now p n mover.now.point m note.now)) }
{
    for alternative in note.alternatives() {
        if !is_spared_beside_each(mover, alternative, note) {
            return false;
        }
    }
    true
}

/// Whether no step from the mover's point disturbs the note. Where each alternative of the note holds
/// after what the instruction can change, nothing else is asked.
fn is_left(mover: &Spot, note: &Note) -> bool
    requires { NoteFits mover.now.app.now note.now }
    ensures { (p : Point) → IsPoint mover.now.app.now p → p.actor ≢ mover.now.point.actor →
        (IsTrue result ↔ ((n m : AlternativeOf) → Contains note.now n → Contains mover.now.note.now m → IsSparedByRows mover.now.app.now p n mover.now.point m note.now)) }
{
    mover.app.recall_faultless();
    let effect = effect_of(mover.app, mover.point.side, mover.instr);
    all_bear(mover.app, effect, mover.note, note) || is_each_spared(mover, note)
}

/// Whether no step of another actor from the point with the other number disturbs the note of the
/// point with this one. Between points of one actor none does. The notes fit the application. Takes
/// no memory.
pub fn undisturbed(app: &App, notes: &Notes, number: usize, other: usize) -> bool
    requires number { number < length (points_of app.now) }
    requires other { other < length (points_of app.now) }
    requires fit { NotesFit app.now notes.now }
    ensures { (p q : Point) → slice_get (points_of app.now) number ≡ Some p →
        slice_get (points_of app.now) other ≡ Some q → (IsTrue result ↔ Undisturbed app.now notes.now p q) }
{
    app.recall_numbered();
    let point = app.point(number);
    match (Case { app, notes }).spot(other) {
        None => true,
        Some(mover) => {
            point.actor.0 == mover.point.actor.0 || is_left(&mover, notes.at(app, number))
        }
    }
}
