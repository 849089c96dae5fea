// Where a point's steps go.
ghost use Rattle.std.specs.Prelude.{◌≡◌, ◌<◌, ◌+◌, ◌↔◌, Some, length, All, IsTrue, Contains, slice_get};
ghost use Rattle.fr_notes.specs.Fits.{AlternativeFits, NoteFits};
ghost use Rattle.fr_notes.specs.Known.{IsPossible, Keeps};
ghost use Rattle.fr_edge.specs.Alternatives.{GoesWell, WayOutcome, GoesOutcome};
ghost use Rattle.fr_notes.specs.Note.{Alternative as AlternativeOf};

use fr_notes::{Alternative, Change, Known, Note, Spot, change_by, keeps};
use fr_program::{Call, Instr, Side};
use fr_rules::{Landing, Way, lands_at};

/// Whether some alternative of a note holds of the mover after each step that makes this change.
fn is_kept(known: &Known, change: &Change, next: &Note) -> bool
    requires { IsPossible known.now }
    ensures { IsTrue result ↔
        ((m : AlternativeOf) × Contains next.now m × Keeps known.now change.now m) }
{
    next.alternatives().iter().any(
        |other|
            requires { IsPossible known.now }
        { keeps(known, change, other) },
    )
}

/// Whether steps by this row, from a state in which the alternative holds, keep the next note.
fn goes_well(spot: &Spot, alternative: &Alternative, way: Way, next: &Note) -> bool
    requires fits { AlternativeFits spot.now.app.now alternative.now }
    requires next { NoteFits spot.now.app.now next.now }
    ensures { IsTrue result ↔ GoesWell spot.now.app.now spot.now.point alternative.now way next.now }
{
    let known = Known::alone(alternative);
    match change_by(spot.app, &known, spot.point, spot.instr, way) {
        Some(change) => is_kept(&known, &change, next),
        None => true,
    }
}

/// Whether steps by this row keep the next note, whichever alternative of the note holds before.
fn all_go_well(spot: &Spot, way: Way, next: &Note) -> bool
    requires next { NoteFits spot.now.app.now next.now }
    ensures { IsTrue result ↔
        ((n : AlternativeOf) → Contains spot.now.note.now n → GoesWell spot.now.app.now spot.now.point n way next.now) }
{
    for alternative in spot.note.alternatives() {
        if !goes_well(spot, alternative, way, next) {
            return false;
        }
    }
    true
}

/// The number of the point at which steps by this row land without keeping its note.
fn missed(spot: &Spot, way: Way) -> Option<usize>
    ensures { WayOutcome spot.now.app.now spot.now.notes.now spot.now.point way result }
{
    spot.app.recall_faultless();
    spot.app.recall_numbered();
    let Landing::At(target) = lands_at(spot.point, spot.point.pc + 1, spot.instr, way) else {
        return None;
    };
    match spot.app.number(target) {
        None => None,
        Some(number) => if all_go_well(spot, way, spot.notes.at(spot.app, number)) {
            None
        } else {
            Some(number)
        },
    }
}

/// The number of the point at which steps by the second row land without keeping its note. An `if` and a create have a second
/// row before them, and inside a call its end can have one; for all else nothing is looked at.
fn missed_else(spot: &Spot) -> Option<usize>
    ensures { WayOutcome spot.now.app.now spot.now.notes.now spot.now.point Way.Else result }
{
    match (spot.point.side, spot.instr) {
        (Side::Inside, _) => missed(spot, Way::Else),
        (Side::Before, Instr::If { .. }) => missed(spot, Way::Else),
        (Side::Before, Instr::Call(call)) => match call {
            Call::Create { .. } => missed(spot, Way::Else),
            _ => None,
        },
        (Side::Before, _) => None,
    }
}

/// The least number of a point to which a step goes without keeping its note.
pub fn least_missed(spot: &Spot) -> Option<usize>
    ensures { GoesOutcome spot.now.app.now spot.now.notes.now spot.now.point result }
{
    let one = missed(spot, Way::Then);
    let other = missed_else(spot);
    match (one, other) {
        (Some(one), Some(other)) => Some(one.min(other)),
        (Some(one), None) => Some(one),
        (None, other) => other,
    }
}
