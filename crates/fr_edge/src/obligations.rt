// Judging a point's own obligations, without memory.
ghost use Rattle.std.specs.Prelude.{◌≡◌, ◌<◌, Some, length, slice_get};
ghost use Rattle.fr_program.specs.declared.ids.Point.{Point};
ghost use Rattle.fr_program.specs.Points.{points_of};
ghost use Rattle.fr_notes.specs.Fits.{NotesFit};
ghost use Rattle.fr_edge.specs.FirstOwn.{IsFirstOwn};

use crate::entry::enters;
use crate::failure::Own;
use crate::rules::least_rule;
use crate::steps::least_missed;
use fr_notes::{Case, Notes};
use fr_program::App;

/// The first of the own obligations of the point with this number that fails: its entry, the least
/// rule that is breached there, the least point to which a step goes without keeping its note. None
/// where all are kept. The notes fit the application. Takes no memory.
pub fn own(app: &App, notes: &Notes, number: usize) -> Option<Own>
    requires number { number < length (points_of app.now) }
    requires fit { NotesFit app.now notes.now }
    ensures { (p : Point) → slice_get (points_of app.now) number ≡ Some p →
        IsFirstOwn app.now notes.now p result }
{
    let spot = Case { app, notes }.spot(number)?;
    spot.app.recall_numbered();
    if !enters(&spot) {
        return Some(Own::Entry);
    }
    if let Some(rule) = least_rule(&spot) {
        return Some(Own::Rule(rule));
    }
    match least_missed(&spot) {
        Some(missed) => Some(Own::Goes(spot.app.point(missed))),
        None => None,
    }
}
