// A point with its instruction and its note.
ghost use Rattle.std.specs.Prelude.{◌≡◌, ◌≤◌, Some, IfSome, IfNone, length, slice_get};
ghost use Rattle.fr_program.specs.Points.{points_of};
ghost use Rattle.fr_notes.specs.Fits.{NotesFit};
ghost use Rattle.fr_finder.specs.Spots.{IsSpot};

use fr_notes::{Case, Notes, Spot};
use fr_program::App;

/// The point with this number, with its instruction and the note that a round has for it; None where the application has no
/// such point.
pub fn spot_at<'a>(app: &'a App, notes: &'a Notes, number: usize) -> Option<Spot<'a>>
    requires { NotesFit app.now notes.now }
    ensures spot { IfSome result (λ s. IsSpot app.now s.point s.instr.now s.note.now) }
    ensures number { IfSome result (λ s. slice_get (points_of app.now) number ≡ Some s.point) }
    ensures none { IfNone result (length (points_of app.now) ≤ number) }
{
    (Case { app, notes }).spot(number)
}
