// Whether steps keep each variable in its declared range.
ghost use Rattle.std.specs.Prelude.{◌≡◌, ◌<◌, ◌↔◌, IsTrue, All, Some, length, slice_get};
ghost use Rattle.fr_program.specs.declared.ids.Point.{Point};
ghost use Rattle.fr_program.specs.Points.{points_of};
ghost use Rattle.fr_notes.specs.Fits.{AlternativeFits, NoteFits, NotesFit};
ghost use Rattle.fr_effects.specs.Effects.{HasTarget, IsComputable, Stays};
ghost use Rattle.fr_effects.specs.Index.{IsIndexOf};
ghost use Rattle.fr_interfere.specs.Staying.{StaysAt, AllStay};

use fr_effects::{Effect, Index, effect_at, stays};
use fr_notes::{Note, Notes};
use fr_program::App;

/// Whether every value that the effect can give its variable is in the declared range, whichever
/// alternative of the mover's note holds.
fn stays_by_each(app: &App, effect: Effect, others: &Note) -> bool
    requires others { NoteFits app.now others.now }
    requires computable { IsComputable effect }
    requires target { HasTarget app.now effect }
    ensures { IsTrue result ↔ All (λ m. Stays app.now effect m) others.now }
{
    others.alternatives().iter().all(
        |mover|
            requires mover { AlternativeFits app.now mover.now }
            requires computable { IsComputable effect }
            requires target { HasTarget app.now effect }
        { stays(app, effect, mover) },
    )
}

/// Whether the steps from the point with this number write only values in the declared range, where its
/// note holds.
fn stays_at(app: &App, notes: &Notes, number: usize) -> bool
    requires number { number < length (points_of app.now) }
    requires fit { NotesFit app.now notes.now }
    ensures { (q : Point) → slice_get (points_of app.now) number ≡ Some q →
        (IsTrue result ↔ StaysAt app.now notes.now q) }
{
    let _point = app.point(number);
    stays_by_each(app, effect_at(app, number), notes.at(app, number))
}

/// Whether the steps from every point, where its note holds, write only values in the declared range of
/// the variable. Where that is so, a step can disturb a note only if it changes something that the note
/// says. Only the index's leavers are asked. Takes no memory.
pub fn all_stay(app: &App, notes: &Notes, index: &Index) -> bool
    requires fit { NotesFit app.now notes.now }
    requires index { IsIndexOf app.now index.now }
    ensures { IsTrue result ↔ AllStay app.now notes.now }
{
    app.recall_faultless();
    app.recall_numbered();
    for number in index.leavers() {
        if !stays_at(app, notes, *number) {
            return false;
        }
    }
    true
}
