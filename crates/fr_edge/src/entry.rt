// Whether a point's note holds when the scheduler starts.
ghost use Rattle.std.specs.Prelude.{◌≡◌, ◌<◌, ◌↔◌, ℕ, length, All, IsTrue};
ghost use Rattle.fr_rules.specs.State.{start};
ghost use Rattle.fr_notes.specs.Fits.{AlternativeFits};
ghost use Rattle.fr_notes.specs.Note.{HoldsOne, Holds, Within};
ghost use Rattle.fr_notes.specs.View.{ends_of};
ghost use Rattle.fr_edge.specs.Own.{Entry};
ghost use Rattle.fr_edge.specs.Starts.{begins_as, BeginsAs, BeginsWithin};

use fr_notes::{Alternative, Claim, Note, Spot};
use fr_program::{App, Object, Range, Side, Variable};

/// Whether the claim is true of the object at the start.
fn begins_as(claim: Claim, object: &Object) -> bool
    ensures { result ≡ begins_as claim object.now.live }
{
    match claim {
        Claim::NotHeld => true,
        Claim::Alive => object.live,
        Claim::Gone => !object.live,
        Claim::HeldTimes(_) => false,
    }
}

/// Whether the variable's initial value is in the range.
fn begins_in(range: Range, variable: &Variable) -> bool
    ensures { IsTrue result ↔ Within (ends_of range) variable.now.init }
{
    range.has(variable.init)
}

/// Whether each claim is true of its object at the start.
fn begins_with_claims(objects: &[Object], claims: &[Claim]) -> bool
    requires { length claims.now ≡ length objects.now }
    ensures { IsTrue result ↔ ((o : ℕ) → o < length objects.now → BeginsAs claims.now objects.now o) }
{
    for (o, object) in objects.iter().enumerate() {
        if !begins_as(claims[o], object) {
            return false;
        }
    }
    true
}

/// Whether each variable's initial value is in its range.
fn begins_with_ranges(variables: &[Variable], ranges: &[Range]) -> bool
    requires { length ranges.now ≡ length variables.now }
    ensures { IsTrue result ↔ ((x : ℕ) → x < length variables.now → BeginsWithin ranges.now variables.now x) }
{
    for (x, variable) in variables.iter().enumerate() {
        if !begins_in(ranges[x], variable) {
            return false;
        }
    }
    true
}

/// Whether the alternative holds of an actor when the scheduler starts.
fn holds_at_start(app: &App, alternative: &Alternative) -> bool
    requires { AlternativeFits app.now alternative.now }
    ensures { (a : ℕ) → (IsTrue result ↔ HoldsOne alternative.now a (start app.now)) }
{
    if alternative.critical() != 0 {
        return false;
    }
    if alternative.suspended() != 0 {
        return false;
    }
    if !begins_with_claims(app.objects(), alternative.claims()) {
        return false;
    }
    begins_with_ranges(app.variables(), alternative.ranges())
}

/// Whether some alternative of the note holds of an actor when the scheduler starts.
fn some_holds_at_start(app: &App, note: &Note) -> bool
    requires { All (λ n. AlternativeFits app.now n) note.now }
    ensures { (a : ℕ) → (IsTrue result ↔ Holds note.now a (start app.now)) }
{
    for alternative in note.alternatives() {
        if holds_at_start(app, alternative) {
            return true;
        }
    }
    false
}

/// Whether the point's actor doesn't begin there, or begins with the note.
pub fn enters(spot: &Spot) -> bool
    ensures { IsTrue result ↔ Entry spot.now.app.now spot.now.notes.now spot.now.point }
{
    if spot.point.pc != 0 {
        return true;
    }
    match spot.point.side {
        Side::Before => some_holds_at_start(spot.app, spot.note),
        Side::Inside => true,
    }
}
