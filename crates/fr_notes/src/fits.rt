// Whether a note fits an application: whether it could have been built for it.
ghost use Rattle.std.specs.Prelude.{◌↔◌, IsTrue, map};
ghost use Rattle.fr_notes.specs.Fits.{CanClaim, ClaimsFit, RangesFit, AlternativeFits, NoteFits};
ghost use Rattle.fr_notes.specs.View.{ends_of};

use crate::alternatives::MOST_ALTERNATIVES;
use crate::checks::{is_count, is_narrowing};
use crate::claim::Claim;
use crate::note::{Alternative, Note};
use crate::parts::{object_count, variable_count};
use fr_program::{App, Kind, ObjId, Range, VarId};

/// Whether this can be said of something of this kind.
fn can_claim(kind: Kind, claim: Claim) -> bool
    ensures { IsTrue result ↔ CanClaim kind claim }
{
    match claim {
        Claim::HeldTimes(count) => is_count(kind, count),
        Claim::NotHeld | Claim::Alive | Claim::Gone => true,
    }
}

/// Whether there is a claim for each object, and each can be true of an object of its kind.
fn claims_fit(app: &App, claims: &[Claim]) -> bool
    ensures { IsTrue result ↔ ClaimsFit app.now claims.now }
{
    if claims.len() != object_count(app) {
        return false;
    }
    for (object, claim) in claims.iter().enumerate() {
        if !can_claim(app.kind(ObjId(object)), *claim) {
            return false;
        }
    }
    true
}

/// Whether there is a range for each variable, and each is inside the declared one.
fn ranges_fit(app: &App, ranges: &[Range]) -> bool
    ensures { IsTrue result ↔ RangesFit app.now (map ends_of ranges.now) }
{
    if ranges.len() != variable_count(app) {
        return false;
    }
    for (variable, range) in ranges.iter().enumerate() {
        if !is_narrowing(app, VarId(variable), *range) {
            return false;
        }
    }
    true
}

/// Whether the alternative could be one of a note of the application.
pub fn alternative_fits(app: &App, alternative: &Alternative) -> bool
    ensures { IsTrue result ↔ AlternativeFits app.now alternative.now }
{
    // Depths have a byte each, so that they fit.
    let (_critical, _suspended) = (alternative.crit, alternative.susp);
    claims_fit(app, &alternative.claims) && ranges_fit(app, &alternative.ranges)
}

/// Whether there are at most four alternatives, and each of them fits the application.
pub fn note_fits(app: &App, note: &Note) -> bool
    ensures { IsTrue result ↔ NoteFits app.now note.now }
{
    let alternatives = note.alternatives();
    alternatives.len() <= MOST_ALTERNATIVES
        && alternatives
            .iter()
            .all(|alternative| alternative_fits(app, alternative))
}
