// Whether an alternative holds after each step that makes a change.
ghost use Rattle.std.specs.Prelude.{◌≡◌, ◌↔◌, ◌<◌, ℕ, pos, Some, IsTrue, length, map, slice_index_or};
ghost use Rattle.fr_notes.specs.Known.{IsPossible, Keeps, Spares, joint_range, joint_claim, joined, claim_after, other_after, taught};
ghost use Rattle.fr_notes.specs.Note.{NotHeld, claim_of};
ghost use Rattle.fr_notes.specs.Implication.{ClaimImplies, IsPart};
ghost use Rattle.fr_notes.specs.Change.{range_after, new_range};
ghost use Rattle.fr_notes.specs.View.{ends_of};

use crate::change::Change;
use crate::claim::Claim;
use crate::implication::is_part;
use crate::known::Known;
use crate::note::Alternative;
use fr_program::{Range, VarId};

/// The range that a change has for the variable, or the one before where it has none.
fn range_after(new: Option<(VarId, Range)>, variable: usize, range: Range) -> Range
    ensures { ends_of result ≡ range_after new variable (ends_of range) }
{
    match new {
        Some((changed, new)) if changed.0 == variable => new,
        _ => range,
    }
}

/// The range of a variable after a change.
pub fn new_range(change: &Change, variable: usize, range: Range) -> Range
    ensures { ends_of result ≡ new_range change.now variable (ends_of range) }
{
    range_after(
        change.first,
        variable,
        range_after(change.second, variable, range),
    )
}

/// The mover's claim of an object after a change.
pub fn claim_after(change: &Change, object: usize, claim: Claim) -> Claim
    ensures { result ≡ claim_after change.now.claim object claim }
{
    match change.claim {
        Some((changed, new)) if changed.0 == object => new,
        _ => claim,
    }
}

/// What the mover's new claim of an object makes of the other actor's: a delete frees what that
/// held, and else the object is live.
fn taught(new: Claim, before: Claim) -> Claim
    ensures { result ≡ taught new before }
{
    match (new, before) {
        (Claim::Gone, _) => Claim::Gone,
        (_, Claim::HeldTimes(count)) => Claim::HeldTimes(count),
        (_, _) => Claim::Alive,
    }
}

/// The other actor's claim of an object after a change.
pub fn other_after(change: &Change, object: usize, claim: Claim) -> Claim
    ensures { result ≡ other_after change.now.claim object claim }
{
    match change.claim {
        Some((changed, new)) if changed.0 == object => taught(new, claim),
        _ => claim,
    }
}

/// Whether the range has each number that the variable can have after the change.
fn says_range(known: &Known, change: &Change, variable: usize, range: Range) -> bool
    requires { IsPossible known.now }
    ensures { IsTrue result ↔ IsPart (new_range change.now variable (joint_range known.now variable)) (ends_of range) }
{
    is_part(new_range(change, variable, known.range(variable)), range)
}

/// Whether the claim follows from what is known of the object after the change.
fn says_claim(known: &Known, change: &Change, object: usize, claim: Claim) -> bool
    ensures { IsTrue result ↔ ClaimImplies (claim_after change.now.claim object (joint_claim known.now object)) claim }
{
    claim_after(change, object, known.claim(object)).implies(claim)
}

/// Whether the other actor's claim follows from what is known of the object after the change.
fn spares_claim(
    known: &Known,
    other: &Alternative,
    change: &Change,
    object: usize,
    claim: Claim,
) -> bool
    requires { known.now.other ≡ Some other.now }
    ensures { IsTrue result ↔ ClaimImplies (other_after change.now.claim object (joined (claim_of other.now object) (claim_of known.now.mover object))) claim }
{
    other_after(change, object, known.other_claim(object)).implies(claim)
}

/// Whether each range has each number that its variable can have after the change.
fn says_ranges(known: &Known, change: &Change, ranges: &[Range]) -> bool
    requires { IsPossible known.now }
    ensures { IsTrue result ↔ ((x : ℕ) → x < length ranges.now →
        IsPart (new_range change.now x (joint_range known.now x)) (slice_index_or (map ends_of ranges.now) x (pos 0, pos 0))) }
{
    for (variable, range) in ranges.iter().enumerate() {
        if !says_range(known, change, variable, *range) {
            return false;
        }
    }
    true
}

/// Whether each claim follows from what is known of its object after the change.
fn says_claims(known: &Known, change: &Change, claims: &[Claim]) -> bool
    ensures { IsTrue result ↔ ((o : ℕ) → o < length claims.now →
        ClaimImplies (claim_after change.now.claim o (joint_claim known.now o)) (slice_index_or claims.now o NotHeld)) }
{
    for (object, claim) in claims.iter().enumerate() {
        if !says_claim(known, change, object, *claim) {
            return false;
        }
    }
    true
}

/// Whether each claim of the other actor follows from what is known of its object after the change.
fn spares_claims(known: &Known, other: &Alternative, change: &Change, claims: &[Claim]) -> bool
    requires { known.now.other ≡ Some other.now }
    ensures { IsTrue result ↔ ((o : ℕ) → o < length claims.now →
        ClaimImplies (other_after change.now.claim o (joined (claim_of other.now o) (claim_of known.now.mover o))) (slice_index_or claims.now o NotHeld)) }
{
    for (object, claim) in claims.iter().enumerate() {
        if !spares_claim(known, other, change, object, *claim) {
            return false;
        }
    }
    true
}

/// Whether the alternative holds of the mover after each step that makes this change.
pub fn keeps(known: &Known, change: &Change, next: &Alternative) -> bool
    requires { IsPossible known.now }
    ensures { IsTrue result ↔ Keeps known.now change.now next.now }
{
    change.crit == u32::from(next.crit)
        && change.susp == u32::from(next.susp)
        && says_claims(known, change, &next.claims)
        && says_ranges(known, change, &next.ranges)
}

/// Whether the alternative holds of the other actor, of which this one held before, after each step
/// that makes this change.
pub fn spares(known: &Known, other: &Alternative, change: &Change, next: &Alternative) -> bool
    requires possible { IsPossible known.now }
    requires other { known.now.other ≡ Some other.now }
    ensures { IsTrue result ↔ Spares known.now other.now change.now next.now }
{
    other.crit == next.crit
        && other.susp == next.susp
        && spares_claims(known, other, change, &next.claims)
        && says_ranges(known, change, &next.ranges)
}
