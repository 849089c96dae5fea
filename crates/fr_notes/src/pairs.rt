// Whether two notes, of two actors, hold in one state.
ghost use Rattle.std.specs.Prelude.{◌≡◌, ◌≢◌, ◌<◌, ◌↔◌, IsTrue, Any, map, length};
ghost use Rattle.fr_notes.specs.Compare.{AreTogether};
ghost use Rattle.fr_notes.specs.Fits.{NoteFits};
ghost use Rattle.fr_notes.specs.Pairs.{EachClaimMeets, RangesMeet, EachRangeMeets, CanMeet, MeetsSome};
ghost use Rattle.fr_notes.specs.View.{ends_of};

use crate::claim::Claim;
use crate::note::{Alternative, Note};
use fr_program::{ActorId, App, Range};

/// Whether some number is in both ranges.
fn ranges_meet(range: Range, other: Range) -> bool
    ensures { IsTrue result ↔ RangesMeet (ends_of range) (ends_of other) }
{
    range.lo <= other.hi && other.lo <= range.hi
}

/// Whether each claim can hold together with the other's claim about the same object.
fn each_claim_meets(claims: &[Claim], others: &[Claim]) -> bool
    ensures { IsTrue result ↔ EachClaimMeets claims.now others.now }
{
    if claims.len() != others.len() {
        return false;
    }
    for (object, claim) in claims.iter().enumerate() {
        if !claim.meets(others[object]) {
            return false;
        }
    }
    true
}

/// Whether each range has a number in common with the other's range of the same variable.
fn each_range_meets(ranges: &[Range], others: &[Range]) -> bool
    ensures { IsTrue result ↔ EachRangeMeets (map ends_of ranges.now) (map ends_of others.now) }
{
    if ranges.len() != others.len() {
        return false;
    }
    for (variable, range) in ranges.iter().enumerate() {
        if !ranges_meet(*range, others[variable]) {
            return false;
        }
    }
    true
}

/// Whether two alternatives, of two actors, exclude each other in no part. Both may have suspended
/// the scheduler; not both may be in the critical section.
pub fn can_meet(alternative: &Alternative, other: &Alternative) -> bool
    ensures { IsTrue result ↔ CanMeet alternative.now other.now }
{
    (alternative.crit == 0 || other.crit == 0)
        && each_claim_meets(&alternative.claims, &other.claims)
        && each_range_meets(&alternative.ranges, &other.ranges)
}

/// Whether the alternative can hold together with one of the others.
fn meets_some(alternative: &Alternative, others: &[Alternative]) -> bool
    ensures { IsTrue result ↔ MeetsSome others.now alternative.now }
{
    others.iter().any(|other| can_meet(alternative, other))
}

/// Whether one of the alternatives can hold together with one of the others.
pub fn some_meet(alternatives: &[Alternative], others: &[Alternative]) -> bool
    ensures { IsTrue result ↔ Any (MeetsSome others.now) alternatives.now }
{
    alternatives
        .iter()
        .any(|alternative| meets_some(alternative, others))
}

/// Whether some well-formed state has one note of the one actor, and another note of the other: two
/// actors of the application, and notes that fit it. Takes no memory.
pub fn together(app: &App, actor: ActorId, note: &Note, other_actor: ActorId, other: &Note) -> bool
    requires actor { actor.0 < length app.now.actors }
    requires other_actor { other_actor.0 < length app.now.actors }
    requires apart { other_actor ≢ actor }
    requires note { NoteFits app.now note.now }
    requires other { NoteFits app.now other.now }
    ensures { IsTrue result ↔ AreTogether app.now actor.0 note.now other_actor.0 other.now }
{
    app.recall_faultless();
    let (_actor, _other_actor) = (actor, other_actor);
    some_meet(note.alternatives(), other.alternatives())
}
