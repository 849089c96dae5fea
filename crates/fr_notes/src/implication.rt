// Whether one note implies another.
ghost use Rattle.std.specs.Prelude.{◌≤◌, ◌<◌, ◌↔◌, ℕ, IsTrue, All, Any, map, length};
ghost use Rattle.std.specs.Bool.{OnTrue, OnFalse};
ghost use Rattle.fr_program.specs.Program.{Program};
ghost use Rattle.fr_program.specs.Fault.{IsFaultless};
ghost use Rattle.fr_notes.specs.Compare.{Implies};
ghost use Rattle.fr_notes.specs.Fits.{NoteFits};
ghost use Rattle.fr_notes.specs.Implication.{IsPart, ClaimsImply, RangesImply, IsStronger, ImpliesSome};
ghost use Rattle.fr_notes.specs.View.{ends_of};

use crate::claim::Claim;
use crate::note::{Alternative, Note};
use fr_program::Range;

/// Whether each number of the first range is in the second.
pub fn is_part(range: Range, other: Range) -> bool
    ensures { IsTrue result ↔ IsPart (ends_of range) (ends_of other) }
{
    range.within(other)
}

/// Whether each claim implies the other's claim about the same object.
fn claims_imply(claims: &[Claim], others: &[Claim]) -> bool
    ensures { IsTrue result ↔ ClaimsImply claims.now others.now }
{
    if claims.len() != others.len() {
        return false;
    }
    for (object, claim) in claims.iter().enumerate() {
        if !claim.implies(others[object]) {
            return false;
        }
    }
    true
}

/// Whether each range is inside the other's range of the same variable.
fn ranges_imply(ranges: &[Range], others: &[Range]) -> bool
    ensures { IsTrue result ↔ RangesImply (map ends_of ranges.now) (map ends_of others.now) }
{
    if ranges.len() != others.len() {
        return false;
    }
    for (variable, range) in ranges.iter().enumerate() {
        if !is_part(*range, others[variable]) {
            return false;
        }
    }
    true
}

/// Whether the other alternative holds of an actor wherever this one does.
fn is_stronger(alternative: &Alternative, other: &Alternative) -> bool
    ensures { IsTrue result ↔ IsStronger alternative.now other.now }
{
    alternative.crit == other.crit
        && alternative.susp == other.susp
        && claims_imply(&alternative.claims, &other.claims)
        && ranges_imply(&alternative.ranges, &other.ranges)
}

/// Whether the alternative implies one of the others.
fn implies_some(alternative: &Alternative, others: &[Alternative]) -> bool
    ensures { IsTrue result ↔ ImpliesSome others.now alternative.now }
{
    others.iter().any(|other| is_stronger(alternative, other))
}

/// Whether each alternative implies one of the others.
fn imply_each(alternatives: &[Alternative], others: &[Alternative]) -> bool
    ensures yes { OnTrue result (All (ImpliesSome others.now) alternatives.now) }
    ensures no { OnFalse result (Any (λ n. ImpliesSome others.now n → ⊥) alternatives.now) }
{
    for alternative in alternatives {
        if !implies_some(alternative, others) {
            return false;
        }
    }
    true
}

/// Whether the second note holds wherever the first one does, as far as each alternative can be
/// compared alone. Yes: it does, in each application that both fit. No, where the second note has at
/// most one alternative: it doesn't, in any application with an actor that both fit. Of a second
/// note with more alternatives, No says nothing. Takes no memory.
pub fn implies(note: &Note, other: &Note) -> bool
    ensures yes { OnTrue result ((P : Program) →
        NoteFits P note.now → NoteFits P other.now → Implies P note.now other.now) }
    ensures no { OnFalse result ((P : Program) → IsFaultless P →
        NoteFits P note.now → NoteFits P other.now → length other.now ≤ 1 →
        (a : ℕ) → a < length P.actors → Implies P note.now other.now → ⊥) }
{
    imply_each(note.alternatives(), other.alternatives())
}
