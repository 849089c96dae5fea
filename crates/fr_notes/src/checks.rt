// Whether parts are a note of an application: each fault with a loop of its own.
ghost use Rattle.std.specs.Prelude.{◌≡◌, ◌↔◌, IsTrue, IfErr, OnOk, All, Any};
ghost use Rattle.fr_notes.specs.declared.claim.Claim.TheVariants.{HeldTimes};
ghost use Rattle.fr_notes.specs.Fits.{CanClaim};
ghost use Rattle.fr_notes.specs.Parts.{IsCount, IsNarrowing, HasFault, is_live_said};

use crate::fault::NoteFault;
use crate::note::NoteParts;
use crate::parts::{count_in, names, object_count, variable_count};
use fr_program::{App, Kind, ObjId, Range, VarId};

/// Whether something of this kind can be held so often, as a note can say.
pub fn is_count(kind: Kind, count: u32) -> bool
    ensures { IsTrue result ↔ CanClaim kind (HeldTimes count) }
{
    match kind {
        Kind::Mutex => count == 1,
        Kind::Recursive => 1 <= count && count <= 255,
        _ => false,
    }
}

/// Whether the application has the object, and it can be held so often, as a note can say.
fn may_be_held(app: &App, object: ObjId, count: u32) -> bool
    ensures { IsTrue result ↔ IsCount app.now (object, count) }
{
    object.0 < object_count(app) && is_count(app.kind(object), count)
}

/// Whether the application has the variable, and the range is inside its declared one.
pub fn is_narrowing(app: &App, variable: VarId, range: Range) -> bool
    ensures { IsTrue result ↔ IsNarrowing app.now (variable, range) }
{
    variable.0 < variable_count(app) && range.within(app.range(variable))
}

/// Whether the parts say that the object is live, or that it is held.
fn is_live_said(parts: &NoteParts, object: usize) -> bool
    ensures { result ≡ is_live_said parts.now object }
{
    names(&parts.live, object) || count_in(&parts.held, object).is_some()
}

/// Looks for a count that can't be.
fn check_counts(app: &App, held: &[(ObjId, u32)]) -> Result<(), NoteFault>
    ensures ok { OnOk result (All (IsCount app.now) held.now) }
    ensures err { IfErr result
        (λ f. (f ≡ NoteFault.Count) × Any (λ h. IsCount app.now h → ⊥) held.now) }
{
    for entry in held {
        if !may_be_held(app, entry.0, entry.1) {
            return Err(NoteFault::Count);
        }
    }
    Ok(())
}

/// Looks for an object that is said to be dead, and live or held too.
fn check_lives(parts: &NoteParts) -> Result<(), NoteFault>
    ensures ok { OnOk result
        (All (λ o. IsTrue (is_live_said parts.now o.0) → ⊥) parts.now.dead.items) }
    ensures err { IfErr result
        (λ f. (f ≡ NoteFault.Lives) × Any (λ o. IsTrue (is_live_said parts.now o.0)) parts.now.dead.items) }
{
    for object in &parts.dead {
        if is_live_said(parts, object.0) {
            return Err(NoteFault::Lives);
        }
    }
    Ok(())
}

/// Looks for a range that isn't inside the declared one, or is of a variable that isn't there.
fn check_spans(app: &App, narrower: &[(VarId, Range)]) -> Result<(), NoteFault>
    ensures ok { OnOk result (All (IsNarrowing app.now) narrower.now) }
    ensures err { IfErr result
        (λ f. (f ≡ NoteFault.Span) × Any (λ r. IsNarrowing app.now r → ⊥) narrower.now) }
{
    for entry in narrower {
        if !is_narrowing(app, entry.0, entry.1) {
            return Err(NoteFault::Span);
        }
    }
    Ok(())
}

/// Refuses parts with one of the three faults, and names it.
pub fn check_note(app: &App, parts: &NoteParts) -> Result<(), NoteFault>
    ensures counts { OnOk result (All (IsCount app.now) parts.now.held.items) }
    ensures lives { OnOk result
        (All (λ o. IsTrue (is_live_said parts.now o.0) → ⊥) parts.now.dead.items) }
    ensures spans { OnOk result (All (IsNarrowing app.now) parts.now.range.items) }
    ensures stands { IfErr result (λ f. HasFault app.now parts.now f) }
{
    check_counts(app, &parts.held)?;
    check_lives(parts)?;
    check_spans(app, &parts.range)?;
    Ok(())
}
