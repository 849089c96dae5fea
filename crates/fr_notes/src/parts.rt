// What the parts of a note say of each object and of each variable.
ghost use Rattle.std.specs.Prelude.{◌≡◌, ◌<◌, length, map, IfOk, IfErr};
ghost use Rattle.std.specs.List.{range_with_len};
ghost use Rattle.fr_notes.specs.Parts.{names, count_in, claim_said, range_in, range_said};
ghost use Rattle.fr_notes.specs.View.{ends_of};

use crate::claim::Claim;
use crate::fault::NoteFault;
use crate::note::NoteParts;
use fr_program::{App, ObjId, Range, VarId};
use std::alloc::Global;

/// How many objects the application has.
pub fn object_count(app: &App) -> usize
    ensures { result ≡ length app.now.objects }
{
    app.objects().len()
}

/// How many variables the application has.
pub fn variable_count(app: &App) -> usize
    ensures { result ≡ length app.now.variables }
{
    app.variables().len()
}

/// Whether the list names this object.
pub fn names(objects: &[ObjId], object: usize) -> bool
    ensures { result ≡ names objects.now object }
{
    objects.iter().any(|named| named.0 == object)
}

/// How often the object is held, if the list names it.
pub fn count_in(held: &[(ObjId, u32)], object: usize) -> Option<u32>
    ensures { result ≡ count_in held.now object }
{
    held.iter()
        .find(|entry| entry.0.0 == object)
        .map(|entry| entry.1)
}

/// What the parts say of an object.
fn claim_said(parts: &NoteParts, object: usize) -> Claim
    ensures { result ≡ claim_said parts.now object }
{
    match count_in(&parts.held, object) {
        Some(count) => Claim::HeldTimes(count),
        None => {
            if names(&parts.dead, object) {
                Claim::Gone
            } else if names(&parts.live, object) {
                Claim::Alive
            } else {
                Claim::NotHeld
            }
        }
    }
}

/// What the parts say of each object.
pub fn claims_said(alloc: Global, app: &App, parts: &NoteParts) -> Result<Vec<Claim>, NoteFault>
    ensures ok { IfOk result
        (λ claims. claims.items ≡ map (claim_said parts.now) (range_with_len 0 (length app.now.objects))) }
    ensures err { IfErr result (λ f. f ≡ NoteFault.Memory) }
{
    let objects = object_count(app);
    Ok(
        (0..objects)
            .map(|object| claim_said(parts, object))
            .collect(alloc)?,
    )
}

/// The range that the list gives the variable first, if it names it.
fn range_in(narrower: &[(VarId, Range)], variable: usize) -> Option<Range>
    ensures { result ≡ range_in narrower.now variable }
{
    narrower
        .iter()
        .find(|entry| entry.0.0 == variable)
        .map(|entry| entry.1)
}

/// What the parts say of a variable: the range that they name, or else the declared one.
fn range_said(app: &App, narrower: &[(VarId, Range)], variable: VarId) -> Range
    requires { variable.0 < length app.now.variables }
    ensures { ends_of result ≡ range_said app.now narrower.now variable.0 }
{
    match range_in(narrower, variable.0) {
        Some(range) => range,
        None => app.range(variable),
    }
}

/// What the parts say of each variable.
pub fn ranges_said(
    alloc: Global,
    app: &App,
    narrower: &[(VarId, Range)],
) -> Result<Vec<Range>, NoteFault>
    ensures ok { IfOk result
        (λ ranges. map ends_of ranges.items ≡ map (range_said app.now narrower.now) (range_with_len 0 (length app.now.variables))) }
    ensures err { IfErr result (λ f. f ≡ NoteFault.Memory) }
{
    let variables = variable_count(app);
    let mut ranges = Vec::with_capacity(alloc, variables)?;
    for variable in 0..variables {
        ranges.push(range_said(app, narrower, VarId(variable)))?;
    }
    Ok(ranges)
}
