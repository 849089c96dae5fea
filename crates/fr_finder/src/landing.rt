// What a step leaves, as an alternative of a note. Where only some variables are to be spoken of, the others get their
// declared ranges.
ghost use Rattle.std.specs.Prelude.{IfOk, IfSome};
ghost use Rattle.fr_notes.specs.Fits.{AlternativeFits};
ghost use Rattle.fr_notes.specs.Known.{IsPossible};

use fr_notes::{Alternative, Change, Claim, Known, claim_after, new_range, other_after};
use fr_program::{App, Range, VarId};
use std::alloc::{AllocError, Global};

/// Whether the variable is to be spoken of: each is where no list is given.
fn is_said(said: Option<&[bool]>, variable: usize) -> bool {
    match said {
        Some(said) => said.get(variable).copied() == Some(true),
        None => true,
    }
}

/// Each variable's range after a change, without what is out of its declared range; None where
/// nothing is left of one.
fn ranges_left(
    alloc: Global,
    app: &App,
    known: &Known,
    change: &Change,
    said: Option<&[bool]>,
) -> Result<Option<Vec<Range>>, AllocError>
    requires { IsPossible known.now }
{
    let variables = app.variables().len();
    let mut ranges = Vec::with_capacity(alloc, variables)?;
    for variable in 0..variables {
        let declared = app.range(VarId(variable));
        let range = new_range(change, variable, known.range(variable));
        match range.meet(declared) {
            Some(range) if is_said(said, variable) => ranges.push(range)?,
            Some(_) => ranges.push(declared)?,
            None => return Ok(None),
        }
    }
    Ok(Some(ranges))
}

/// What the mover can claim of each object after a change.
fn claims_left(
    alloc: Global,
    app: &App,
    known: &Known,
    change: &Change,
) -> Result<Vec<Claim>, AllocError> {
    let objects = app.objects().len();
    let mut claims = Vec::with_capacity(alloc, objects)?;
    for object in 0..objects {
        claims.push(claim_after(change, object, known.claim(object)))?;
    }
    Ok(claims)
}

/// What the other actor can claim of each object after a change.
fn claims_spared(
    alloc: Global,
    app: &App,
    known: &Known,
    change: &Change,
) -> Result<Vec<Claim>, AllocError> {
    let objects = app.objects().len();
    let mut claims = Vec::with_capacity(alloc, objects)?;
    for object in 0..objects {
        claims.push(other_after(change, object, known.other_claim(object)))?;
    }
    Ok(claims)
}

/// What a change leaves of what is known, for the mover. None where a value of its would be out of
/// the declared range, and where a depth or a count is more than a note can say. With a list, only
/// the variables that are marked in it are spoken of.
pub fn left_to_mover(
    alloc: Global,
    app: &App,
    known: &Known,
    change: &Change,
    said: Option<&[bool]>,
) -> Result<Option<Alternative>, AllocError>
    requires { IsPossible known.now }
    ensures { IfOk result (λ left. IfSome left (λ n. AlternativeFits app.now n)) }
{
    let (Ok(crit), Ok(susp)) = (u8::try_from(change.crit), u8::try_from(change.susp)) else {
        return Ok(None);
    };
    let Some(ranges) = ranges_left(alloc, app, known, change, said)? else {
        return Ok(None);
    };
    let claims = claims_left(alloc, app, known, change)?;
    Ok(Alternative::fitting(app, crit, susp, claims, ranges))
}

/// What a change leaves of what is known, for the other actor, of which this alternative held
/// before. None as with the mover.
pub fn left_to_other(
    alloc: Global,
    app: &App,
    known: &Known,
    other: &Alternative,
    change: &Change,
    said: Option<&[bool]>,
) -> Result<Option<Alternative>, AllocError>
    requires { IsPossible known.now }
    ensures { IfOk result (λ left. IfSome left (λ n. AlternativeFits app.now n)) }
{
    let Some(ranges) = ranges_left(alloc, app, known, change, said)? else {
        return Ok(None);
    };
    let claims = claims_spared(alloc, app, known, change)?;
    let (crit, susp) = (other.critical(), other.suspended());
    Ok(Alternative::fitting(app, crit, susp, claims, ranges))
}
