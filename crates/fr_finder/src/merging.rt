// Merging what a step leaves into a point's note.
ghost use Rattle.std.specs.Prelude.{◌≤ℤ◌, ◌<◌, IfOk, IfSome, length, vec_len};
ghost use Rattle.fr_notes.specs.Fits.{AlternativeFits, NoteFits};

use fr_notes::{Alternative, Claim, MOST_ALTERNATIVES};
use fr_program::{App, Range, VarId};
use std::alloc::{AllocError, Global};

/// How an end of a range grows that has to: to what it needs, or to the declared end at once.
#[derive(Clone, Copy, PartialEq, Eq)]
pub enum Growth {
    Exact,
    Whole,
}

/// Whether both alternatives have the same held mutexes.
fn hold_the_same(claims: &[Claim], others: &[Claim]) -> bool {
    claims
        .iter()
        .zip(others)
        .all(|(claim, other)| claim.count() == other.count())
}

/// Whether both alternatives have the same held mutexes and depths: only then they can be one.
pub fn can_be_one(alternative: &Alternative, other: &Alternative) -> bool {
    alternative.critical() == other.critical()
        && alternative.suspended() == other.suspended()
        && hold_the_same(alternative.claims(), other.claims())
}

/// The lower end, moved down at least to what is needed.
fn lower(lo: i128, needed: i128, most: i128) -> i128
    ensures { result ≤ℤ lo }
{
    if needed < lo { lo.min(most) } else { lo }
}

/// The upper end, moved up at least to what is needed.
fn upper(hi: i128, needed: i128, most: i128) -> i128
    ensures { hi ≤ℤ result }
{
    if hi < needed { hi.max(most) } else { hi }
}

/// The range, grown so that it has the other one's numbers too.
fn grown(range: Range, other: Range, declared: Range, growth: Growth) -> Range {
    let most = match growth {
        Growth::Exact => other,
        Growth::Whole => declared,
    };
    let lo = lower(range.lo, other.lo, most.lo);
    let hi = upper(range.hi, other.hi, most.hi);
    Range { lo, hi }
}

/// What both lists of claims say of the objects. Its error is that an allocation was refused.
pub fn common_claims(
    alloc: Global,
    claims: &[Claim],
    others: &[Claim],
) -> Result<Vec<Claim>, AllocError> {
    let mut merged = Vec::with_capacity(alloc, claims.len())?;
    for (claim, other) in claims.iter().zip(others) {
        merged.push(claim.common(*other))?;
    }
    Ok(merged)
}

/// The ranges of an alternative, grown by those of another one.
fn grown_ranges(
    alloc: Global,
    app: &App,
    alternative: &Alternative,
    other: &Alternative,
    growth: Growth,
) -> Result<Vec<Range>, AllocError> {
    let variables = app.variables().len();
    let mut merged = Vec::with_capacity(alloc, variables)?;
    for variable in 0..variables {
        let variable = VarId(variable);
        let (range, declared) = (alternative.range(variable), app.range(variable));
        merged.push(grown(range, other.range(variable), declared, growth))?;
    }
    Ok(merged)
}

/// Both alternatives as one, with the depths of the first.
fn merged(
    alloc: Global,
    app: &App,
    alternative: &Alternative,
    other: &Alternative,
    growth: Growth,
) -> Result<Option<Alternative>, AllocError>
    ensures { IfOk result (λ one. IfSome one (λ n. AlternativeFits app.now n)) }
{
    let claims = common_claims(alloc, alternative.claims(), other.claims())?;
    let ranges = grown_ranges(alloc, app, alternative, other, growth)?;
    let (crit, susp) = (alternative.critical(), alternative.suspended());
    Ok(Alternative::fitting(app, crit, susp, claims, ranges))
}

/// The place of the first alternative that the other one can be merged into.
fn place_for(note: &[Alternative], other: &Alternative) -> Option<usize>
    ensures { IfSome result (λ place. place < length note.now) }
{
    note.iter()
        .position(|alternative| can_be_one(alternative, other))
}

/// Puts an alternative in the place of another one.
fn replace(app: &App, note: &mut Vec<Alternative>, place: usize, one: Alternative)
    requires place { place < vec_len note.old }
    requires note { NoteFits app.now note.old.items }
    requires one { AlternativeFits app.now one }
    ensures { NoteFits app.now note.new.items }
{
    let _ = app;
    note[place] = one;
}

/// Adds an alternative to a note of an application, if there is room. Its error is that an allocation
/// was refused.
pub fn add(app: &App, note: &mut Vec<Alternative>, other: Alternative) -> Result<(), AllocError>
    requires note { NoteFits app.now note.old.items }
    requires other { AlternativeFits app.now other }
    ensures { NoteFits app.now note.new.items }
{
    let _ = app;
    if note.len() < MOST_ALTERNATIVES {
        note.push(other)?;
    }
    Ok(())
}

/// Merges an alternative into a note: into the first one with the same held mutexes and depths. Where
/// there is none it comes last, if there is room, and else the note stays.
pub fn merge(
    alloc: Global,
    app: &App,
    note: &mut Vec<Alternative>,
    other: Alternative,
    growth: Growth,
) -> Result<(), AllocError>
    requires note { NoteFits app.now note.old.items }
    requires other { AlternativeFits app.now other }
    ensures { NoteFits app.now note.new.items }
{
    let Some(place) = place_for(note, &other) else {
        return add(app, note, other);
    };
    if let Some(one) = merged(alloc, app, &note[place], &other, growth)? {
        replace(app, note, place, one);
    }
    Ok(())
}
