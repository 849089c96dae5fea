// The first round: what each point's note is before any step.
ghost use Rattle.std.specs.Prelude.{◌≡◌, ◌<◌, IfOk, IfSome, length};
ghost use Rattle.fr_notes.specs.Fits.{AlternativeFits, NoteFits, NotesFit};

use fr_notes::{Alternative, Claim, Note, Notes};
use fr_program::{App, Object, Point, Range, Side};
use std::alloc::{AllocError, Global};

/// What is known of an object at the start.
fn claim_at_start(object: &Object) -> Claim {
    if object.live {
        Claim::Alive
    } else {
        Claim::Gone
    }
}

/// What is known of each object at the start, by their numbers. Its error is that an allocation was
/// refused.
pub fn claims_at_start(alloc: Global, app: &App) -> Result<Vec<Claim>, AllocError> {
    let mut claims = Vec::with_capacity(alloc, app.objects().len())?;
    for object in app.objects() {
        claims.push(claim_at_start(object))?;
    }
    Ok(claims)
}

/// The range of each variable at the start.
fn ranges_at_start(alloc: Global, app: &App) -> Result<Vec<Range>, AllocError> {
    let mut ranges = Vec::with_capacity(alloc, app.variables().len())?;
    for variable in app.variables() {
        ranges.push(Range::only(variable.init))?;
    }
    Ok(ranges)
}

/// What every actor has when the scheduler starts: objects that are live or dead as declared, and
/// variables at their first numbers.
fn alternative_at_start(alloc: Global, app: &App) -> Result<Option<Alternative>, AllocError>
    ensures { IfOk result (λ first. IfSome first (λ n. AlternativeFits app.now n)) }
{
    let claims = claims_at_start(alloc, app)?;
    let ranges = ranges_at_start(alloc, app)?;
    Ok(Alternative::fitting(app, 0, 0, claims, ranges))
}

/// The point's note before any step: its actor starts there, or is never there.
fn note_at_start(alloc: Global, app: &App, point: Point) -> Result<Note, AllocError>
    ensures { IfOk result (λ note. NoteFits app.now note) }
{
    if point.pc != 0 {
        return Ok(Note::never(alloc));
    }
    if !matches!(point.side, Side::Before) {
        return Ok(Note::never(alloc));
    }
    let Some(first) = alternative_at_start(alloc, app)? else {
        return Ok(Note::never(alloc));
    };
    let mut alternatives = Vec::with_capacity(alloc, 1)?;
    alternatives.push(first)?;
    Ok(Note::of(alternatives))
}

/// The first round of an application.
pub fn start(alloc: Global, app: &App) -> Result<Notes, AllocError>
    ensures { IfOk result (λ notes. NotesFit app.now notes) }
{
    let mut notes = Vec::with_capacity(alloc, app.points())?;
    for number in 0..app.points() {
        notes.push(note_at_start(alloc, app, app.point(number))?)?;
    }
    match Notes::build(alloc, app, notes) {
        Ok(notes) => Ok(notes),
        Err(_) => unreachable!(),
    }
}
