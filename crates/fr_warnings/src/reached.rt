// Points that are never reached.
use crate::uses::is_single;
use crate::warning::Warning;
use fr_formats::WarningKind;
use fr_notes::Notes;
use fr_program::{ActorId, App, Instr, Point, Side};
use fr_wording::actor_name;
use std::alloc::{AllocError, Global};

/// Points of one actor in a row whose notes say that the actor is never there.
#[derive(Clone, Copy)]
struct Unreached {
    actor: usize,
    /// The instructions of the first and of the last of them.
    first: usize,
    last: usize,
    /// The number of the point after the last one.
    end: usize,
}

/// Whether the note of the point says that its actor is never there.
fn is_never(notes: &Notes, number: usize) -> bool {
    match notes.get(number) {
        Some(note) => note.alternatives().is_empty(),
        None => false,
    }
}

/// Adds a point to the rows, at the end of the last one where it follows that.
fn add(
    rows: &mut Vec<Unreached>,
    actor: usize,
    pc: usize,
    number: usize,
) -> Result<(), AllocError> {
    let end = number.saturating_add(1);
    if let Some(row) = rows.last_mut() {
        if row.actor == actor && row.end == number {
            row.last = pc;
            row.end = end;
            return Ok(());
        }
    }
    Ok(rows.push(Unreached {
        actor,
        first: pc,
        last: pc,
        end,
    })?)
}

/// The points whose notes say that their actors are never there, in rows.
fn rows_of(alloc: Global, app: &App, notes: &Notes) -> Result<Vec<Unreached>, AllocError> {
    let mut rows = Vec::new(alloc);
    for number in 0..app.points() {
        if is_never(notes, number) {
            let point = app.point(number);
            add(&mut rows, point.actor.0, point.pc, number)?;
        }
    }
    Ok(rows)
}

impl Unreached {
    /// The first of the points, or the one before it at the same line.
    fn point(self) -> Point {
        Point {
            actor: ActorId(self.actor),
            pc: self.first,
            side: Side::Before,
        }
    }
}

/// Whether the row is the line of an assertion alone: it sets a variable with one value, and is there so that no run gets to it.
fn is_assertion(app: &App, row: Unreached) -> bool {
    match app.instr(row.point()) {
        Some(Instr::Set { target, .. }) => row.first == row.last && is_single(app, *target),
        _ => false,
    }
}

/// The line of a row of points.
fn line_of(alloc: Global, app: &App, row: Unreached) -> Result<String, AllocError> {
    let (name, first, last) = (actor_name(app, ActorId(row.actor)), row.first, row.last);
    if first == last {
        format!(in alloc; "warning: {name} {first} is never reached")
    } else {
        format!(in alloc; "warning: {name} {first} to {last} are never reached")
    }
}

/// Adds the warnings for points that are never reached, one for each row of points whose notes say that the actor is never
/// there, with the actor and its lines of code. Nothing is asked at such points, and a wrong target can be the cause. The line
/// of an assertion, to which no run should get, is left out. An error says that an allocation was refused. The lines' form is
/// this project's own.
pub(crate) fn never_reached(
    alloc: Global,
    app: &App,
    notes: &Notes,
    warnings: &mut Vec<Warning>,
) -> Result<(), AllocError> {
    for row in rows_of(alloc, app, notes)? {
        if !is_assertion(app, row) {
            warnings.push(Warning {
                kind: WarningKind::NeverReached,
                text: line_of(alloc, app, row)?,
                point: Some(row.point()),
            })?;
        }
    }
    Ok(())
}
