// The actors of an application, as a page shows them.
use crate::body::Body;
use crate::code::Code;
use fr_page::{ActorShown, LineShown, PointShown};
use fr_program::{Actor, ActorId, ActorKind, App, Point, Side};
use std::alloc::{AllocError, Global};

/// The lines of an actor's code, without points.
fn lines_shown(
    alloc: Global,
    app: &App,
    code: &Code,
    actor: ActorId,
    count: usize,
) -> Result<Vec<LineShown>, AllocError> {
    let mut lines = Vec::new(alloc);
    for pc in 0..count {
        let point = Point {
            actor,
            pc,
            side: Side::Before,
        };
        lines.push(LineShown {
            number: pc,
            code: code.shown(alloc, app, point)?,
            points: Vec::new(alloc),
        })?;
    }
    Ok(lines)
}

/// An actor with its code.
fn actor_shown(
    alloc: Global,
    app: &App,
    code: &Code,
    number: usize,
    actor: &Actor,
) -> Result<ActorShown, AllocError> {
    let kind = match actor.kind {
        ActorKind::Task => "task",
        ActorKind::Interrupt => "interrupt",
    };
    let (name, kind) = (
        String::from_str(alloc, actor.name.as_str())?,
        String::from_str(alloc, kind)?,
    );
    Ok(ActorShown {
        name,
        kind,
        lines: lines_shown(alloc, app, code, ActorId(number), actor.code.len())?,
        tracks: Vec::new(alloc),
    })
}

/// A number of things in words: `1 actor`, `3 actors`.
pub fn count_text(
    alloc: Global,
    count: usize,
    one: &str,
    many: &str,
) -> Result<String, AllocError> {
    match count {
        1 => format!(in alloc; "1 {one}"),
        _ => format!(in alloc; "{count} {many}"),
    }
}

/// Adds the actors of the application to the page, with their code and its places in the source.
pub fn put_actors(
    alloc: Global,
    body: &mut Body,
    app: &App,
    code: &Code,
) -> Result<(), AllocError> {
    for (number, actor) in app.actors().iter().enumerate() {
        body.actors
            .push(actor_shown(alloc, app, code, number, actor)?)?;
    }
    let count = count_text(alloc, app.actors().len(), "actor", "actors")?;
    Ok(body.counts.push(count)?)
}

/// Adds a point to the line of code at which it is.
pub fn put_point(body: &mut Body, point: Point, shown: PointShown) -> Result<(), AllocError> {
    let Some(actor) = body.actors.get_mut(point.actor.0) else {
        return Ok(());
    };
    match actor.lines.get_mut(point.pc) {
        Some(line) => Ok(line.points.push(shown)?),
        None => Ok(()),
    }
}
