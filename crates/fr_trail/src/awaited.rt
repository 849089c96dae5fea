// At which lines of its code an actor's next event can be.

use fr_calls::{Landing, Way, lands_at};
use fr_events::{Happening, Trace};
use fr_instr::verb_of;
use fr_program::{ActorId, App, Instr, Point, VarId};
use std::alloc::{AllocError, Global};

/// Whether the actor marks its writes of the variable.
fn marks(trace: &Trace, actor: ActorId, x: VarId) -> bool {
    trace.events.iter().any(|event| {
        event.actor == actor
            && matches!(event.what, Happening::Set { variable, .. } if variable == x)
    })
}

/// Whether the actor records where its handler begins and ends.
pub(crate) fn records_handler(trace: &Trace, actor: ActorId) -> bool {
    trace.events.iter().any(|event| {
        event.actor == actor && matches!(event.what, Happening::Begin | Happening::End)
    })
}

/// Whether the trace shows the steps of the line.
fn has_event(trace: &Trace, actor: ActorId, instr: &Instr) -> bool {
    match instr {
        Instr::Call(call) => !trace.unseen.contains(&verb_of(*call)),
        Instr::Set { target, .. } | Instr::Pick { target, .. } => marks(trace, actor, *target),
        Instr::Return => records_handler(trace, actor),
        Instr::If { .. } | Instr::Goto { .. } => false,
    }
}

/// Adds the points to which the steps of this line lead.
fn add_next(left: &mut Vec<Point>, point: Point, instr: &Instr) -> Result<(), AllocError> {
    let Some(next) = point.pc.checked_add(1) else {
        return Ok(());
    };
    for way in [Way::Then, Way::Else] {
        if let Landing::At(landing) = lands_at(point, next, instr, way) {
            left.push(landing)?;
        }
    }
    Ok(())
}

/// The points before the lines with events to which lines without events lead from this point, whatever the tests there say; itself
/// where it has events.
pub(crate) fn awaited(
    alloc: Global,
    app: &App,
    trace: &Trace,
    from: Point,
) -> Result<Vec<Point>, AllocError> {
    let mut met = vec![in alloc; false; app.points()]?;
    let (mut left, mut found) = (vec![in alloc; from]?, Vec::new(alloc));
    for _ in 0..app.points().saturating_mul(2).saturating_add(1) {
        let Some(point) = left.pop() else {
            break;
        };
        let (Some(number), Some(instr)) = (app.number(point), app.instr(point)) else {
            continue;
        };
        if met.get(number).copied() != Some(false) {
            continue;
        }
        met[number] = true;
        if has_event(trace, point.actor, instr) {
            found.push(point)?;
        } else {
            add_next(&mut left, point, instr)?;
        }
    }
    Ok(found)
}
