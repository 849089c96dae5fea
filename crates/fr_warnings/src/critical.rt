// Sends and receives of stream and message buffers in critical sections.
use crate::mutexes::call_at;
use crate::warning::Warning;
use fr_formats::WarningKind;
use fr_notes::Notes;
use fr_program::{Act, App, BlockTime, End, ObjId, Point, Side, Timing};
use fr_wording::{actor_name, object_name};
use std::alloc::{AllocError, Global};

/// Whether the actor can be in a critical section at the point with this number.
fn can_be_critical(notes: &Notes, number: usize) -> bool {
    let Some(note) = notes.get(number) else {
        return false;
    };
    let mut alternatives = note.alternatives().iter();
    alternatives.any(|alternative| alternative.critical() > 0)
}

/// The buffer of which the line sends or receives in the form for tasks with block time 0, and at which end, where the actor is
/// before it.
fn moved_at(app: &App, point: Point) -> Option<(End, ObjId)> {
    let call = call_at(app, point)?;
    let is_now = matches!(call.timing, Timing::Waits(BlockTime::Ticks(0)));
    match call.act {
        Act::Move { end, .. } if is_now && point.side == Side::Before => Some((end, call.object)),
        _ => None,
    }
}

/// The line of a send or a receive in a critical section.
fn line_of(
    alloc: Global,
    app: &App,
    point: Point,
    (end, buffer): (End, ObjId),
) -> Result<String, AllocError> {
    let (actor, pc) = (actor_name(app, point.actor), point.pc);
    let buffer = object_name(app, buffer);
    let moves = match end {
        End::Writer => "sends to",
        End::Reader => "receives from",
    };
    format!(in alloc;
        "warning: {actor} {pc} {moves} {buffer} in a critical section, where a kernel with several cores may stop in an assertion"
    )
}

/// Adds the warnings for tasks that send or receive bytes of a stream or message buffer in a critical section: the kernel calls
/// `vTaskSuspendAll` there, which asserts on several cores that its task isn't in one. A line for each task, with the first such
/// place. A call with a block time isn't reported: it breaks a rule there. An error says that an allocation was refused. The lines'
/// form is this project's own.
pub(crate) fn buffers_in_critical_sections(
    alloc: Global,
    app: &App,
    notes: &Notes,
    warnings: &mut Vec<Warning>,
) -> Result<(), AllocError> {
    let mut warned = None;
    for number in 0..app.points() {
        let point = app.point(number);
        if let Some(moved) = moved_at(app, point)
            && warned != Some(point.actor)
            && can_be_critical(notes, number)
        {
            warnings.push(Warning {
                kind: WarningKind::BufferInCriticalSection,
                text: line_of(alloc, app, point, moved)?,
                point: Some(point),
            })?;
            warned = Some(point.actor);
        }
    }
    Ok(())
}
