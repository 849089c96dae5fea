// Mutexes that are held for long: while a task waits without limit for something else, and where a task takes one that it holds.
use crate::updates::Walk;
use crate::warning::Warning;
use fr_formats::WarningKind;
use fr_notes::{Claim, Notes};
use fr_program::{
    Act, App, Attempt, BlockTime, Call, Instr, ObjId, ObjectCall, Point, SemaphoreForm, Side,
    Timing,
};
use fr_wording::{actor_name, is_mutex, object_name};
use std::alloc::{AllocError, Global};

/// Whether the actor can hold the mutex at the point with this number.
fn can_hold(notes: &Notes, number: usize, mutex: ObjId) -> bool {
    let Some(note) = notes.get(number) else {
        return false;
    };
    let mut alternatives = note.alternatives().iter();
    alternatives.any(|alternative| matches!(alternative.claim(mutex), Claim::HeldTimes(_)))
}

/// The object call of the point's line.
pub(crate) fn call_at(app: &App, point: Point) -> Option<ObjectCall> {
    match app.instr(point) {
        Some(Instr::Call(Call::On(call))) => Some(*call),
        _ => None,
    }
}

/// What the actor waits for without limit inside the call of this point, other than a mutex.
fn waited_for(app: &App, point: Point) -> Option<ObjId> {
    let call = call_at(app, point)?;
    let is_wait = matches!(call.timing, Timing::Waits(BlockTime::MaxDelay));
    if point.side == Side::Inside && is_wait && !is_mutex(app, call.object) {
        Some(call.object)
    } else {
        None
    }
}

/// The line of a mutex that the actor can hold at the point while it waits for the object.
fn held_line(
    alloc: Global,
    app: &App,
    point: Point,
    mutex: ObjId,
    awaited: ObjId,
) -> Result<String, AllocError> {
    let (actor, pc) = (actor_name(app, point.actor), point.pc);
    let (held, awaited) = (object_name(app, mutex), object_name(app, awaited));
    format!(in alloc;
        "warning: {actor} {pc} holds {held} while it waits without limit for {awaited}"
    )
}

/// Adds a warning for each mutex that the actor can hold at the point while it waits for the object.
fn add_held(
    alloc: Global,
    warnings: &mut Vec<Warning>,
    app: &App,
    notes: &Notes,
    (number, point): (usize, Point),
    awaited: ObjId,
) -> Result<(), AllocError> {
    for place in 0..app.objects().len() {
        let mutex = ObjId(place);
        if is_mutex(app, mutex) && can_hold(notes, number, mutex) {
            warnings.push(Warning {
                kind: WarningKind::HeldWhileWaiting,
                text: held_line(alloc, app, point, mutex, awaited)?,
                point: Some(point),
            })?;
        }
    }
    Ok(())
}

/// Adds the warnings for mutexes that can be held while an actor waits without limit for something that isn't a mutex, a line for each place
/// and mutex. Whoever takes the mutex then waits as long. An error says that an allocation was refused. The lines' form is this
/// project's own.
pub(crate) fn held_while_waiting(
    alloc: Global,
    app: &App,
    notes: &Notes,
    warnings: &mut Vec<Warning>,
) -> Result<(), AllocError> {
    for number in 0..app.points() {
        let point = app.point(number);
        if let Some(awaited) = waited_for(app, point) {
            add_held(alloc, warnings, app, notes, (number, point), awaited)?;
        }
    }
    Ok(())
}

/// What the line tries, and with which object.
fn tried_at(app: &App, point: Point) -> Option<(Attempt, ObjId)> {
    let call = call_at(app, point)?;
    match call.act {
        Act::Try { attempt, .. } => Some((attempt, call.object)),
        _ => None,
    }
}

/// The plain mutex that the line takes.
fn mutex_taken(app: &App, point: Point) -> Option<ObjId> {
    match tried_at(app, point)? {
        (Attempt::Take(SemaphoreForm::Plain), mutex) if is_mutex(app, mutex) => Some(mutex),
        _ => None,
    }
}

/// Whether a way without a give of the mutex leads from its take at this point of the code to the other line.
fn keeps_until(
    alloc: Global,
    app: &App,
    code: &[Instr],
    mutex: ObjId,
    from: Point,
    to: usize,
) -> Result<bool, AllocError> {
    let mut walk = Walk::none(alloc, code.len())?;
    let mut next = from.pc.checked_add(1);
    for _ in 0..code.len().saturating_mul(2).saturating_add(1) {
        let Some(pc) = next else {
            break;
        };
        let tried = tried_at(app, Point { pc, ..from });
        let is_given = matches!(tried, Some((Attempt::Give(_), given)) if given == mutex);
        if let Some(instr) = code.get(pc)
            && walk.is_first_look(pc)
            && !is_given
        {
            walk.follow(instr, pc)?;
        }
        next = walk.next.pop();
    }
    Ok(walk.seen.get(to) == Some(&true))
}

/// The first line from whose take of the mutex the actor can come to this point without a give of it.
fn take_before(
    alloc: Global,
    app: &App,
    point: Point,
    mutex: ObjId,
) -> Result<Option<usize>, AllocError> {
    let Some(actor) = app.actors().get(point.actor.0) else {
        return Ok(None);
    };
    for pc in 0..actor.code.len() {
        let from = Point { pc, ..point };
        if mutex_taken(app, from) == Some(mutex)
            && keeps_until(alloc, app, &actor.code, mutex, from, point.pc)?
        {
            return Ok(Some(pc));
        }
    }
    Ok(None)
}

/// The line of a take of a mutex that the actor can hold there.
fn taken_line(alloc: Global, app: &App, point: Point, mutex: ObjId) -> Result<String, AllocError> {
    let (actor, pc) = (actor_name(app, point.actor), point.pc);
    let name = object_name(app, mutex);
    match take_before(alloc, app, point, mutex)? {
        Some(first) if first != pc => {
            format!(in alloc;
                "warning: {actor} {pc} takes {name}, which it can hold there since {actor} {first}"
            )
        }
        _ => format!(in alloc;
            "warning: {actor} {pc} takes {name}, which it can hold there already"
        ),
    }
}

/// Adds the warnings for plain mutexes that an actor takes where it can hold them: one that isn't given back on some way. A line for each
/// place. An error says that an allocation was refused. The lines' form is this project's own.
pub(crate) fn never_given(
    alloc: Global,
    app: &App,
    notes: &Notes,
    warnings: &mut Vec<Warning>,
) -> Result<(), AllocError> {
    for number in 0..app.points() {
        let point = app.point(number);
        if let Some(mutex) = mutex_taken(app, point)
            && point.side == Side::Before
            && can_hold(notes, number, mutex)
        {
            warnings.push(Warning {
                kind: WarningKind::NeverGiven,
                text: taken_line(alloc, app, point, mutex)?,
                point: Some(point),
            })?;
        }
    }
    Ok(())
}
