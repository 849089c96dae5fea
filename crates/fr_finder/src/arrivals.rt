// Which points lead to which.
use fr_program::{Act, App, BufferKind, Call, Instr, ObjectCall, Point};
use fr_rules::{Landing, Way, lands_at};
use std::alloc::{AllocError, Global};

/// The rows of an instruction in their order: those that work before those that fail, but for a
/// message call, which moves nothing by its first row.
pub fn rows(instr: &Instr) -> [Way; 2] {
    match instr {
        Instr::Call(
            Call::On(
                ObjectCall {
                    act: Act::Move {
                        kind: BufferKind::Message,
                        ..
                    },
                    ..
                },
            ),
        ) => [Way::Else, Way::Then],
        _ => [Way::Then, Way::Else],
    }
}

/// Where a step from the point by this row leads: the number of a point.
pub fn target(app: &App, point: Point, instr: &Instr, way: Way) -> Option<usize> {
    if point.pc == usize::MAX {
        return None;
    }
    match lands_at(point, point.pc + 1, instr, way) {
        Landing::At(next) => app.number(next),
        Landing::Done => None,
    }
}

/// Puts a point among those that lead to its targets, once each.
fn enlist(arrivals: &mut Vec<Vec<usize>>, number: usize, target: usize) -> Result<(), AllocError> {
    if let Some(sources) = arrivals.get_mut(target) {
        if sources.last() != Some(&number) {
            sources.push(number)?;
        }
    }
    Ok(())
}

/// Puts a point among those that its step by this row leads to.
fn enlist_by(
    app: &App,
    arrivals: &mut Vec<Vec<usize>>,
    number: usize,
    point: Point,
    way: Way,
) -> Result<(), AllocError> {
    let Some(instr) = app.instr(point) else {
        return Ok(());
    };
    match target(app, point, instr, way) {
        Some(target) => enlist(arrivals, number, target),
        None => Ok(()),
    }
}

/// So many empty lists. Its error is that an allocation was refused.
pub fn empty_lists<T: Drop>(alloc: Global, count: usize) -> Result<Vec<Vec<T>>, AllocError> {
    let mut lists = Vec::with_capacity(alloc, count)?;
    for _ in 0..count {
        lists.push(Vec::new(alloc))?;
    }
    Ok(lists)
}

/// For each point, by its number, the numbers of the points that lead to it, in their order. Its error is
/// that an allocation was refused.
pub fn points_before(alloc: Global, app: &App) -> Result<Vec<Vec<usize>>, AllocError> {
    let mut arrivals = empty_lists(alloc, app.points())?;
    for number in 0..app.points() {
        let point = app.point(number);
        enlist_by(app, &mut arrivals, number, point, Way::Then)?;
        enlist_by(app, &mut arrivals, number, point, Way::Else)?;
    }
    Ok(arrivals)
}
