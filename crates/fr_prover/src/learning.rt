// What a try that fails teaches: the ends of what its `set`s give become thresholds.
use crate::effect::given_by;
use crate::lists::insert;
use crate::place::place_at;
use crate::thresholds::Kin;
use crate::trial::Trial;
use fr_program::{App, Instr, Range, VarId};
use std::alloc::{AllocError, Global};

/// The most thresholds that a variable has after learning.
const MOST_THRESHOLDS: usize = 200;

/// A variable with the numbers that a `set` gives it.
#[derive(Clone, Copy)]
pub struct Lesson {
    variable: VarId,
    range: Range,
}

/// What the step from a `set` at the point gives its variable, where the alternative with this number holds.
fn lesson_at(trial: &Trial, number: usize, facts: usize) -> Option<Lesson> {
    let app = trial.pool.app();
    let place = place_at(app, number)?;
    let facts = trial.pool.get(facts)?;
    if !matches!(place.instr, Instr::Set { .. }) {
        return None;
    }
    let (variable, range) = given_by(app, place, facts)?;
    Some(Lesson { variable, range })
}

/// What the `set`s of a try give their variables.
pub fn lessons(alloc: Global, trial: &Trial) -> Result<Vec<Lesson>, AllocError> {
    let mut lessons = Vec::new(alloc);
    for number in 0..trial.plan.app.points() {
        for facts in trial.note(number) {
            if let Some(lesson) = lesson_at(trial, number, *facts) {
                lessons.push(lesson)?;
            }
        }
    }
    Ok(lessons)
}

/// Adds the number to the variable's thresholds, if it is in the declared range and there is room.
/// Whether it is new.
fn learn_number(
    thresholds: &mut Vec<i128>,
    declared: Range,
    number: i128,
) -> Result<bool, AllocError> {
    if number < declared.lo || declared.hi < number || thresholds.len() >= MOST_THRESHOLDS {
        return Ok(false);
    }
    insert(thresholds, number)
}

/// Adds both ends to the thresholds of a variable. Whether one of them is new.
fn learn_ends(
    app: &App,
    thresholds: &mut Vec<Vec<i128>>,
    variable: usize,
    range: Range,
) -> Result<bool, AllocError> {
    if variable >= app.variables().len() {
        return Ok(false);
    }
    let declared = app.range(VarId(variable));
    match thresholds.get_mut(variable) {
        Some(thresholds) => {
            let low = learn_number(thresholds, declared, range.lo)?;
            Ok(learn_number(thresholds, declared, range.hi)? || low)
        }
        None => Ok(false),
    }
}

/// Adds what the `set`s of a try gave to the thresholds of all kin of their variables. Whether any is new.
pub fn learn(
    app: &App,
    kin: &Kin,
    thresholds: &mut Vec<Vec<i128>>,
    lessons: &[Lesson],
) -> Result<bool, AllocError> {
    let mut learned = false;
    for lesson in lessons {
        let name = kin.name(lesson.variable.0);
        for variable in 0..app.variables().len() {
            if kin.name(variable) == name {
                learned |= learn_ends(app, thresholds, variable, lesson.range)?;
            }
        }
    }
    Ok(learned)
}
