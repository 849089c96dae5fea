// What is looked up of an application once, before the search.
use crate::lists::{add_once, insert_inside};
use crate::order::{heads, places_in_order};
use crate::place::{number_of, place_at, tested};
use crate::table::TruthTable;
use crate::thresholds::{Kin, kin_of};
use fr_finder::empty_lists;
use fr_program::{App, Instr, Operand};
use std::alloc::{AllocError, Global};

/// The points of an actor: from `first` up to `end`, without it.
#[derive(Clone, Copy)]
pub struct Span {
    pub first: usize,
    pub end: usize,
}

/// What the search looks up of an application over and over.
#[derive(Drop)]
pub struct Plan<'a> {
    pub app: &'a App,
    /// By variable and actor: whether the actor's code names the variable.
    pub users: TruthTable,
    /// By actor: the variables that its code tests.
    pub tests: Vec<Vec<usize>>,
    /// By variable: the numbers of its declared range that it is compared with, rising.
    pub compared: Vec<Vec<i128>>,
    /// Which variables are copied, computed or compared with one another.
    pub kin: Kin,
    /// By point: whether a backward step of its own actor leads to it.
    pub heads: Vec<bool>,
    /// By point: its place in an order in which steps mostly lead forward.
    pub order: Vec<usize>,
    /// By actor: its points.
    pub spans: Vec<Span>,
}

/// Which actor's code names which variable.
fn users(alloc: Global, app: &App) -> Result<TruthTable, AllocError> {
    let mut users = TruthTable::new(alloc, app.variables().len(), app.actors().len(), false)?;
    for number in 0..app.points() {
        if let Some(place) = place_at(app, number) {
            for variable in place.instr.variables().by_place() {
                if let Some(variable) = variable {
                    users.mark(variable.0, place.point.actor.0);
                }
            }
        }
    }
    Ok(users)
}

/// Adds the variables that this code tests, each once.
fn add_tests(tests: &mut Vec<usize>, code: &[Instr]) -> Result<(), AllocError> {
    for instr in code {
        for variable in tested(instr) {
            if let Some(variable) = variable {
                add_once(tests, variable.0)?;
            }
        }
    }
    Ok(())
}

/// By actor: the variables that its code tests.
fn tests(alloc: Global, app: &App) -> Result<Vec<Vec<usize>>, AllocError> {
    let mut tests = empty_lists(alloc, app.actors().len())?;
    for (actor, listed) in app.actors().iter().enumerate() {
        if let Some(list) = tests.get_mut(actor) {
            add_tests(list, &listed.code)?;
        }
    }
    Ok(tests)
}

/// Adds the other operand to what this one is compared with, if it is a variable and the other one a number that it can have.
fn add_compared(
    app: &App,
    lists: &mut Vec<Vec<i128>>,
    operand: Operand,
    other: Operand,
) -> Result<(), AllocError> {
    match (operand.variable(), number_of(other)) {
        (Some(variable), Some(number)) if variable.0 < app.variables().len() => {
            match lists.get_mut(variable.0) {
                Some(list) => insert_inside(list, app.range(variable), number),
                None => Ok(()),
            }
        }
        _ => Ok(()),
    }
}

/// By variable: the numbers of its declared range that it is compared with, rising.
fn compared(alloc: Global, app: &App) -> Result<Vec<Vec<i128>>, AllocError> {
    let mut lists = empty_lists(alloc, app.variables().len())?;
    for number in 0..app.points() {
        if let Some(Instr::If { left, right, .. }) = app.instr(app.point(number)) {
            add_compared(app, &mut lists, *left, *right)?;
            add_compared(app, &mut lists, *right, *left)?;
        }
    }
    Ok(lists)
}

/// By actor: its points.
fn spans(alloc: Global, app: &App) -> Result<Vec<Span>, AllocError> {
    let nowhere = Span {
        first: app.points(),
        end: 0,
    };
    let mut spans = vec![in alloc; nowhere; app.actors().len()]?;
    for number in 0..app.points() {
        if let Some(span) = spans.get_mut(app.point(number).actor.0) {
            span.first = span.first.min(number);
            span.end = number + 1;
        }
    }
    Ok(spans)
}

impl<'a> Plan<'a> {
    /// What the search looks up of the application.
    pub fn new(alloc: Global, app: &'a App) -> Result<Plan<'a>, AllocError> {
        Ok(Plan {
            app,
            users: users(alloc, app)?,
            tests: tests(alloc, app)?,
            compared: compared(alloc, app)?,
            kin: kin_of(alloc, app)?,
            heads: heads(alloc, app)?,
            order: places_in_order(alloc, app)?,
            spans: spans(alloc, app)?,
        })
    }

    /// The points of the actor; none where the application has no such actor.
    pub fn span(&self, actor: usize) -> Span {
        match self.spans.get(actor) {
            Some(span) => *span,
            None => Span { first: 0, end: 0 },
        }
    }

    /// Which variables an actor's notes speak of: all but those that one other actor alone names, or,
    /// where `everything` is wanted, all.
    pub fn kept(&self, alloc: Global, everything: bool) -> Result<TruthTable, AllocError> {
        let (actors, variables) = (self.app.actors().len(), self.app.variables().len());
        let mut kept = TruthTable::new(alloc, actors, variables, everything)?;
        for variable in 0..variables {
            let shared = self.users.count(variable) != 1;
            for actor in 0..actors {
                if shared || self.users.has(variable, actor) {
                    kept.mark(actor, variable);
                }
            }
        }
        Ok(kept)
    }

    /// Whether the notes of all actors speak of all variables in any case.
    pub fn keeps_everything(&self) -> bool {
        let actors = self.app.actors().len();
        for variable in 0..self.app.variables().len() {
            if self.users.count(variable) == 1 && actors > 1 {
                return false;
            }
        }
        true
    }
}
