// Separations that are worth a try, by the points at which a certificate fails.
use crate::lists::{add_once, insert_inside, is_marked, list_at, mark};
use crate::measure::Failure;
use crate::place::{changed_life, place_at};
use crate::plan::Plan;
use crate::separation::{Separation, Split};
use fr_judge::Part;
use fr_notes::MOST_ALTERNATIVES;
use fr_program::{App, Point, Range, VarId};
use std::alloc::{AllocError, Global};

/// A variable's range is cut at most so often.
const MOST_CUTS: usize = 15;

/// So many of the failures are looked at.
const LOOKED_AT: usize = 3;

/// So many single numbers are tried where a variable is tested with many.
const SINGLE_NUMBERS: usize = 6;

/// The actors and objects that some failures have to do with.
#[derive(Drop)]
struct Concern {
    /// In the order in which they were heard of.
    actors: Vec<usize>,
    /// By object: whether it was heard of.
    objects: Vec<bool>,
}

/// The object of the call at a point, if there is one.
fn object_at(app: &App, point: Point) -> Option<usize> {
    Some(app.instr(point)?.object()?.0)
}

/// The object that the instruction of a point creates or deletes, if it does.
fn life_at(app: &App, point: Point) -> Option<usize> {
    changed_life(app.instr(point)?)
}

/// Whether the part is that a handle isn't live, or that an object is deleted in use or created while live.
fn is_of_life(part: Part) -> bool {
    match part {
        Part::Rule(rule) => rule.number() == 7 || rule.number() == 8,
        _ => false,
    }
}

impl Concern {
    /// Adds an object, if there is one.
    fn add_object(&mut self, object: Option<usize>) {
        if let Some(object) = object {
            mark(&mut self.objects, object);
        }
    }

    /// Adds what a failure has to do with.
    fn add(&mut self, app: &App, failure: Failure) -> Result<(), AllocError> {
        let Some(place) = place_at(app, failure.number) else {
            return Ok(());
        };
        add_once(&mut self.actors, place.point.actor.0)?;
        if is_of_life(failure.part) {
            self.add_object(object_at(app, place.point));
        }
        if let Part::Spoiled(other) | Part::Near(other) = failure.part {
            add_once(&mut self.actors, other.actor.0)?;
            self.add_object(life_at(app, other));
        }
        Ok(())
    }

    /// Adds the actors that create or delete one of the objects.
    fn add_makers(&mut self, app: &App) -> Result<(), AllocError> {
        for number in 0..app.points() {
            let point = app.point(number);
            if let Some(object) = life_at(app, point) {
                if is_marked(&self.objects, object) {
                    add_once(&mut self.actors, point.actor.0)?;
                }
            }
        }
        Ok(())
    }
}

/// What the first failures have to do with.
fn concern_of(alloc: Global, app: &App, failures: &[Failure]) -> Result<Concern, AllocError> {
    let objects = vec![in alloc; false; app.objects().len()]?;
    let mut concern = Concern {
        actors: Vec::new(alloc),
        objects,
    };
    for failure in failures.iter().take(LOOKED_AT) {
        concern.add(app, *failure)?;
    }
    concern.add_makers(app)?;
    Ok(concern)
}

/// The numbers from the second one of a range to its last; none where they are too many.
fn each_number(alloc: Global, range: Range) -> Result<Vec<i128>, AllocError> {
    let mut cuts = Vec::new(alloc);
    let mut cut = range.lo;
    for _ in 0..MOST_CUTS {
        cut = cut.saturating_add(1);
        if cut <= range.hi {
            cuts.push(cut)?;
        }
    }
    if cut < range.hi {
        cuts.clear();
    }
    Ok(cuts)
}

/// Adds a cut, if it divides the range.
fn add_cut(cuts: &mut Vec<i128>, range: Range, cut: i128) -> Result<(), AllocError> {
    if cut == range.lo {
        Ok(())
    } else {
        insert_inside(cuts, range, cut)
    }
}

/// The cuts around these numbers, each of which divides the range; none where they are too many.
fn cuts_around(alloc: Global, range: Range, numbers: &[i128]) -> Result<Vec<i128>, AllocError> {
    let mut cuts = Vec::new(alloc);
    for number in numbers {
        add_cut(&mut cuts, range, *number)?;
        add_cut(&mut cuts, range, number.saturating_add(1))?;
    }
    if cuts.len() > MOST_CUTS {
        cuts.clear();
    }
    Ok(cuts)
}

/// Separations in the order in which they are tried.
#[derive(Drop)]
struct Candidates<'a> {
    plan: &'a Plan<'a>,
    list: Vec<Separation>,
}

impl<'a> Candidates<'a> {
    /// Adds a separation, unless it is there.
    fn add(&mut self, separation: Separation) -> Result<(), AllocError> {
        if !self.list.contains(&separation) {
            self.list.push(separation)?;
        }
        Ok(())
    }

    /// Adds a variable's cuts for all actors that name it.
    fn add_cuts(
        &mut self,
        alloc: Global,
        variable: usize,
        cuts: Vec<i128>,
    ) -> Result<(), AllocError> {
        if cuts.is_empty() {
            return Ok(());
        }
        let actors = Vec::from_slice(alloc, self.plan.users.row(variable))?;
        self.add(Separation {
            split: Split::Cuts(variable, cuts),
            actors,
        })
    }

    /// Adds cuts around single numbers.
    fn add_singles(
        &mut self,
        alloc: Global,
        variable: usize,
        range: Range,
        numbers: &[i128],
    ) -> Result<(), AllocError> {
        for number in numbers.iter().take(SINGLE_NUMBERS) {
            let cuts = cuts_around(alloc, range, &[*number])?;
            self.add_cuts(alloc, variable, cuts)?;
        }
        Ok(())
    }

    /// Adds the ways to cut a variable's numbers, the finest first.
    fn add_variable(&mut self, alloc: Global, variable: usize) -> Result<(), AllocError> {
        let plan = self.plan;
        if variable >= plan.app.variables().len() {
            return Ok(());
        }
        let range = plan.app.range(VarId(variable));
        let numbers = list_at(&plan.compared, variable);
        let each = each_number(alloc, range)?;
        let count = each.len();
        self.add_cuts(alloc, variable, each)?;
        let around = cuts_around(alloc, range, numbers)?;
        let finest = if count == 0 { around.len() } else { count };
        self.add_cuts(alloc, variable, around)?;
        if finest == 0 || finest >= MOST_ALTERNATIVES {
            self.add_singles(alloc, variable, range, numbers)?;
        }
        Ok(())
    }

    /// Adds the variables of the list that several actors name, or those that one alone names.
    fn add_tested(
        &mut self,
        alloc: Global,
        tests: &[usize],
        shared: bool,
    ) -> Result<(), AllocError> {
        for variable in tests {
            if (self.plan.users.count(*variable) != 1) == shared {
                self.add_variable(alloc, *variable)?;
            }
        }
        Ok(())
    }

    /// Adds the variables that the actors test, shared ones first.
    fn add_all_tested(&mut self, alloc: Global, actors: &[usize]) -> Result<(), AllocError> {
        let plan = self.plan;
        for actor in actors {
            let tests = list_at(&plan.tests, *actor);
            self.add_tested(alloc, tests, true)?;
            self.add_tested(alloc, tests, false)?;
        }
        Ok(())
    }

    /// Adds separations by the lives of the objects, for the actors that the failures have to do with.
    fn add_objects(&mut self, alloc: Global, concern: &Concern) -> Result<(), AllocError> {
        let mut marks = vec![in alloc; false; self.plan.app.actors().len()]?;
        for actor in &concern.actors {
            mark(&mut marks, *actor);
        }
        for object in 0..concern.objects.len() {
            if is_marked(&concern.objects, object) {
                let actors = Vec::from_slice(alloc, &marks)?;
                let split = Split::Life(object);
                self.add(Separation { split, actors })?;
            }
        }
        Ok(())
    }

    /// Adds the variables that the actors name.
    fn add_all_named(&mut self, alloc: Global, actors: &[usize]) -> Result<(), AllocError> {
        for actor in actors {
            for variable in 0..self.plan.app.variables().len() {
                if self.plan.users.has(variable, *actor) {
                    self.add_variable(alloc, variable)?;
                }
            }
        }
        Ok(())
    }
}

/// Separations that are worth a try, in their order: by the variables that the actors test which the first
/// failures have to do with, by the lives of objects, and by all variables that these actors name.
pub fn worth_trying(
    alloc: Global,
    plan: &Plan,
    failures: &[Failure],
) -> Result<Vec<Separation>, AllocError> {
    let concern = concern_of(alloc, plan.app, failures)?;
    let mut candidates = Candidates {
        plan,
        list: Vec::new(alloc),
    };
    candidates.add_all_tested(alloc, &concern.actors)?;
    candidates.add_objects(alloc, &concern)?;
    candidates.add_all_named(alloc, &concern.actors)?;
    Ok(candidates.list)
}
