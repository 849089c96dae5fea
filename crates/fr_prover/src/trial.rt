// One try: what is known so far of each point, with certain separations.
ghost use Rattle.std.specs.Prelude.{IfOk, IfSome};
ghost use Rattle.fr_notes.specs.Fits.{AlternativeFits};

use crate::growth::{Growth, grown};
use crate::lists::{is_marked, list_at};
use crate::place::{place_at, ways};
use crate::plan::Plan;
use crate::pool::Pool;
use crate::separation::{Separation, add_cuts, are_alike};
use crate::table::TruthTable;
use fr_finder::{common_claims, empty_lists};
use fr_notes::{Alternative, Known, keeps};
use fr_program::{App, Range, VarId};
use fr_rules::Way;
use std::alloc::{AllocError, Global};
use std::collections::HashMap;

/// An alternative of a point's note, by the numbers of both.
#[derive(Clone, Copy)]
pub struct Item {
    pub number: usize,
    pub facts: usize,
}

/// One try at notes for all points of an application.
#[derive(Drop)]
pub struct Trial<'a> {
    pub plan: &'a Plan<'a>,
    /// What keeps alternatives apart.
    pub separations: &'a [Separation],
    /// By actor and variable: whether the actor's notes speak of the variable.
    pub kept: &'a TruthTable,
    /// By variable: whether the notes of several actors speak of it.
    felt: Vec<bool>,
    /// By variable: the numbers at which a range that grows may rest.
    pub thresholds: Vec<Vec<i128>>,
    pub pool: Pool<'a>,
    /// By point: the numbers of the alternatives of its note so far.
    pub notes: Vec<Vec<usize>>,
    /// How often an alternative of a point has grown, by a print of point and parts.
    pub growths: HashMap<u64, u32>,
    /// How many steps may still be looked at.
    pub left: u64,
}

/// By variable: these thresholds, and those that the separations ask for.
fn thresholds_for(
    alloc: Global,
    lists: &[Vec<i128>],
    separations: &[Separation],
) -> Result<Vec<Vec<i128>>, AllocError> {
    let mut thresholds = Vec::with_capacity(alloc, lists.len())?;
    for numbers in lists {
        thresholds.push(Vec::from_slice(alloc, numbers)?)?;
    }
    add_cuts(&mut thresholds, separations)?;
    Ok(thresholds)
}

/// By variable: whether the notes of several actors speak of it.
fn felt_in(alloc: Global, app: &App, kept: &TruthTable) -> Result<Vec<bool>, AllocError> {
    let mut felt = Vec::with_capacity(alloc, app.variables().len())?;
    for variable in 0..app.variables().len() {
        felt.push(kept.count_column(variable) > 1)?;
    }
    Ok(felt)
}

impl<'a> Trial<'a> {
    /// A try in which nothing is known of any point yet.
    pub fn new(
        alloc: Global,
        plan: &'a Plan<'a>,
        thresholds: &[Vec<i128>],
        separations: &'a [Separation],
        kept: &'a TruthTable,
        left: u64,
    ) -> Result<Trial<'a>, AllocError> {
        Ok(Trial {
            plan,
            separations,
            kept,
            felt: felt_in(alloc, plan.app, kept)?,
            thresholds: thresholds_for(alloc, thresholds, separations)?,
            notes: empty_lists(alloc, plan.app.points())?,
            pool: Pool::new(alloc, plan.app),
            growths: HashMap::new(alloc),
            left,
        })
    }

    /// The numbers of the alternatives of a point's note so far.
    pub fn note(&self, number: usize) -> &[usize] {
        list_at(&self.notes, number)
    }

    /// Whether the notes of several actors speak of the variable.
    pub fn is_felt(&self, variable: usize) -> bool {
        is_marked(&self.felt, variable)
    }

    /// The rows by which the point's instruction can have a step.
    pub fn ways_from(&self, number: usize) -> &'static [Way] {
        match place_at(self.plan.app, number) {
            Some(place) => ways(place.instr),
            None => &[],
        }
    }

    /// Takes one of the steps that may still be looked at. Whether there was one.
    pub fn spend(&mut self) -> bool {
        self.left = self.left.saturating_sub(1);
        self.left > 0
    }

    /// Whether the first alternative implies the second one, by their numbers.
    pub fn implies(&self, facts: usize, other: usize) -> bool {
        match (self.pool.get(facts), self.pool.get(other)) {
            (Some(facts), Some(other)) => {
                let known = Known::alone(facts);
                keeps(&known, &known.unchanged(), other)
            }
            _ => false,
        }
    }

    /// Whether the separations keep the two alternatives of the actor together, by their numbers.
    pub fn are_alike(&self, actor: usize, one: usize, other: usize) -> bool {
        match (self.pool.get(one), self.pool.get(other)) {
            (Some(one), Some(other)) => are_alike(self.separations, actor, one, other),
            _ => false,
        }
    }

    /// The ranges of an alternative, grown by those of another one.
    fn grown_ranges(
        &self,
        alloc: Global,
        one: &Alternative,
        other: &Alternative,
        growth: Growth,
    ) -> Result<Vec<Range>, AllocError> {
        let app = self.plan.app;
        let variables = app.variables().len();
        let mut ranges = Vec::with_capacity(alloc, variables)?;
        for variable in 0..variables {
            let (name, rests) = (VarId(variable), list_at(&self.thresholds, variable));
            let (range, more, declared) = (one.range(name), other.range(name), app.range(name));
            ranges.push(grown(range, more, declared, rests, growth))?;
        }
        Ok(ranges)
    }

    /// What two alternatives with the same depths and held mutexes have in common; None where there is
    /// none with these numbers.
    fn common(
        &self,
        alloc: Global,
        one: usize,
        other: usize,
        growth: Growth,
    ) -> Result<Option<Alternative>, AllocError>
        ensures { IfOk result (λ both. IfSome both (λ n. AlternativeFits self.now.pool.app.now n)) }
    {
        let (Some(one), Some(other)) = (self.pool.get(one), self.pool.get(other)) else {
            return Ok(None);
        };
        let claims = common_claims(alloc, one.claims(), other.claims())?;
        let ranges = self.grown_ranges(alloc, one, other, growth)?;
        let (app, crit, susp) = (self.pool.app(), one.critical(), one.suspended());
        Ok(Alternative::fitting(app, crit, susp, claims, ranges))
    }

    /// The number of what two alternatives with the same depths and held mutexes have in common.
    pub fn joined(
        &mut self,
        alloc: Global,
        one: usize,
        other: usize,
        growth: Growth,
    ) -> Result<Option<usize>, AllocError> {
        let both = self.common(alloc, one, other, growth)?;
        self.pool.kept(both)
    }

    /// How often this alternative of the point has grown, one more with this time.
    pub fn count_growth(&mut self, print: u64) -> Result<u32, AllocError> {
        let count = match self.growths.get(&print) {
            Some(count) => count.saturating_add(1),
            None => 1,
        };
        self.growths.insert(print, count)?;
        Ok(count)
    }
}
