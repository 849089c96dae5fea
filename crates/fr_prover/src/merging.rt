// Merging what a step leaves into a point's note.
use crate::growth::{Growth, touch};
use crate::separation::part_print;
use crate::trial::Trial;
use fr_finder::can_be_one;
use fr_notes::{Alternative, Claim, MOST_ALTERNATIVES};
use fr_program::{ObjId, VarId};
use std::alloc::{AllocError, Global};

/// So often an alternative of a point grows as little as it has to.
const EXACT: u32 = 2;

/// So often one that takes the place of two grows as little as it has to.
const EXACT_PAIRS: u32 = 16;

/// After so many times ends go to the declared ones.
const MOST_GROWTHS: u32 = 40;

/// Two alternatives in the list of those that a point would have, and what is lost where they become one.
#[derive(Clone, Copy)]
struct Pair {
    cost: u32,
    one: usize,
    other: usize,
}

/// How many of "is live" and "is dead" one claim says and the other doesn't.
fn lives_lost(claim: Claim, other: Claim) -> u32 {
    let (live, gone) = (
        matches!(claim, Claim::Alive | Claim::HeldTimes(_)),
        matches!(claim, Claim::Gone),
    );
    let (other_live, other_gone) = (
        matches!(other, Claim::Alive | Claim::HeldTimes(_)),
        matches!(other, Claim::Gone),
    );
    u32::from(live != other_live) + u32::from(gone != other_gone)
}

/// How many lives are lost where the claims become one.
fn all_lives_lost(one: &Alternative, other: &Alternative) -> u32 {
    let mut lost: u32 = 0;
    for (object, claim) in one.claims().iter().enumerate() {
        lost = lost.saturating_add(lives_lost(*claim, other.claim(ObjId(object))));
    }
    lost
}

/// The cheaper pair, the first one where both cost the same.
fn cheaper(best: Option<Pair>, pair: Pair) -> Pair {
    match best {
        Some(best) if best.cost <= pair.cost => best,
        _ => pair,
    }
}

impl<'a> Trial<'a> {
    /// Whether a separation cuts the variable's numbers for this actor.
    fn is_cut(&self, actor: usize, variable: usize) -> bool {
        for separation in self.separations {
            if separation.cuts_variable(actor, variable) {
                return true;
            }
        }
        false
    }

    /// What is lost of a variable where the two alternatives become one.
    fn range_lost(
        &self,
        actor: usize,
        variable: usize,
        one: &Alternative,
        other: &Alternative,
    ) -> u32 {
        let (range, more) = (one.range(VarId(variable)), other.range(VarId(variable)));
        if range == more {
            return 0;
        }
        match (self.is_cut(actor, variable), touch(range, more)) {
            (true, true) => 1,
            (true, false) => 6,
            (false, true) => 2,
            (false, false) => 4,
        }
    }

    /// What is lost of all variables.
    fn ranges_lost(&self, actor: usize, one: &Alternative, other: &Alternative) -> u32 {
        let mut lost: u32 = 0;
        for variable in 0..self.plan.app.variables().len() {
            lost = lost.saturating_add(self.range_lost(actor, variable, one, other));
        }
        lost
    }

    /// What is lost where the two alternatives become one; None where they can't.
    fn cost(&self, actor: usize, one: usize, other: usize) -> Option<u32> {
        let (one, other) = (self.pool.get(one)?, self.pool.get(other)?);
        if !can_be_one(one, other) {
            return None;
        }
        let lives = all_lives_lost(one, other).saturating_mul(8);
        Some(lives.saturating_add(self.ranges_lost(actor, one, other)))
    }

    /// The cheaper of the pair and the best pair of this alternative with one before it in the list.
    fn cheaper_with(
        &self,
        actor: usize,
        every: &[usize],
        place: usize,
        facts: usize,
        mut best: Option<Pair>,
    ) -> Option<Pair> {
        for (before, other) in every.iter().take(place).enumerate() {
            if let Some(cost) = self.cost(actor, facts, *other) {
                let pair = Pair {
                    cost,
                    one: place,
                    other: before,
                };
                best = Some(cheaper(best, pair));
            }
        }
        best
    }

    /// The pair of the list that loses least where it becomes one, the first of several.
    fn cheapest(&self, actor: usize, every: &[usize]) -> Option<Pair> {
        let mut best = None;
        for (place, facts) in every.iter().enumerate() {
            best = self.cheaper_with(actor, every, place, *facts, best);
        }
        best
    }

    /// The alternatives of the list that don't imply the new one, with the new one in this place, or last
    /// where the list has no such place.
    fn with(
        &self,
        alloc: Global,
        list: &[usize],
        new: usize,
        place: usize,
    ) -> Result<Vec<usize>, AllocError> {
        let mut rest = Vec::with_capacity(alloc, MOST_ALTERNATIVES)?;
        for (at, facts) in list.iter().enumerate() {
            let facts = if at == place { new } else { *facts };
            if at == place || !self.implies(facts, new) {
                rest.push(facts)?;
            }
        }
        if place >= list.len() {
            rest.push(new)?;
        }
        Ok(rest)
    }

    /// Gives the point these alternatives.
    pub fn set_note(&mut self, number: usize, list: Vec<usize>) {
        if let Some(note) = self.notes.get_mut(number) {
            *note = list;
        }
    }

    /// Puts what two alternatives of the list have in common in the place of the second one. Whether the note changed.
    fn put_joined(
        &mut self,
        alloc: Global,
        number: usize,
        list: &[usize],
        pair: Pair,
        growth: Growth,
    ) -> Result<bool, AllocError> {
        let (Some(one), Some(other)) = (list.get(pair.one), list.get(pair.other)) else {
            return Ok(false);
        };
        let Some(both) = self.joined(alloc, *other, *one, growth)? else {
            return Ok(false);
        };
        let list = self.with(alloc, list, both, pair.other)?;
        self.set_note(number, list);
        Ok(true)
    }

    /// Makes two of five alternatives one: those that lose least. Whether two can be one.
    fn squeeze(
        &mut self,
        alloc: Global,
        actor: usize,
        number: usize,
        every: &[usize],
    ) -> Result<bool, AllocError> {
        let Some(pair) = self.cheapest(actor, every) else {
            return Ok(false);
        };
        let growth = match self.count_growth(number as u64)? {
            count if count > MOST_GROWTHS => Growth::Whole,
            count if count > EXACT_PAIRS => Growth::Threshold,
            _ => Growth::Exact,
        };
        self.put_joined(alloc, number, every, pair, growth)
    }

    /// Adds an alternative to the point's note, where it is kept apart from those that are there. Whether the note changed.
    fn add(
        &mut self,
        alloc: Global,
        actor: usize,
        number: usize,
        facts: usize,
    ) -> Result<bool, AllocError> {
        let every = self.with(alloc, self.note(number), facts, MOST_ALTERNATIVES)?;
        if every.len() > MOST_ALTERNATIVES {
            return self.squeeze(alloc, actor, number, &every);
        }
        self.set_note(number, every);
        Ok(true)
    }

    /// How the alternative of a point grows this time.
    fn growth_of(
        &mut self,
        actor: usize,
        number: usize,
        facts: usize,
        widen: bool,
    ) -> Result<Growth, AllocError> {
        let Some(facts) = self.pool.get(facts) else {
            return Ok(Growth::Whole);
        };
        let print = part_print(self.separations, actor, number, facts);
        match self.count_growth(print)? {
            count if count > MOST_GROWTHS => Ok(Growth::Whole),
            count if count > EXACT && widen => Ok(Growth::Threshold),
            _ => Ok(Growth::Exact),
        }
    }

    /// Whether the alternative is in the point's note, or implies one that is.
    fn is_noted(&self, number: usize, facts: usize) -> bool {
        for other in self.note(number) {
            if *other == facts || self.implies(facts, *other) {
                return true;
            }
        }
        false
    }

    /// The place in the point's note of the alternative that the separations keep together with this one.
    fn place_alike(&self, actor: usize, number: usize, facts: usize) -> Option<usize> {
        for (place, other) in self.note(number).iter().enumerate() {
            if self.are_alike(actor, *other, facts) {
                return Some(place);
            }
        }
        None
    }

    /// Merges an alternative into the note of the actor's point: nothing changes where it implies one
    /// that is there; it is joined to the one that the separations keep it together with; else it is added.
    /// Where `widen` says so, ends that move again and again go to thresholds. Whether the note changed.
    pub fn merge(
        &mut self,
        alloc: Global,
        actor: usize,
        number: usize,
        facts: usize,
        widen: bool,
    ) -> Result<bool, AllocError> {
        if self.is_noted(number, facts) {
            return Ok(false);
        }
        let Some(place) = self.place_alike(actor, number, facts) else {
            return self.add(alloc, actor, number, facts);
        };
        let growth = self.growth_of(actor, number, facts, widen)?;
        let mut every = Vec::from_slice(alloc, self.note(number))?;
        let one = every.len();
        every.push(facts)?;
        let pair = Pair {
            cost: 0,
            one,
            other: place,
        };
        self.put_joined(alloc, number, &every, pair, growth)
    }
}
