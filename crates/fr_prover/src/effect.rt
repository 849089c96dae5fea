// What an actor's steps can change of other actors' notes, by its notes so far.
ghost use Rattle.fr_notes.specs.Fits.{AlternativeFits};
ghost use Rattle.fr_finder.specs.Spots.{IsPlaced};

use crate::place::{Placed, changed_life, place_at};
use crate::trial::{Item, Trial};
use fr_finder::empty_lists;
use fr_interfere::{claims_said, cover_ranges, excludes_claim, excludes_range, ranges_said};
use fr_notes::{Alternative, Claim, Known, change_by};
use fr_program::{App, Instr, ObjId, Operand, Operator, Range, VarId};
use fr_rules::Way;
use std::alloc::{AllocError, Global};
use std::collections::HashMap;
use std::hash::{FoldHasher, Hash, Hasher};

/// A step from a point, where an alternative of its note holds.
#[derive(Clone, Copy)]
pub struct Effect {
    pub mover: Item,
    /// The numbers that it writes, where it writes a variable.
    pub range: Option<Range>,
}

/// The steps of one actor that others' notes can feel.
#[derive(Drop)]
pub struct Effects {
    /// By variable: the steps that write it. None where no other actor's notes speak of it.
    pub writes: Vec<Written>,
    /// By object: the steps that create or delete it.
    pub lives: Vec<Vec<Effect>>,
    /// What is so wherever a variable is written of which another actor's notes speak.
    common: Option<Common>,
}

/// The steps that write a variable.
#[derive(Drop)]
pub struct Written {
    /// The least range that has all that is written.
    reach: Option<Range>,
    /// What is so wherever one of them is made.
    common: Option<Common>,
    pub effects: Vec<Effect>,
    /// The alternatives and `set`s of which there is an effect, by a print.
    sets: HashMap<u64, usize>,
}

/// What several alternatives have in common: they exclude no less than this does.
#[derive(Drop)]
struct Common {
    /// Whether the actor is in the critical section by all of them.
    critical: bool,
    /// What they say of objects, but for those of which they say nothing.
    claims: Vec<(ObjId, Claim)>,
    /// The ranges of variables, but for those that may have each declared number.
    ranges: Vec<(VarId, Range)>,
}

/// Leaves of the claims what the alternative says, too.
fn weaken(claims: &mut Vec<(ObjId, Claim)>, facts: &Alternative) {
    for (object, claim) in claims.iter_mut() {
        if *claim != facts.claim(*object) {
            *claim = Claim::NotHeld;
        }
    }
}

impl Common {
    /// What one alternative says.
    fn of(alloc: Global, app: &App, facts: &Alternative) -> Result<Common, AllocError> {
        Ok(Common {
            critical: facts.critical() > 0,
            claims: claims_said(alloc, facts)?,
            ranges: ranges_said(alloc, app, facts)?,
        })
    }

    /// Takes one more alternative.
    fn take(&mut self, facts: &Alternative) {
        self.critical = self.critical && facts.critical() > 0;
        weaken(&mut self.claims, facts);
        cover_ranges(&mut self.ranges, facts);
    }

    /// Whether an alternative of another actor can hold together with none of them.
    fn excludes(&self, other: &Alternative) -> bool {
        self.critical && other.critical() > 0
            || excludes_claim(&self.claims, other)
            || excludes_range(&self.ranges, other)
    }
}

/// Takes one more alternative into what several have in common, if there are some.
fn take_into(
    alloc: Global,
    app: &App,
    common: &mut Option<Common>,
    facts: &Alternative,
) -> Result<(), AllocError> {
    match common {
        Some(common) => common.take(facts),
        None => *common = Some(Common::of(alloc, app, facts)?),
    }
    Ok(())
}

/// The least range that has both, if there is another one.
fn grown_reach(reach: Option<Range>, range: Range) -> Option<Range> {
    match reach {
        Some(reach) => Some(reach.hull(range)),
        None => Some(range),
    }
}

/// Feeds an operand to a hash.
fn feed_operand(operand: Operand, hasher: &mut FoldHasher) {
    match operand {
        Operand::Number(number) => number.hash(hasher),
        Operand::Variable(variable) => {
            usize::MAX.hash(hasher);
            variable.0.hash(hasher);
        }
    }
}

/// A number that an alternative and what a `set` computes have in common with equal ones; None for another instruction.
fn print_of_set(facts: usize, instr: &Instr) -> Option<u64> {
    let Instr::Set {
        left,
        operator,
        right,
        ..
    } = instr
    else {
        return None;
    };
    let mut hasher = FoldHasher::default();
    facts.hash(&mut hasher);
    let operation: u32 = match operator {
        Operator::Plus => 0,
        Operator::Minus => 1,
        Operator::Times => 2,
    };
    operation.hash(&mut hasher);
    feed_operand(*left, &mut hasher);
    feed_operand(*right, &mut hasher);
    Some(hasher.finish())
}

impl Written {
    /// Whether one of the steps may be made where the alternative of another actor holds, and write what
    /// that excludes of the variable.
    fn is_felt(&self, variable: VarId, other: &Alternative) -> bool {
        match (&self.common, self.reach) {
            (Some(common), Some(reach)) => {
                !reach.within(other.range(variable)) && !common.excludes(other)
            }
            (_, _) => false,
        }
    }

    /// Whether there is an effect of such a `set` by the same alternative, which leaves the same. Now there is.
    fn has_set(&mut self, mover: Item, instr: &Instr) -> Result<bool, AllocError> {
        let Some(print) = print_of_set(mover.facts, instr) else {
            return Ok(false);
        };
        if self.sets.contains_key(&print) {
            return Ok(true);
        }
        self.sets.insert(print, mover.number)?;
        Ok(false)
    }

    /// Adds a step by this instruction that writes these numbers, unless there is one that leaves the same.
    fn add(
        &mut self,
        alloc: Global,
        app: &App,
        mover: Item,
        instr: &Instr,
        facts: &Alternative,
        range: Range,
    ) -> Result<(), AllocError> {
        if self.has_set(mover, instr)? {
            return Ok(());
        }
        self.reach = grown_reach(self.reach, range);
        take_into(alloc, app, &mut self.common, facts)?;
        let range = Some(range);
        Ok(self.effects.push(Effect { mover, range })?)
    }
}

/// So many empty lists of writes.
fn no_writes(alloc: Global, count: usize) -> Result<Vec<Written>, AllocError> {
    let mut writes = Vec::with_capacity(alloc, count)?;
    for _ in 0..count {
        writes.push(Written {
            reach: None,
            common: None,
            effects: Vec::new(alloc),
            sets: HashMap::new(alloc),
        })?;
    }
    Ok(writes)
}

/// The variable to which the step by the first row gives numbers, with these numbers.
pub fn given_by(app: &App, place: Placed, facts: &Alternative) -> Option<(VarId, Range)>
    requires placed { IsPlaced app.now place.point place.instr.now }
    requires fits { AlternativeFits app.now facts.now }
{
    let known = Known::alone(facts);
    change_by(app, &known, place.point, place.instr, Way::Then)?.first
}

/// The variable that a step by the first row writes, with what it can get of the declared range.
fn written_by(app: &App, place: Placed, facts: &Alternative) -> Option<(VarId, Range)>
    requires placed { IsPlaced app.now place.point place.instr.now }
    requires fits { AlternativeFits app.now facts.now }
{
    if matches!(place.instr, Instr::If { .. }) {
        return None;
    }
    let (variable, range) = given_by(app, place, facts)?;
    if variable.0 >= app.variables().len() {
        return None;
    }
    Some((variable, range.meet(app.range(variable))?))
}

impl Effects {
    /// No step, of an application with so many variables and objects.
    pub fn none(alloc: Global, app: &App) -> Result<Effects, AllocError> {
        Ok(Effects {
            writes: no_writes(alloc, app.variables().len())?,
            lives: empty_lists(alloc, app.objects().len())?,
            common: None,
        })
    }

    /// Adds a step that creates or deletes the object.
    fn add_life(&mut self, object: usize, effect: Effect) -> Result<(), AllocError> {
        if let Some(effects) = self.lives.get_mut(object) {
            effects.push(effect)?;
        }
        Ok(())
    }

    /// Adds what the step from this place writes, where the alternative holds.
    fn add_write(
        &mut self,
        alloc: Global,
        trial: &Trial,
        place: Placed,
        mover: Item,
        facts: &Alternative,
    ) -> Result<(), AllocError>
        requires placed { IsPlaced trial.now.pool.app.now place.point place.instr.now }
        requires fits { AlternativeFits trial.now.pool.app.now facts.now }
    {
        let app = trial.pool.app();
        let Some((variable, range)) = written_by(app, place, facts) else {
            return Ok(());
        };
        match self.writes.get_mut(variable.0) {
            Some(written) if trial.is_felt(variable.0) => {
                take_into(alloc, app, &mut self.common, facts)?;
                written.add(alloc, app, mover, place.instr, facts, range)
            }
            _ => Ok(()),
        }
    }

    /// Adds what the step from the point does, where this alternative holds.
    fn add(&mut self, alloc: Global, trial: &Trial, mover: Item) -> Result<(), AllocError> {
        let Some(place) = place_at(trial.pool.app(), mover.number) else {
            return Ok(());
        };
        let Some(facts) = trial.pool.get(mover.facts) else {
            return Ok(());
        };
        match changed_life(place.instr) {
            Some(object) => self.add_life(object, Effect { mover, range: None }),
            None => self.add_write(alloc, trial, place, mover, facts),
        }
    }

    /// What the steps of an actor do, by its notes so far.
    pub fn of(alloc: Global, trial: &Trial, actor: usize) -> Result<Effects, AllocError> {
        let mut effects = Effects::none(alloc, trial.plan.app)?;
        let span = trial.plan.span(actor);
        for number in span.first..span.end {
            for facts in trial.note(number) {
                let facts = *facts;
                effects.add(alloc, trial, Item { number, facts })?;
            }
        }
        Ok(effects)
    }

    /// Whether none of the writes can be made where the alternative of another actor holds.
    fn is_excluded(&self, other: &Alternative) -> bool {
        match &self.common {
            Some(common) => common.excludes(other),
            None => true,
        }
    }

    /// Adds the variables, of those in these ranges, of which these steps of an actor may write what another one's alternative excludes.
    pub fn add_felt(
        &self,
        actor: usize,
        ranges: &[(VarId, Range)],
        other: &Alternative,
        felt: &mut Vec<(usize, usize)>,
    ) -> Result<(), AllocError> {
        if self.is_excluded(other) {
            return Ok(());
        }
        for (variable, _) in ranges {
            if let Some(written) = self.writes.get(variable.0) {
                if written.is_felt(*variable, other) {
                    felt.push((actor, variable.0))?;
                }
            }
        }
        Ok(())
    }

    /// A number that tells apart what two sets of steps do: by their points and alternatives.
    pub fn print(&self) -> u64 {
        let mut hasher = FoldHasher::default();
        for written in &self.writes {
            feed(&written.effects, &mut hasher);
        }
        for effects in &self.lives {
            feed(effects, &mut hasher);
        }
        hasher.finish()
    }
}

/// Feeds the steps to a hash.
fn feed(effects: &[Effect], hasher: &mut FoldHasher) {
    for effect in effects {
        effect.mover.number.hash(hasher);
        effect.mover.facts.hash(hasher);
    }
}
