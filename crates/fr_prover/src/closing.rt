// Closing a point's note under the steps of other actors.
use crate::effect::{Effect, Effects};
use crate::trial::{Item, Trial};
use fr_interfere::ranges_said;
use fr_notes::Claim;
use fr_program::{ObjId, Range, VarId};
use std::alloc::{AllocError, Global};

/// So often a note is closed at most: it has grown to the declared ends long before.
const MOST_TURNS: usize = 10_000;

/// The other actor's steps that write the variable.
fn effects_on(others: &[Effects], other: usize, variable: usize) -> &[Effect] {
    match others.get(other) {
        Some(effects) => match effects.writes.get(variable) {
            Some(written) => &written.effects,
            None => &[],
        },
        None => &[],
    }
}

impl<'a> Trial<'a> {
    /// Merges what a step of another actor leaves of an alternative of the point. Whether the note changed.
    fn meet(
        &mut self,
        alloc: Global,
        actor: usize,
        item: Item,
        effect: Effect,
    ) -> Result<bool, AllocError> {
        let mut changed = false;
        for way in self.ways_from(effect.mover.number) {
            if !self.spend() {
                return Ok(changed);
            }
            if let Some(left) = self.spread(alloc, effect.mover, actor, item, *way)? {
                changed |= self.merge(alloc, actor, item.number, left, true)?;
            }
        }
        Ok(changed)
    }

    /// The same for each of these steps, but those that write only numbers in the range.
    fn meet_each(
        &mut self,
        alloc: Global,
        actor: usize,
        item: Item,
        effects: &[Effect],
        range: Option<Range>,
    ) -> Result<bool, AllocError> {
        let mut changed = false;
        for effect in effects {
            match (effect.range, range) {
                (Some(written), Some(range)) if written.within(range) => {}
                (_, _) => changed |= self.meet(alloc, actor, item, *effect)?,
            }
        }
        Ok(changed)
    }

    /// The numbers that the alternative says the variable has.
    fn range_in(&self, facts: usize, variable: usize) -> Option<Range> {
        Some(self.pool.get(facts)?.range(VarId(variable)))
    }

    /// Whose steps, by actor and variable, may write what the alternative excludes.
    fn writers_felt(
        &self,
        alloc: Global,
        actor: usize,
        facts: usize,
        others: &[Effects],
    ) -> Result<Vec<(usize, usize)>, AllocError> {
        let mut felt = Vec::new(alloc);
        let Some(facts) = self.pool.get(facts) else {
            return Ok(felt);
        };
        let ranges = ranges_said(alloc, self.pool.app(), facts)?;
        for (other, effects) in others.iter().enumerate() {
            if other != actor {
                effects.add_felt(other, &ranges, facts, &mut felt)?;
            }
        }
        Ok(felt)
    }

    /// Merges what the writes of all other actors leave of an alternative of the point. Whether the notes changed.
    fn meet_writers(
        &mut self,
        alloc: Global,
        actor: usize,
        item: Item,
        others: &[Effects],
    ) -> Result<bool, AllocError> {
        let mut changed = false;
        let felt = self.writers_felt(alloc, actor, item.facts, others)?;
        for (other, variable) in felt.iter() {
            let effects = effects_on(others, *other, *variable);
            let range = self.range_in(item.facts, *variable);
            changed |= self.meet_each(alloc, actor, item, effects, range)?;
        }
        Ok(changed)
    }

    /// Whether the alternative says that the object is live or dead.
    fn speaks_of(&self, facts: usize, object: usize) -> bool {
        match self.pool.get(facts) {
            Some(facts) => !matches!(facts.claim(ObjId(object)), Claim::NotHeld),
            None => false,
        }
    }

    /// The same for the creates and deletes of one other actor.
    fn meet_maker(
        &mut self,
        alloc: Global,
        actor: usize,
        item: Item,
        effects: &Effects,
    ) -> Result<bool, AllocError> {
        let mut changed = false;
        for (object, makers) in effects.lives.iter().enumerate() {
            if !makers.is_empty() && self.speaks_of(item.facts, object) {
                changed |= self.meet_each(alloc, actor, item, makers, None)?;
            }
        }
        Ok(changed)
    }

    /// Merges what the creates and deletes of all other actors leave of an alternative of the point. Whether the notes changed.
    fn meet_makers(
        &mut self,
        alloc: Global,
        actor: usize,
        item: Item,
        others: &[Effects],
    ) -> Result<bool, AllocError> {
        let mut changed = false;
        for (other, effects) in others.iter().enumerate() {
            if other != actor {
                changed |= self.meet_maker(alloc, actor, item, effects)?;
            }
        }
        Ok(changed)
    }

    /// Merges what the steps of all other actors leave of an alternative of the point. Whether the notes changed.
    fn meet_all(
        &mut self,
        alloc: Global,
        actor: usize,
        item: Item,
        others: &[Effects],
    ) -> Result<bool, AllocError> {
        let is_written = self.meet_writers(alloc, actor, item, others)?;
        Ok(self.meet_makers(alloc, actor, item, others)? || is_written)
    }

    /// Merges once what the steps of all other actors leave of the note of the actor's point. Whether the notes changed.
    fn close_once(
        &mut self,
        alloc: Global,
        actor: usize,
        number: usize,
        others: &[Effects],
    ) -> Result<bool, AllocError> {
        let note = Vec::from_slice(alloc, self.note(number))?;
        let mut changed = false;
        for facts in note.iter() {
            let item = Item {
                number,
                facts: *facts,
            };
            changed |= self.meet_all(alloc, actor, item, others)?;
        }
        Ok(changed)
    }

    /// Merges what the steps of all other actors leave of the note of the actor's point, until nothing
    /// new is left or no more steps may be looked at. Whether the note changed.
    pub fn close(
        &mut self,
        alloc: Global,
        actor: usize,
        number: usize,
        others: &[Effects],
    ) -> Result<bool, AllocError> {
        let mut changed = false;
        for _ in 0..MOST_TURNS {
            if self.left == 0 || !self.close_once(alloc, actor, number, others)? {
                break;
            }
            changed = true;
        }
        Ok(changed)
    }
}
