// What single steps leave: of the mover's note, and of another actor's.
ghost use Rattle.std.specs.Prelude.{◌≡◌, Some, IfOk, IfSome};
ghost use Rattle.fr_notes.specs.Fits.{AlternativeFits};
ghost use Rattle.fr_notes.specs.Known.{IsPossible};
ghost use Rattle.fr_finder.specs.Spots.{IsPlaced};

use crate::place::{Placed, place_at};
use crate::trial::{Item, Trial};
use fr_finder::{left_to_mover, left_to_other, target};
use fr_notes::{Alternative, Change, Known, can_meet, change_by, keeps, spares};
use fr_rules::Way;
use std::alloc::{AllocError, Global};

impl<'a> Trial<'a> {
    /// Whether the note of the point holds of the mover after each step that makes this change.
    fn is_kept(&self, known: &Known, change: &Change, number: usize) -> bool
        requires { IsPossible known.now }
    {
        for facts in self.note(number) {
            if let Some(facts) = self.pool.get(*facts) {
                if keeps(known, change, facts) {
                    return true;
                }
            }
        }
        false
    }

    /// Whether the note of the point holds of the other actor after each step that makes this change.
    fn is_spared(&self, known: &Known, other: &Alternative, change: &Change, number: usize) -> bool
        requires possible { IsPossible known.now }
        requires other { known.now.other ≡ Some other.now }
    {
        for facts in self.note(number) {
            if let Some(facts) = self.pool.get(*facts) {
                if spares(known, other, change, facts) {
                    return true;
                }
            }
        }
        false
    }

    /// What a step of the actor by this row, which leads to the target, leaves of an alternative of its
    /// note, as far as its notes speak of the variables. None where there is no such step, where nothing is
    /// left that a note can say, and where the target's note holds after it.
    fn left(
        &self,
        alloc: Global,
        place: Placed,
        facts: &Alternative,
        way: Way,
        target: usize,
    ) -> Result<Option<Alternative>, AllocError>
        requires placed { IsPlaced self.now.pool.app.now place.point place.instr.now }
        requires fits { AlternativeFits self.now.pool.app.now facts.now }
        ensures { IfOk result (λ left. IfSome left (λ n. AlternativeFits self.now.pool.app.now n)) }
    {
        let app = self.pool.app();
        let known = Known::alone(facts);
        let Some(change) = change_by(app, &known, place.point, place.instr, way) else {
            return Ok(None);
        };
        if self.is_kept(&known, &change, target) {
            return Ok(None);
        }
        let said = self.kept.row(place.point.actor.0);
        left_to_mover(alloc, app, &known, &change, Some(said))
    }

    /// What a step of the mover by this row leaves of another actor's alternative at its point. None where
    /// there is no such step, and where that point's note holds after it.
    fn left_beside(
        &self,
        alloc: Global,
        place: Placed,
        mover: &Alternative,
        number: usize,
        said: &[bool],
        other: &Alternative,
        way: Way,
    ) -> Result<Option<Alternative>, AllocError>
        requires placed { IsPlaced self.now.pool.app.now place.point place.instr.now }
        requires mover { AlternativeFits self.now.pool.app.now mover.now }
        requires other { AlternativeFits self.now.pool.app.now other.now }
        ensures { IfOk result (λ left. IfSome left (λ n. AlternativeFits self.now.pool.app.now n)) }
    {
        if !can_meet(mover, other) {
            return Ok(None);
        }
        let app = self.pool.app();
        let known = Known::beside(mover, other);
        let Some(change) = change_by(app, &known, place.point, place.instr, way) else {
            return Ok(None);
        };
        if self.is_spared(&known, other, &change, number) {
            return Ok(None);
        }
        left_to_other(alloc, app, &known, other, &change, Some(said))
    }

    /// Where the step from the point by this row leads, with what it leaves of this alternative. None
    /// where nothing new is left.
    pub fn land(
        &mut self,
        alloc: Global,
        from: Item,
        way: Way,
    ) -> Result<Option<Item>, AllocError> {
        let app = self.pool.app();
        let Some(place) = place_at(app, from.number) else {
            return Ok(None);
        };
        let Some(facts) = self.pool.get(from.facts) else {
            return Ok(None);
        };
        let Some(target) = target(app, place.point, place.instr, way) else {
            return Ok(None);
        };
        let left = self.left(alloc, place, facts, way, target)?;
        match self.pool.kept(left)? {
            Some(facts) => Ok(Some(Item {
                number: target,
                facts,
            })),
            None => Ok(None),
        }
    }

    /// What the mover's step by this row leaves of an alternative of another actor's point. None where
    /// nothing new is left.
    fn left_by(
        &self,
        alloc: Global,
        mover: Item,
        actor: usize,
        other: Item,
        way: Way,
    ) -> Result<Option<Alternative>, AllocError>
        ensures { IfOk result (λ left. IfSome left (λ n. AlternativeFits self.now.pool.app.now n)) }
    {
        let Some(place) = place_at(self.pool.app(), mover.number) else {
            return Ok(None);
        };
        let (Some(known), Some(facts)) = (self.pool.get(mover.facts), self.pool.get(other.facts))
        else {
            return Ok(None);
        };
        let said = self.kept.row(actor);
        self.left_beside(alloc, place, known, other.number, said, facts, way)
    }

    /// The number of what the mover's step by this row leaves of an alternative of another actor's point.
    /// None where nothing new is left.
    pub fn spread(
        &mut self,
        alloc: Global,
        mover: Item,
        actor: usize,
        other: Item,
        way: Way,
    ) -> Result<Option<usize>, AllocError> {
        let left = self.left_by(alloc, mover, actor, other, way)?;
        self.pool.kept(left)
    }
}
