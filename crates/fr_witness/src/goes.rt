// Steps that leave nothing of what a note says: of the point to which the mover goes, or of another actor's point.
ghost use Rattle.std.specs.Prelude.{◌∷◌, All, IfOk, IfSome, Some, []};
ghost use Rattle.fr_rules.specs.State.{IsWellFormed};
ghost use Rattle.fr_notes.specs.Fits.{AlternativeFits, NoteFits};
ghost use Rattle.fr_witness.specs.Hunt.{HuntFits, IsFound, AreFound, UndoAll};

use crate::hunt::Hunt;
use crate::taken::Taken;
use crate::variants::Variants;
use fr_calls::{State, Way};
use fr_notes::{Alternative, Note};
use std::alloc::{AllocError, Global};
use std::slice;

impl<'a> Hunt<'a> {
    /// A step by this row that undoes the alternative.
    fn one_step(
        &self,
        alloc: Global,
        plain: &State,
        way: Way,
        one: &Alternative,
    ) -> Result<Option<Taken>, AllocError>
        requires formed { IsWellFormed self.now.app.now plain.now }
        requires fit { HuntFits self.now }
        requires one { AlternativeFits self.now.app.now one.now }
        ensures { IfOk result (λ found. IfSome found (λ t. IsFound self.now (Some way) (one.now ∷ []) way t)) }
    {
        let undone = slice::from_ref(one);
        let variants = Variants::of(alloc, self.app, self.instr, self.said(), undone)?;
        match self.find(alloc, plain, &variants, Some(way), undone)? {
            Some((_, step)) => Ok(Some(step)),
            None => Ok(None),
        }
    }

    /// One step by this row for each of these alternatives, which it undoes; None where one of them has
    /// none.
    fn one_each(
        &self,
        alloc: Global,
        plain: &State,
        way: Way,
        undone: &[Alternative],
    ) -> Result<Option<Vec<Taken>>, AllocError>
        requires formed { IsWellFormed self.now.app.now plain.now }
        requires fit { HuntFits self.now }
        requires undone { All (λ n. AlternativeFits self.now.app.now n) undone.now }
        ensures { IfOk result (λ found. IfSome found (λ steps. AreFound self.now way undone.now steps.items)) }
    {
        let mut steps = Vec::new(alloc);
        for one in undone {
            match self.one_step(alloc, plain, way, one)? {
                Some(step) => steps.push(step)?,
                None => return Ok(None),
            }
        }
        Ok(Some(steps))
    }
}

impl<'a> Hunt<'a> {
    /// Steps by one row that undo every alternative of the note: one that undoes them all, where one is
    /// found, or one for each. None where none are found.
    pub(crate) fn steps(&self, alloc: Global, note: &Note) -> Result<Option<Vec<Taken>>, AllocError>
        requires fit { HuntFits self.now }
        requires note { NoteFits self.now.app.now note.now }
        ensures { IfOk result (λ found. IfSome found (λ steps. UndoAll self.now note.now steps.items)) }
    {
        let plain = self.plain(alloc)?;
        if !self.is_set(&plain) {
            return Ok(None);
        }
        let undone = note.alternatives();
        let variants = Variants::of(alloc, self.app, self.instr, self.said(), undone)?;
        if let Some((_, step)) = self.find(alloc, &plain, &variants, None, undone)? {
            return Ok(Some(vec![in alloc; step]?));
        }
        if undone.len() < 2 {
            return Ok(None);
        }
        if let Some(steps) = self.one_each(alloc, &plain, Way::Then, undone)? {
            return Ok(Some(steps));
        }
        if let Some(steps) = self.one_each(alloc, &plain, Way::Else, undone)? {
            return Ok(Some(steps));
        }
        Ok(None)
    }
}
