// Notes: what a certificate says of an actor at a point.
ghost use Rattle.std.specs.Prelude.{◌≡◌, ◌≢◌, [], ◌∷◌, IfOk, IfErr, OnOk};

use crate::claim::Claim;
use crate::fault::NoteFault;
use fr_program::{App, ObjId, Range, VarId};
use std::alloc::{AllocError, Global};
use std::marker::Model;

/// One alternative of a note: exact depths, a claim for each object and a range for each variable,
/// by their numbers.
#[derive(Drop)]
pub struct Alternative {
    pub(crate) crit: u8,
    pub(crate) susp: u8,
    pub(crate) claims: Vec<Claim>,
    pub(crate) ranges: Vec<Range>,
}

impl Model for Alternative {
    ghost use Rattle.fr_notes.specs.Note.{Alternative as AlternativeOf};

    ghost Value = { AlternativeOf };

    ghost use Rattle.fr_notes.specs.View.{alternative_of};

    ghost view = { alternative_of };
}

impl Alternative {
    ghost use Rattle.std.specs.Prelude.{map};
    ghost use Rattle.fr_notes.specs.Note.{claim_of, range_of};
    ghost use Rattle.fr_notes.specs.View.{ends_of};

    /// The actor's depth in the critical section, 0 where it isn't in it.
    pub fn critical(&self) -> u8
        ensures { result ≡ self.now.critical }
    {
        self.crit
    }

    /// How often the actor has suspended the scheduler.
    pub fn suspended(&self) -> u8
        ensures { result ≡ self.now.suspended }
    {
        self.susp
    }

    /// What is said of an object; of one past the last, that it isn't held.
    pub fn claim(&self, object: ObjId) -> Claim
        ensures { result ≡ claim_of self.now object.0 }
    {
        match self.claims.get(object.0) {
            Some(claim) => *claim,
            None => Claim::NotHeld,
        }
    }

    /// What is said of each object, by their numbers.
    pub fn claims(&self) -> &[Claim]
        ensures { result.now ≡ self.now.claims }
    {
        &self.claims
    }

    /// The numbers that a variable can have; of one past the last, 0.
    pub fn range(&self, variable: VarId) -> Range
        ensures { ends_of result ≡ range_of self.now variable.0 }
    {
        match self.ranges.get(variable.0) {
            Some(range) => *range,
            None => Range { lo: 0, hi: 0 },
        }
    }

    /// The numbers that each variable can have, by their numbers.
    pub fn ranges(&self) -> &[Range]
        ensures { map ends_of result.now ≡ self.now.ranges }
    {
        &self.ranges
    }
}

/// What a certificate says of an actor at a point: one of these alternatives holds. With none of
/// them it is the note `Never`, which says that the actor never stands there.
#[derive(Drop)]
pub struct Note {
    alternatives: Vec<Alternative>,
}

impl Model for Note {
    ghost use Rattle.fr_notes.specs.Note.{Note as NoteOf};

    ghost Value = { NoteOf };

    ghost view = { λ n. n.alternatives.items };
}

/// What a plain note says, where it says more than the default: no mutex held, depth 0, objects
/// live or dead, and variables anywhere in their declared ranges. Where a number is in a list twice,
/// what it says is its first entry; `Note::build` checks every entry. A number in `live` or `dead`
/// that is of no object of the application says nothing of the application's objects.
#[derive(Drop)]
pub struct NoteParts {
    pub held: Vec<(ObjId, u32)>,
    pub crit: u8,
    pub susp: u8,
    pub live: Vec<ObjId>,
    pub dead: Vec<ObjId>,
    pub range: Vec<(VarId, Range)>,
}

impl NoteParts {
    /// The parts of the note that says nothing but the defaults. Takes no memory.
    pub fn none(alloc: Global) -> NoteParts
        ensures held { result.held.items ≡ [] }
        ensures depths { (result.crit ≡ 0) × (result.susp ≡ 0) }
        ensures live { result.live.items ≡ [] }
        ensures dead { result.dead.items ≡ [] }
        ensures range { result.range.items ≡ [] }
    {
        NoteParts {
            held: Vec::new(alloc),
            crit: 0,
            susp: 0,
            live: Vec::new(alloc),
            dead: Vec::new(alloc),
            range: Vec::new(alloc),
        }
    }
}

impl Note {
    ghost use Rattle.fr_notes.specs.declared.fault.NoteFault.{NoteFault as NoteFaultOf};
    ghost use Rattle.fr_notes.specs.Fits.{NoteFits};
    ghost use Rattle.fr_notes.specs.Parts.{said, HasFault};

    /// The note that holds of no actor in no state. Takes no memory.
    pub fn never(alloc: Global) -> Note
        ensures { result ≡ [] }
    {
        Note {
            alternatives: Vec::new(alloc),
        }
    }

    /// The plain note that the parts say: Ok exactly where none of the three faults is present and no
    /// allocation was refused. `Count`: a count is not 1 to 255, is not 1 on a plain mutex, is of no
    /// mutex, or is of an object that the application doesn't have. `Lives`: an object is both live and
    /// dead, or held and dead. `Span`: a range isn't inside the variable's declared one, or is of a
    /// variable that the application doesn't have. Of several faults, which one is named is open;
    /// `Memory` is named only where none of the three is present.
    pub fn build(alloc: Global, app: &App, parts: NoteParts) -> Result<Note, NoteFault>
        ensures says { IfOk result (λ note. note ≡ said app.now parts ∷ []) }
        ensures fits { IfOk result (λ note. NoteFits app.now note) }
        ensures free { OnOk result ((fault : NoteFaultOf) → HasFault app.now parts fault → ⊥) }
        ensures stands { IfErr result (λ f. f ≢ NoteFault.Memory → HasFault app.now parts f) }
        ensures memory { IfErr result
            (λ f. f ≡ NoteFault.Memory → (fault : NoteFaultOf) → HasFault app.now parts fault → ⊥) }
    {
        Ok(Note::plain(alloc, Alternative::build(alloc, app, parts)?)?)
    }

    /// The note with this one alternative. Its error is that an allocation was refused.
    pub fn plain(alloc: Global, alternative: Alternative) -> Result<Note, AllocError>
        ensures { IfOk result (λ note. note ≡ alternative ∷ []) }
    {
        let mut alternatives = Vec::with_capacity(alloc, 1)?;
        alternatives.push(alternative)?;
        Ok(Note { alternatives })
    }

    /// The note with these alternatives. Nothing is checked: that there are at most four, and that they
    /// fit an application, is the caller's matter.
    pub fn of(alternatives: Vec<Alternative>) -> Note
        ensures { result ≡ alternatives.items }
    {
        Note { alternatives }
    }

    /// The alternatives, taken out of the note.
    pub(crate) fn into_alternatives(self) -> Vec<Alternative>
        ensures { result.items ≡ self }
    {
        self.alternatives
    }

    /// The alternatives, of which one holds.
    pub fn alternatives(&self) -> &[Alternative]
        ensures { result.now ≡ self.now }
    {
        &self.alternatives
    }
}
