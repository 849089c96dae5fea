// What is known before a step: the mover's alternative, and perhaps another actor's.
ghost use Rattle.std.specs.Prelude.{◌≡◌, ◌≤◌, ◌≤ℤ◌, IfSome};
ghost use Rattle.std.specs.Int.{int_min, int_max};
ghost use Rattle.fr_notes.specs.Known.{alone, beside, IsPossible, joint_range, joint_claim, joined, meet_of, is_other_critical, claims_some};
ghost use Rattle.fr_notes.specs.Holding.{holding};
ghost use Rattle.fr_notes.specs.Note.{claim_of, range_of};
ghost use Rattle.fr_notes.specs.Spot.{unchanged, claiming, resulting};
ghost use Rattle.fr_notes.specs.View.{ends_of};

use crate::change::Change;
use crate::claim::Claim;
use crate::holding::Holding;
use crate::note::Alternative;
use fr_program::{ObjId, Range, VarId};
use std::marker::Model;

/// What is known before a step of an actor, the mover: one alternative of its note, and, where
/// another actor is looked at, one of that actor's. Takes no memory.
#[derive(Drop)]
pub struct Known<'a> {
    mover: &'a Alternative,
    other: Option<&'a Alternative>,
}

impl<'a> Model for Known<'a> {
    ghost use Rattle.fr_notes.specs.Known.{Known as KnownOf};

    ghost Value = { KnownOf };

    ghost use Rattle.fr_notes.specs.KnownView.{known_of};

    ghost view = { known_of };
}

/// What is known of an object for an actor, by its own claim and another actor's.
pub fn joined(claim: Claim, other: Claim) -> Claim
    ensures { result ≡ joined claim other }
{
    match (claim, other) {
        (Claim::HeldTimes(count), _) => Claim::HeldTimes(count),
        (Claim::Gone, _) | (_, Claim::Gone) => Claim::Gone,
        (Claim::Alive, _) | (_, Claim::Alive | Claim::HeldTimes(_)) => Claim::Alive,
        (Claim::NotHeld, Claim::NotHeld) => Claim::NotHeld,
    }
}

/// The numbers of both ranges, of which there is at least one.
fn met(one: Range, other: Range) -> Range
    requires { int_max one.lo other.lo ≤ℤ int_min one.hi other.hi }
    ensures { ends_of result ≡ meet_of (ends_of one) (ends_of other) }
{
    Range {
        lo: one.lo.max(other.lo),
        hi: one.hi.min(other.hi),
    }
}

impl<'a> Known<'a> {
    /// One actor alone is looked at.
    pub fn alone(mover: &'a Alternative) -> Known<'a>
        ensures { result ≡ alone mover.now }
    {
        Known { mover, other: None }
    }

    /// Another actor is looked at too.
    pub fn beside(mover: &'a Alternative, other: &'a Alternative) -> Known<'a>
        ensures { result ≡ beside mover.now other.now }
    {
        Known {
            mover,
            other: Some(other),
        }
    }

    /// The mover's depth in the critical section.
    pub fn crit(&self) -> u32
        ensures depth { result ≡ self.now.mover.critical }
        ensures small { result ≤ 255 }
    {
        let mover = self.mover;
        u32::from(mover.crit)
    }

    /// The mover's suspension depth.
    pub fn susp(&self) -> u32
        ensures depth { result ≡ self.now.mover.suspended }
        ensures small { result ≤ 255 }
    {
        let mover = self.mover;
        u32::from(mover.susp)
    }

    /// Whether another actor is known to be in the critical section.
    pub fn is_other_critical(&self) -> bool
        ensures { result ≡ is_other_critical self.now }
    {
        match self.other {
            None => false,
            Some(other) => other.crit > 0,
        }
    }

    /// Whether the mover holds something.
    pub fn holds_some(&self) -> bool
        ensures { result ≡ claims_some self.now.mover.claims }
    {
        let mover = self.mover;
        mover
            .claims
            .iter()
            .any(|claim| matches!(claim, Claim::HeldTimes(_)))
    }

    /// What is known of an object, for the mover.
    pub fn claim(&self, object: usize) -> Claim
        ensures { result ≡ joint_claim self.now object }
    {
        let claim = self.mover.claim(ObjId(object));
        match self.other {
            None => claim,
            Some(other) => joined(claim, other.claim(ObjId(object))),
        }
    }

    /// What is known of an object, for the other actor.
    pub fn other_claim(&self, object: usize) -> Claim
        ensures { IfSome self.now.other
            (λ n. result ≡ joined (claim_of n object) (claim_of self.now.mover object)) }
    {
        let claim = self.mover.claim(ObjId(object));
        match self.other {
            None => claim,
            Some(other) => joined(other.claim(ObjId(object)), claim),
        }
    }

    /// The numbers that a variable can have.
    pub fn range(&self, variable: usize) -> Range
        requires { IsPossible self.now }
        ensures { ends_of result ≡ joint_range self.now variable }
    {
        let range = self.mover.range(VarId(variable));
        match self.other {
            None => range,
            Some(other) => met(range, other.range(VarId(variable))),
        }
    }

    /// What is known of an object, for both actors.
    pub fn holding(&self, object: usize) -> Holding
        ensures { result ≡ holding self.now object }
    {
        let claim = self.mover.claim(ObjId(object));
        match self.other {
            None => Holding::of(claim, Claim::NotHeld),
            Some(other) => Holding::of(claim, other.claim(ObjId(object))),
        }
    }

    /// The change that leaves all as it is.
    pub fn unchanged(&self) -> Change
        ensures same { result ≡ unchanged self.now }
        ensures critical { result.crit ≤ 255 }
        ensures suspended { result.susp ≤ 255 }
    {
        Change {
            crit: self.crit(),
            susp: self.susp(),
            claim: None,
            first: None,
            second: None,
        }
    }

    /// The change that says this of one object, and leaves the rest as it is.
    pub fn claiming(&self, object: ObjId, claim: Claim) -> Change
        ensures { result ≡ claiming self.now object claim }
    {
        Change {
            claim: Some((object, claim)),
            ..self.unchanged()
        }
    }

    /// The same, where the variable, if there is one, takes a number of this range.
    pub fn resulting(
        &self,
        object: ObjId,
        claim: Claim,
        into: Option<VarId>,
        range: Range,
    ) -> Change
        ensures { result ≡ resulting self.now object claim into range }
    {
        Change {
            first: into.map(|variable| (variable, range)),
            ..self.claiming(object, claim)
        }
    }
}

ghost use Rattle.fr_notes.specs.KnownUses.{UsesOfKnown};

/// A point's own steps and the steps of others are judged by what a step leaves. The function does
/// nothing: it is there for its contract.
pub fn known_steps_decide()
    ensures { UsesOfKnown }
{}
