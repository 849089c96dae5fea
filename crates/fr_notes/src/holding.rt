// What is known of one object, for both actors that are looked at.
ghost use Rattle.std.specs.Prelude.{◌≡◌};
ghost use Rattle.fr_notes.specs.Holding.{holding_of, mover_claim, can_be_dead, living};

use crate::claim::Claim;

/// What is known of an object before a step: the claims of the actor that moves and of the other
/// actor, where one is looked at, put together.
#[derive(Clone, Copy, PartialEq, Eq)]
pub enum Holding {
    /// Neither of them holds it. It may be live or dead.
    Unheld,
    /// It is live, and neither of them holds it.
    Living,
    /// It is dead.
    Lifeless,
    /// The mover holds it so often.
    Own(u32),
    /// The other actor holds it so often.
    Others(u32),
}

impl Holding {
    /// The mover's claim and another actor's, put together.
    pub fn of(claim: Claim, other: Claim) -> Holding
        ensures { result ≡ holding_of claim other }
    {
        if let Claim::HeldTimes(count) = claim {
            return Holding::Own(count);
        }
        match (claim, other) {
            (_, Claim::HeldTimes(count)) => Holding::Others(count),
            (Claim::Gone, _) | (_, Claim::Gone) => Holding::Lifeless,
            (Claim::NotHeld, Claim::NotHeld) => Holding::Unheld,
            (_, _) => Holding::Living,
        }
    }

    /// What the mover can claim of the object.
    pub fn claim(self) -> Claim
        ensures { result ≡ mover_claim self }
    {
        match self {
            Holding::Unheld => Claim::NotHeld,
            Holding::Living | Holding::Others(_) => Claim::Alive,
            Holding::Lifeless => Claim::Gone,
            Holding::Own(count) => Claim::HeldTimes(count),
        }
    }

    /// Whether the object can be dead.
    pub fn can_be_dead(self) -> bool
        ensures { result ≡ can_be_dead self }
    {
        matches!(self, Holding::Unheld | Holding::Lifeless)
    }

    /// What is known of the object where it is live: None where it is known to be dead.
    pub fn living(self) -> Option<Holding>
        ensures { result ≡ living self }
    {
        match self {
            Holding::Unheld | Holding::Living => Some(Holding::Living),
            Holding::Lifeless => None,
            Holding::Own(_) | Holding::Others(_) => Some(self),
        }
    }
}
