// What a note says of an object.
ghost use Rattle.std.specs.Prelude.{◌≡◌, ◌≢◌, ◌↔◌, ℕ, IsTrue};

/// What an alternative of a note says of one object.
#[derive(Clone, Copy, PartialEq, Eq)]
pub enum Claim {
    /// The actor doesn't hold it (it may be live or dead).
    NotHeld,
    /// It is live, and the actor doesn't hold it.
    Alive,
    /// It is dead.
    Gone,
    /// The actor holds it so often; so it is live. A note's count is at most 255; a step can leave one more.
    HeldTimes(u32),
}

impl Claim {
    ghost use Rattle.fr_notes.specs.Implication.{ClaimImplies};
    ghost use Rattle.fr_notes.specs.Known.{ClaimsMeet};
    ghost use Rattle.fr_notes.specs.declared.claim.Claim.TheVariants.{NotHeld, HeldTimes};

    /// How often the actor holds the object by this claim; 0 where it says that it doesn't, or that the object is dead.
    pub fn count(self) -> u32
        ensures held { (count : ℕ) → self ≡ HeldTimes count → result ≡ count }
        ensures free { ((count : ℕ) → self ≢ HeldTimes count) → result ≡ 0 }
    {
        match self {
            Claim::HeldTimes(count) => count,
            Claim::NotHeld | Claim::Alive | Claim::Gone => 0,
        }
    }

    /// The claim, where the other one is the same; otherwise that the actor doesn't hold the object.
    pub fn common(self, other: Claim) -> Claim
        ensures same { self ≡ other → result ≡ self }
        ensures apart { self ≢ other → result ≡ NotHeld }
    {
        if self == other { self } else { Claim::NotHeld }
    }

    /// Whether the other claim is true of an actor and an object wherever this one is.
    pub fn implies(self, other: Claim) -> bool
        ensures { IsTrue result ↔ ClaimImplies self other }
    {
        match (self, other) {
            (Claim::HeldTimes(count), Claim::HeldTimes(other)) => count == other,
            (Claim::HeldTimes(_), _) | (_, Claim::HeldTimes(_)) => false,
            (_, Claim::NotHeld) => true,
            (Claim::Alive, Claim::Alive) | (Claim::Gone, Claim::Gone) => true,
            _ => false,
        }
    }

    /// Whether both claims, of two actors, can be true of one object.
    pub fn meets(self, other: Claim) -> bool
        ensures { IsTrue result ↔ ClaimsMeet self other }
    {
        match (self, other) {
            (Claim::HeldTimes(_), Claim::HeldTimes(_) | Claim::Gone)
            | (Claim::Gone, Claim::HeldTimes(_) | Claim::Alive)
            | (Claim::Alive, Claim::Gone) => false,
            (_, _) => true,
        }
    }
}
