// Separations: what keeps a note's alternatives apart.
use crate::lists::is_marked;
use fr_finder::can_be_one;
use fr_notes::{Alternative, Claim};
use fr_program::{ObjId, VarId};
use std::alloc::{AllocError, Global};
use std::hash::{FoldHasher, Hash, Hasher};

/// What alternatives are kept apart by.
#[derive(Drop, PartialEq, Eq)]
pub enum Split {
    /// By the numbers that a variable can have: each cut is the first number of another part.
    Cuts(usize, Vec<i128>),
    /// By whether an object is known to be live or dead.
    Life(usize),
}

/// A split with the actors whose notes it divides.
#[derive(Drop, PartialEq, Eq)]
pub struct Separation {
    pub split: Split,
    pub actors: Vec<bool>,
}

/// How many of the cuts are at most this number.
fn part_of(cuts: &[i128], number: i128) -> usize {
    let mut part: usize = 0;
    for cut in cuts {
        if *cut <= number {
            part = part.saturating_add(1);
        }
    }
    part
}

/// 1 where the object is known to be live, 2 where it is known to be dead, and else 0.
fn life_of(claim: Claim) -> u32 {
    match claim {
        Claim::Alive | Claim::HeldTimes(_) => 1,
        Claim::Gone => 2,
        Claim::NotHeld => 0,
    }
}

impl Split {
    /// Where the split puts an alternative: by cuts the first and the last part that its range touches.
    fn parts(&self, facts: &Alternative) -> (usize, usize) {
        match self {
            Split::Cuts(variable, cuts) => {
                let range = facts.range(VarId(*variable));
                (part_of(cuts, range.lo), part_of(cuts, range.hi))
            }
            Split::Life(object) => (life_of(facts.claim(ObjId(*object))) as usize, 0),
        }
    }

    /// The same split once more.
    fn copied(&self, alloc: Global) -> Result<Split, AllocError> {
        match self {
            Split::Cuts(variable, cuts) => Ok(Split::Cuts(
                *variable,
                Vec::from_slice(alloc, cuts)?,
            )),
            Split::Life(object) => Ok(Split::Life(*object)),
        }
    }
}

impl Separation {
    /// Whether it divides the notes of this actor.
    pub fn is_of(&self, actor: usize) -> bool {
        is_marked(&self.actors, actor)
    }

    /// The same separation once more.
    pub fn copied(&self, alloc: Global) -> Result<Separation, AllocError> {
        Ok(Separation {
            split: self.split.copied(alloc)?,
            actors: Vec::from_slice(alloc, &self.actors)?,
        })
    }

    /// Whether it cuts the variable's numbers for this actor.
    pub fn cuts_variable(&self, actor: usize, variable: usize) -> bool {
        match &self.split {
            Split::Cuts(cut, _) => *cut == variable && self.is_of(actor),
            Split::Life(_) => false,
        }
    }
}

/// The separations once more.
pub fn copied_all(
    alloc: Global,
    separations: &[Separation],
) -> Result<Vec<Separation>, AllocError> {
    let mut copies = Vec::with_capacity(alloc, separations.len())?;
    for separation in separations {
        copies.push(separation.copied(alloc)?)?;
    }
    Ok(copies)
}

/// Whether the separations keep the two alternatives of the actor together.
pub fn are_alike(
    separations: &[Separation],
    actor: usize,
    one: &Alternative,
    other: &Alternative,
) -> bool {
    if !can_be_one(one, other) {
        return false;
    }
    for separation in separations {
        if separation.is_of(actor) && separation.split.parts(one) != separation.split.parts(other) {
            return false;
        }
    }
    true
}

/// A number that the alternatives of a point have in common which the separations keep together.
pub fn part_print(
    separations: &[Separation],
    actor: usize,
    number: usize,
    facts: &Alternative,
) -> u64 {
    let mut hasher = FoldHasher::default();
    number.hash(&mut hasher);
    facts.critical().hash(&mut hasher);
    facts.suspended().hash(&mut hasher);
    for claim in facts.claims() {
        claim.count().hash(&mut hasher);
    }
    for separation in separations {
        if separation.is_of(actor) {
            let (first, last) = separation.split.parts(facts);
            first.hash(&mut hasher);
            last.hash(&mut hasher);
        }
    }
    hasher.finish()
}

/// What a separation asks of thresholds: each cut, and the number before it, of the variable.
pub fn add_cuts(
    thresholds: &mut Vec<Vec<i128>>,
    separations: &[Separation],
) -> Result<(), AllocError> {
    for separation in separations {
        if let Split::Cuts(variable, cuts) = &separation.split {
            if let Some(numbers) = thresholds.get_mut(*variable) {
                add_each(numbers, cuts)?;
            }
        }
    }
    Ok(())
}

/// Adds each cut and the number before it.
fn add_each(numbers: &mut Vec<i128>, cuts: &[i128]) -> Result<(), AllocError> {
    for cut in cuts {
        numbers.push(cut.saturating_sub(1))?;
        numbers.push(*cut)?;
    }
    Ok(())
}
