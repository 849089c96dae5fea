// Alternatives of notes, each of them kept once.
ghost use Rattle.std.specs.Prelude.{◌≡◌, All, IfSome};
ghost use Rattle.fr_notes.specs.Facts.{fact_props};
ghost use Rattle.fr_notes.specs.Fits.{AlternativeFits};

use fr_notes::{Alternative, Claim};
use fr_program::{App, Range};
use std::alloc::{AllocError, Global};
use std::collections::HashMap;
use std::hash::{FoldHasher, Hash, Hasher};

/// The alternatives that were found for an application, by their numbers: each of them is kept once,
/// however many points have it.
#[derive(Drop)]
pub struct Pool<'a> {
    app: &'a App,
    items: Vec<Alternative>,
    /// The number of an alternative, by its fingerprint.
    numbers: HashMap<u64, usize>,
    ghost fit: { All (λ n. AlternativeFits app.now n) items.items } by { Prim.hlevel fact_props },
}

/// A number that tells claims apart.
fn word_of(claim: Claim) -> u32 {
    match claim {
        Claim::NotHeld => 0,
        Claim::Alive => 1,
        Claim::Gone => 2,
        Claim::HeldTimes(count) => count.saturating_add(3),
    }
}

/// A number that equal alternatives have in common, and others hardly ever.
fn fingerprint(facts: &Alternative) -> u64 {
    let mut hasher = FoldHasher::default();
    facts.critical().hash(&mut hasher);
    facts.suspended().hash(&mut hasher);
    for claim in facts.claims() {
        word_of(*claim).hash(&mut hasher);
    }
    for range in facts.ranges() {
        range.lo.hash(&mut hasher);
        range.hi.hash(&mut hasher);
    }
    hasher.finish()
}

/// Whether the two say the same.
fn is_same(one: &Alternative, other: &Alternative) -> bool {
    one.critical() == other.critical()
        && one.suspended() == other.suspended()
        && one.claims() == other.claims()
        && one.ranges() == other.ranges()
}

impl<'a> Pool<'a> {
    /// No alternative yet.
    pub fn new(alloc: Global, app: &'a App) -> Pool<'a>
        ensures { result.app.now ≡ app.now }
    {
        Pool {
            app,
            items: Vec::new(alloc),
            numbers: HashMap::new(alloc),
        }
    }

    /// The application.
    pub fn app(&self) -> &'a App
        ensures { result.now ≡ self.now.app.now }
    {
        self.app
    }

    /// The alternative with this number, or None where there is none.
    pub fn get(&self, number: usize) -> Option<&Alternative>
        ensures { IfSome result (λ n. AlternativeFits self.now.app.now n.now) }
    {
        self.items.get(number)
    }

    /// The number of the kept alternative that says the same, if one does.
    fn found(&self, print: u64, facts: &Alternative) -> Option<usize> {
        let number = self.numbers.get(&print)?;
        if is_same(self.items.get(*number)?, facts) {
            Some(*number)
        } else {
            None
        }
    }

    /// Keeps an alternative with this fingerprint. Its number.
    fn add(&mut self, print: u64, facts: Alternative) -> Result<usize, AllocError>
        requires { AlternativeFits self.old.app.now facts }
    {
        let number = self.items.len();
        self.items.push(facts)?;
        self.numbers.insert(print, number)?;
        Ok(number)
    }

    /// The alternative's number. It is kept unless one that says the same is.
    pub fn number(&mut self, facts: Alternative) -> Result<usize, AllocError>
        requires { AlternativeFits self.old.app.now facts }
    {
        let print = fingerprint(&facts);
        match self.found(print, &facts) {
            Some(number) => Ok(number),
            None => self.add(print, facts),
        }
    }

    /// The number of the alternative, if there is one.
    pub fn kept(&mut self, facts: Option<Alternative>) -> Result<Option<usize>, AllocError>
        requires { IfSome facts (λ n. AlternativeFits self.old.app.now n) }
    {
        match facts {
            Some(facts) => Ok(Some(self.number(facts)?)),
            None => Ok(None),
        }
    }
}
