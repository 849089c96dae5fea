// The search for a certificate: notes that are stable, then separations until none fails.
ghost use Rattle.std.specs.Prelude.{IfOk};
ghost use Rattle.fr_ends.specs.Fits.{CertificateFits};

use crate::candidates::worth_trying;
use crate::learning::{Lesson, learn, lessons};
use crate::measure::{Failure, Measured, fitting, measure};
use crate::place::place_at;
use crate::plan::Plan;
use crate::rising::rise;
use crate::separation::{Separation, copied_all};
use crate::table::TruthTable;
use crate::thresholds::thresholds;
use crate::trial::Trial;
use fr_ends::Certificate;
use fr_program::App;
use fr_progress::Meter;
use std::alloc::{AllocError, Global};

/// The most steps that a search looks at.
pub const MOST_STEPS: u64 = 40_000_000;

/// The most steps that a search looks at with separations: a hundred times what any row needs, and seconds where an application is as
/// large as may be.
const MOST_DIVIDED: u64 = 1_000_000;

/// So often separations are added to those that served best, for each actor that fails first.
const MOST_DIVISIONS: usize = 6;

/// The most actors of an application.
const MOST_ACTORS: usize = 32;

/// So often a search learns thresholds.
const MOST_LESSONS: u32 = 3;

/// A search with notes that speak of certain variables.
#[derive(Drop)]
struct Search<'a> {
    plan: &'a Plan<'a>,
    kept: TruthTable,
    thresholds: Vec<Vec<i128>>,
    /// What the last try taught.
    lessons: Vec<Lesson>,
    learned: u32,
    /// How many steps may still be looked at.
    left: u64,
}

/// What comes of the try, and what it teaches.
fn tried(
    alloc: Global,
    trial: &mut Trial,
    bar: &[Failure],
    taught: &mut Vec<Lesson>,
) -> Result<Box<Measured>, AllocError> {
    rise(alloc, trial)?;
    *taught = lessons(alloc, trial)?;
    measure(alloc, trial, bar)
}

impl<'a> Search<'a> {
    /// One try with these separations. Where it fails at all points of `bar`, no others are looked for.
    fn try_once(
        &mut self,
        alloc: Global,
        separations: &[Separation],
        bar: &[Failure],
    ) -> Result<Box<Measured>, AllocError> {
        let mut trial = Trial::new(
            alloc,
            self.plan,
            &self.thresholds,
            separations,
            &self.kept,
            self.left,
        )?;
        let measured = tried(alloc, &mut trial, bar, &mut self.lessons);
        self.left = trial.left;
        measured
    }

    /// Learns what the last try taught, if it failed and the search may still learn. Whether anything is new.
    fn learn(&mut self, tried: &Measured) -> Result<bool, AllocError> {
        if tried.failures.is_empty() || self.left == 0 || self.learned >= MOST_LESSONS {
            return Ok(false);
        }
        let (app, kin) = (self.plan.app, &self.plan.kin);
        let learned = learn(app, kin, &mut self.thresholds, &self.lessons)?;
        self.learned = self.learned.saturating_add(u32::from(learned));
        Ok(learned)
    }

    /// The better one of a try with these separations, and of another with what the first teaches.
    fn solve(
        &mut self,
        alloc: Global,
        separations: &[Separation],
        bar: &[Failure],
    ) -> Result<Box<Measured>, AllocError> {
        let first = self.try_once(alloc, separations, bar)?;
        if !self.learn(&first)? {
            return Ok(first);
        }
        let second = self.try_once(alloc, separations, bar)?;
        if self.left > 0 && second.failures.len() < first.failures.len() {
            Ok(second)
        } else {
            Ok(first)
        }
    }

    /// The try with one separation more.
    fn with(
        &mut self,
        alloc: Global,
        separations: &[Separation],
        separation: &Separation,
        bar: &[Failure],
    ) -> Result<Box<Measured>, AllocError> {
        let mut separations = copied_all(alloc, separations)?;
        separations.push(separation.copied(alloc)?)?;
        self.solve(alloc, &separations, bar)
    }

    /// The actor of the first point that fails.
    fn first_actor(&self, failures: &[Failure]) -> Option<usize> {
        let failure = failures.first()?;
        Some(place_at(self.plan.app, failure.number)?.point.actor.0)
    }

    /// Whether the first actor of those that fail has no failure any more.
    fn is_over_with_first(&self, new: &[Failure], old: &[Failure]) -> bool {
        match (self.first_actor(new), self.first_actor(old)) {
            (Some(new_actor), Some(old_actor)) => new.len() < old.len() && new_actor > old_actor,
            (_, _) => false,
        }
    }

    /// Tries one separation more, and keeps the try where it is better than the best so far. Whether no others are worth a try.
    fn try_separation(
        &mut self,
        alloc: Global,
        old: &Measured,
        separation: &Separation,
        better: &mut Option<Box<Measured>>,
        meter: Option<&Meter>,
    ) -> Result<bool, AllocError> {
        if self.left == 0 || old.separations.contains(separation) {
            return Ok(self.left == 0);
        }
        let failures = &old.failures;
        let tried = self.with(
            alloc,
            &old.separations,
            separation,
            bar_of(failures, better),
        )?;
        tried.note(meter);
        if self.left == 0 {
            return Ok(true);
        }
        let new = &tried.failures;
        let is_over = new.is_empty() || self.is_over_with_first(new, failures);
        if is_over || is_better(new, failures, better) {
            *better = Some(tried);
        }
        Ok(is_over)
    }

    /// The best try with one separation more than these failures have, if one is better.
    fn improved(
        &mut self,
        alloc: Global,
        best: &Measured,
        meter: Option<&Meter>,
    ) -> Result<Option<Box<Measured>>, AllocError> {
        let mut better = None;
        for separation in &worth_trying(alloc, self.plan, &best.failures)? {
            if self.try_separation(alloc, best, separation, &mut better, meter)? {
                break;
            }
        }
        Ok(better)
    }

    /// The best try that is found from this one on. Once the first actor of those that fail doesn't fail any more, the next one has as
    /// many separations.
    fn divided(
        &mut self,
        alloc: Global,
        first: Box<Measured>,
        meter: Option<&Meter>,
    ) -> Result<Box<Measured>, AllocError> {
        let (mut best, mut count) = (first, 0usize);
        for _ in 0..MOST_DIVISIONS * MOST_ACTORS {
            if best.failures.is_empty() || count >= MOST_DIVISIONS {
                break;
            }
            let Some(better) = self.improved(alloc, &best, meter)? else {
                break;
            };
            count = if self.is_over_with_first(&better.failures, &best.failures) {
                0
            } else {
                count.saturating_add(1)
            };
            best = better;
        }
        Ok(best)
    }

    /// The best try that is found: without separations, and with them as far as their share of the steps lasts.
    fn run(&mut self, alloc: Global, meter: Option<&Meter>) -> Result<Box<Measured>, AllocError> {
        let first = self.solve(alloc, &[], &[])?;
        first.note(meter);
        let rest = self.left.saturating_sub(MOST_DIVIDED);
        self.left = self.left.min(MOST_DIVIDED);
        let best = self.divided(alloc, first, meter)?;
        self.left = self.left.saturating_add(rest);
        Ok(best)
    }
}

/// The failures all of which a try has that is no better: those without its separation. None where the best so far has more.
fn bar_of<'a>(old: &'a [Failure], better: &Option<Box<Measured>>) -> &'a [Failure] {
    match better {
        Some(better) if better.failures.len() > old.len() => &[],
        _ => old,
    }
}

/// Whether a try is better than the best so far, where these were the failures without its separation.
fn is_better(new: &[Failure], old: &[Failure], better: &Option<Box<Measured>>) -> bool {
    match (better, new.first(), old.first()) {
        (Some(better), _, _) => new.len() < better.failures.len(),
        (None, Some(first), Some(before)) => {
            new.len() < old.len() || first.number > before.number
        }
        (None, _, _) => new.len() < old.len(),
    }
}

/// A search in which notes speak of all variables, or of all but those that one other actor alone names. It takes the steps that it
/// looks at from `left`.
fn searched(
    alloc: Global,
    plan: &Plan,
    everything: bool,
    left: &mut u64,
    meter: Option<&Meter>,
) -> Result<Box<Measured>, AllocError> {
    let mut search = Search {
        plan,
        kept: plan.kept(alloc, everything)?,
        thresholds: thresholds(alloc, plan.app, &plan.kin)?,
        lessons: Vec::new(alloc),
        learned: 0,
        left: *left,
    };
    let found = search.run(alloc, meter);
    *left = search.left;
    found
}

/// The best try of both searches, where the second one is needed.
fn best(alloc: Global, plan: &Plan, meter: Option<&Meter>) -> Result<Box<Measured>, AllocError> {
    let mut left = MOST_STEPS;
    let first = searched(alloc, plan, false, &mut left, meter)?;
    if first.failures.is_empty() || plan.keeps_everything() {
        return Ok(first);
    }
    let second = searched(alloc, plan, true, &mut left, meter)?;
    if second.failures.len() < first.failures.len() {
        Ok(second)
    } else {
        Ok(first)
    }
}

/// The best try that is found for the application.
fn found(alloc: Global, app: &App, meter: Option<&Meter>) -> Result<Box<Measured>, AllocError> {
    let plan = Plan::new(alloc, app)?;
    best(alloc, &plan, meter)
}

/// A certificate for the application, the best that is found. Whether it passes is for the judge to say.
///
/// The search works through one actor after the other until its notes are stable under its own steps and
/// under those of the others. A range that grows again and again goes to the next number that the code
/// tests or sets, and to the declared end at last. Where the certificate fails, alternatives are kept
/// apart by the value of a variable or by the life of an object, for the actors that have to do with the
/// first failures. It is this project's own method, and a function of the application alone. Each try is noted in the meter, if there
/// is one.
///
/// # Errors
///
/// An allocation was refused.
pub fn best_certificate(
    alloc: Global,
    app: &App,
    meter: Option<&Meter>,
) -> Result<Certificate, AllocError>
    ensures fits { IfOk result (λ certificate. CertificateFits app.now certificate) }
{
    let found = found(alloc, app, meter)?;
    fitting(alloc, app, Box::into_inner(found).certificate)
}
