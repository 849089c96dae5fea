// Working through one actor until its notes are stable under its own steps.
use crate::effect::Effects;
use crate::lists::is_marked;
use crate::trial::{Item, Trial};
use std::alloc::{AllocError, Global};
use std::collections::{BTreeMap, HashMap};
use std::hash::{FoldHasher, Hash, Hasher};

/// An actor that is worked through.
#[derive(Drop)]
struct Work<'a> {
    actor: usize,
    others: &'a [Effects],
    /// The points that wait, by their places in the order.
    waiting: BTreeMap<usize, usize>,
    /// Notes that were closed before, by a print of what they were, with what they became.
    closed: HashMap<u64, Vec<usize>>,
}

/// A number that equal lists have in common.
fn print_of(list: &[usize]) -> u64 {
    let mut hasher = FoldHasher::default();
    for facts in list {
        facts.hash(&mut hasher);
    }
    hasher.finish()
}

impl<'a> Work<'a> {
    /// Has the point wait.
    fn wait(&mut self, trial: &Trial, number: usize) -> Result<(), AllocError> {
        if let Some(place) = trial.plan.order.get(number) {
            self.waiting.insert(*place, number)?;
        }
        Ok(())
    }

    /// Has each of the actor's points wait that has a note.
    fn wait_all(&mut self, trial: &Trial) -> Result<(), AllocError> {
        let span = trial.plan.span(self.actor);
        for number in span.first..span.end {
            if !trial.note(number).is_empty() {
                self.wait(trial, number)?;
            }
        }
        Ok(())
    }

    /// Keeps what a note with this print became.
    fn keep(&mut self, alloc: Global, print: u64, note: &[usize]) -> Result<(), AllocError> {
        let note = Vec::from_slice(alloc, note)?;
        self.closed.insert(print, note)?;
        Ok(())
    }

    /// Closes the point's note, which has this print, under the others' steps, and keeps what it became, for
    /// what it was and for what it is.
    fn close_new(
        &mut self,
        alloc: Global,
        trial: &mut Trial,
        number: usize,
        print: u64,
    ) -> Result<(), AllocError> {
        trial.close(alloc, self.actor, number, self.others)?;
        let note = trial.note(number);
        self.keep(alloc, print, note)?;
        self.keep(alloc, print_of(note), note)
    }

    /// Closes the point's note under the others' steps; a list that was closed before isn't closed again.
    fn close(&mut self, alloc: Global, trial: &mut Trial, number: usize) -> Result<(), AllocError> {
        let print = print_of(trial.note(number));
        let Some(list) = self.closed.get(&print) else {
            return self.close_new(alloc, trial, number, print);
        };
        trial.set_note(number, Vec::from_slice(alloc, list)?);
        Ok(())
    }

    /// Merges what a step leaves into the point that it leads to, which waits if its note changed.
    fn arrive(&mut self, alloc: Global, trial: &mut Trial, left: Item) -> Result<(), AllocError> {
        let widen = is_marked(&trial.plan.heads, left.number);
        if trial.merge(alloc, self.actor, left.number, left.facts, widen)? {
            self.wait(trial, left.number)?;
        }
        Ok(())
    }

    /// Merges what the steps from a point leave, where this alternative of its note holds.
    fn step(&mut self, alloc: Global, trial: &mut Trial, from: Item) -> Result<(), AllocError> {
        for way in trial.ways_from(from.number) {
            if !trial.spend() {
                return Ok(());
            }
            if let Some(left) = trial.land(alloc, from, *way)? {
                self.arrive(alloc, trial, left)?;
            }
        }
        Ok(())
    }

    /// Closes the point's note, and merges what its steps leave.
    fn visit(&mut self, alloc: Global, trial: &mut Trial, number: usize) -> Result<(), AllocError> {
        self.close(alloc, trial, number)?;
        let note = Vec::from_slice(alloc, trial.note(number))?;
        for facts in note.iter() {
            let from = Item {
                number,
                facts: *facts,
            };
            self.step(alloc, trial, from)?;
        }
        Ok(())
    }
}

/// Works through an actor until its notes are stable under its own steps and under those of the others,
/// whose notes stay as they are, or until no more steps may be looked at.
pub fn settle(
    alloc: Global,
    trial: &mut Trial,
    actor: usize,
    others: &[Effects],
) -> Result<(), AllocError> {
    let mut work = Work {
        actor,
        others,
        waiting: BTreeMap::new(alloc),
        closed: HashMap::new(alloc),
    };
    work.wait_all(trial)?;
    for _ in 0..u64::MAX {
        if trial.left == 0 {
            break;
        }
        let Some((_, number)) = work.waiting.pop_first() else {
            break;
        };
        work.visit(alloc, trial, number)?;
    }
    Ok(())
}
