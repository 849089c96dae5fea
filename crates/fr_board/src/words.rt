// The three words of a board, the rule that they keep with all passes, and what each step on them tells its caller.
use crate::progress::Progress;
use atomic_table::{Join, Play, Split, Table, TableRule};
use std::alloc::Global;
use std::marker::{Brand, PhantomData};

// The number that the next draw finds.
pub(crate) const NEXT: usize = 0;

// How many numbers are finished.
pub(crate) const DONE: usize = 1;

// The least number that has failed, or the number of jobs.
pub(crate) const LEAST: usize = 2;

pub(crate) type Words = Table<(), Progress, Size, Rule, Global>;

// What is fixed when a board is made.
#[derive(Drop)]
pub(crate) struct Size {
    pub(crate) jobs: u64,
    pub(crate) seats: u64,
}

pub(crate) struct Rule;

impl TableRule<(), Progress, Size> for Rule {
    ghost use Rattle.fr_board.specs.Progress.{new_progress};
    ghost use Rattle.fr_board.specs.Rule.{KeepsRule};

    ghost holds = { λ k s. KeepsRule k.jobs k.seats s };

    ghost first = { λ k. new_progress k.jobs k.seats };
}

// `fetch_add` of 1 on next.
pub(crate) struct DrawStep;

impl Play<(), Progress> for DrawStep {
    ghost use Rattle.fr_board.specs.Tells.{DrawTells};

    ghost then = { DrawTells };
}

// `fetch_min` of a claim's number on least.
pub(crate) struct LeastStep;

impl Play<(), Progress> for LeastStep {
    ghost use Rattle.fr_board.specs.Tells.{LeastTells};

    ghost then = { LeastTells };
}

// A load of least.
pub(crate) struct LookStep;

impl Play<(), Progress> for LookStep {
    ghost use Rattle.fr_board.specs.Tells.{LookTells};

    ghost then = { LookTells };
}

// Which number a count is of, and what becomes of it. The step itself adds 1 and names neither, so its call picks them.
pub(crate) trait Ending {
    ghost use Rattle.std.specs.Prelude.{ℕ};
    ghost use Rattle.fr_board.specs.declared.progress.Outcome.{Outcome};

    ghost number: { ℕ };

    ghost outcome: { Outcome };
}

impl Ending for Brand {
    ghost use Rattle.fr_board.specs.declared.progress.Outcome.TheVariants.{Open};

    ghost number = { 0 };

    ghost outcome = { Open };
}

// `fetch_add` of 1 on done.
pub(crate) struct CountStep<E> {
    ending: PhantomData<E>,
}

impl<E: Ending> Play<(), Progress> for CountStep<E> {
    ghost use Rattle.fr_board.specs.Tells.{CountTells};

    ghost then = { CountTells E.number E.outcome };
}

// One pass of weight 1 is cut off, or one pass goes into another.
pub(crate) struct Share;

impl Split<Progress> for Share {
    ghost use Rattle.std.specs.Prelude.{◌-◌};
    ghost use Rattle.fr_board.specs.Progress.{new_progress};

    ghost left = { λ p. record p { weight = p.weight - 1 } };

    ghost right = { λ p. new_progress p.jobs 1 };
}

impl Join<Progress> for Share {
    ghost use Rattle.fr_board.specs.Progress.{joined, spent_progress};

    ghost both = { joined };

    ghost spent = { spent_progress };
}
