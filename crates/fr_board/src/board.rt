// The board: it hands out each number once, keeps the least that failed, and tells at the end what became of them.
ghost use Rattle.std.specs.Prelude.{List, MatchResult, OnOk, IfErr, Some, ◌≡◌, ◌<◌, ◌≤◌, ℕ, IfSome, IfNone, [], MatchOption, IfOk, ◌++◌, ◌∷◌, All, unwrap_or};
ghost use Rattle.fr_board.specs.declared.board.BoardFault.TheVariants.{Memory};
ghost use Rattle.fr_board.specs.declared.progress.Outcome.TheVariants.{Open, Passed, Failed, Skipped};
ghost use Rattle.fr_board.specs.Drawn.{IsAbove, finish, outcome_of, sum_of};
ghost use Rattle.fr_board.specs.Progress.{after_draw, after_dry_draw, after_look, after_outcome, joined, new_progress};
ghost use Rattle.fr_board.specs.Tally.{AnswersBy, DrewEach, EndedWith, FaultStands, IsBoardSize, IsNewBoard, IsSettled, IsTallyOf, IsUnsettled};
ghost use Rattle.fr_board.specs.Values.{IsOf, MayBecome};

use crate::pass::{Claim, Pass};
use crate::progress::Progress;
use crate::words::{
    CountStep, DONE, DrawStep, Ending, LEAST, LeastStep, LookStep, NEXT, Share, Size, Words,
};
use atomic_table::{Seat, Table};
use std::alloc::Global;
use std::marker::{Brand, Model};
use thiserror::Error;

const MAX_SEATS: usize = 64;

const MAX_JOBS: u64 = 4_294_967_296;

/// Why no board was made.
#[derive(Debug, Drop, Error)]
pub enum BoardFault {
    /// Memory was refused.
    #[error("memory was refused")]
    Memory,
    /// The number of passes is 0 or over 64.
    #[error("a board has 1 to 64 passes")]
    Seats,
    /// The number of jobs is over 4,294,967,296.
    #[error("a board has at most 4294967296 jobs")]
    Jobs,
}

/// A work board: it hands out each job number once, counts what is finished, and keeps the least number that failed.
///
/// Threads share it by `&`; each call is made with a [`Pass`] of this board, and none of those on a pass waits, takes memory or
/// fails. Jobs are numbered from 0.
#[derive(Drop)]
pub struct Board {
    jobs: u64,
    words: Words,
}

impl Model for Board {
    ghost use Rattle.std.specs.Prelude.{◌≡◌};
    ghost use Rattle.fr_board.specs.Values.{BoardValue};

    ghost Value = { BoardValue };

    ghost view = { λ b. record { table = b.words.shared.table_id; jobs = b.words.shared.key.jobs; seats = b.words.shared.key.seats } };

    ghost invariant = { λ b. (b.words.shared.table_id.words ≡ 3) × (b.words.shared.table_id.slots ≡ 0) × (b.jobs ≡ b.words.shared.key.jobs) };
}

/// What became of all jobs.
#[derive(Drop)]
pub struct Tally {
    /// How many jobs there were; each was drawn once and is finished.
    pub jobs: u64,
    /// The least number that failed, or None where none did. Only numbers above it were skipped.
    pub least: Option<u64>,
}

/// Not all jobs were finished.
#[derive(Debug, Drop, Error)]
#[error("only {done} jobs were finished")]
pub struct Unfinished {
    /// How many were, those of dropped passes too.
    pub done: u64,
}

/// What the words of finished numbers and of the least failed number say at the end.
fn last_words(words: Words, seat: Seat<(), Progress>) -> (u64, u64)
    requires { (seat.table_id ≡ words.shared.table_id) × (words.shared.table_id.words ≡ 3) × (words.shared.table_id.slots ≡ 0) }
    ensures { EndedWith words.shared.key.jobs words.shared.key.seats result.0 result.1 seat.id seat.me.0 }
{
    let closed = words.close_with(seat);
    let done = closed.word(DONE);
    let least = closed.word(LEAST);
    closed.free();
    (done, least)
}

/// The answer of a board that ends with these words.
fn answer(jobs: u64, done: u64, least: u64) -> Result<Tally, Unfinished>
    ensures { AnswersBy jobs done least result }
{
    if done < jobs {
        return Err(Unfinished { done });
    }
    let least = if least < jobs { Some(least) } else { None };
    Ok(Tally { jobs, least })
}

/// Appends a new pass for this seat.
fn push_pass(passes: &mut Vec<Pass>, seat: Seat<(), Progress>, jobs: u64) -> Result<(), BoardFault>
    requires { seat.me ≡ (new_progress jobs 1, []) }
    ensures ok { OnOk result (passes.new.items ≡ passes.old.items ++ record { table = seat.table_id; progress = new_progress jobs 1 } ∷ []) }
    ensures fault { IfErr result (λ e. e ≡ Memory) }
{
    let pass = Pass {
        seat,
        is_dry: false,
        look: jobs,
    };
    match passes.push(pass) {
        Ok(()) => Ok(()),
        Err(_) => Err(BoardFault::Memory),
    }
}

impl Board {
    /// A board of `jobs` jobs, with `seats` passes that have drawn nothing, each with the look `jobs`.
    ///
    /// # Errors
    ///
    /// `Seats` where `seats` is 0 or over 64; otherwise `Jobs` where `jobs` is over 4,294,967,296; and `Memory` where both are
    /// right and memory is refused. The limits are this project's own.
    pub fn new(alloc: Global, jobs: u64, seats: usize) -> Result<(Board, Vec<Pass>), BoardFault>
        ensures new { IfOk result (λ r. IsNewBoard jobs seats r.0 r.1.items) }
        ensures size { OnOk result (IsBoardSize jobs seats) }
        ensures fault { IfErr result (λ e. FaultStands e jobs seats) }
    {
        if seats == 0 || seats > MAX_SEATS {
            return Err(BoardFault::Seats);
        }
        if jobs > MAX_JOBS {
            return Err(BoardFault::Jobs);
        }
        let size = Size {
            jobs,
            seats: seats as u64,
        };
        let Ok((words, mut seat)) = Table::of_words(alloc, &[0, 0, jobs], &size) else {
            return Err(BoardFault::Memory);
        };
        let mut passes = Vec::new(alloc);
        for _ in 1..seats {
            let other = words.shared.split_seat::<Share>(&mut seat);
            push_pass(&mut passes, other, jobs)?;
        }
        push_pass(&mut passes, seat, jobs)?;
        Ok((Board { jobs, words }, passes))
    }

    /// A number that nobody has drawn, above all that this pass has drawn; or None where all were handed out.
    ///
    /// None leaves a dry mark on the pass, and a pass with one is answered None ever after.
    pub fn draw(&self, pass: &mut Pass) -> Option<Claim>
        requires { IsOf self.now pass.old }
        ensures own { IsOf self.now pass.new }
        ensures drawn { IfSome result (λ n. pass.new.progress ≡ after_draw pass.old.progress n) }
        ensures is_open { IfSome result (λ n. outcome_of n pass.new.progress.drawn ≡ Some Open) }
        ensures above { IfSome result (λ n. IsAbove n pass.old.progress.drawn) }
        ensures below { IfSome result (λ n. n < self.now.jobs) }

        // A first None is one dry mark, and a later one changes nothing.
        ensures none { IfNone result (0 < pass.new.progress.dry_marks) }
        ensures first_none { pass.old.progress.dry_marks ≡ 0 →
            IfNone result (pass.new.progress ≡ after_dry_draw pass.old.progress) }
        ensures ever { 0 < pass.old.progress.dry_marks → (result ≡ None) × (pass.new ≡ pass.old) }
    {
        if pass.is_dry {
            return None;
        }
        let words = &self.words.shared;
        let found = words.fetch_add::<DrawStep>(&mut pass.seat, NEXT, 1);
        if found < self.jobs {
            Some(Claim { number: found })
        } else {
            pass.is_dry = true;
            None
        }
    }

    /// Counts the claim with this number as finished: the one step that ends a claim.
    fn count<E: Ending>(&self, pass: &mut Pass, number: u64)
        requires own { IsOf self.now pass.old }
        requires number { number ≡ E.number }
        requires may { MayBecome pass.old.progress number E.outcome }
        ensures own { IsOf self.now pass.new }
        ensures became { pass.new.progress ≡ after_outcome pass.old.progress number E.outcome }
    {
        let words = &self.words.shared;
        words.fetch_add::<CountStep<E>>(&mut pass.seat, DONE, 1);
    }

    /// The claim's job has passed.
    ///
    /// The claim is one that this pass drew, or a pass that was joined into it.
    pub fn passed(&self, pass: &mut Pass, claim: Claim)
        requires own { IsOf self.now pass.old }
        requires claim { outcome_of claim pass.old.progress.drawn ≡ Some Open }
        ensures own { IsOf self.now pass.new }
        ensures passed { pass.new.progress ≡ after_outcome pass.old.progress claim Passed }
    {
        let passed = claim.number;
        self.count::<Brand>(pass, passed);
    }

    /// The claim's job has failed: first all may see it by a look, and only then it counts as finished.
    ///
    /// The claim is one that this pass drew, or a pass that was joined into it.
    pub fn failed(&self, pass: &mut Pass, claim: Claim)
        requires own { IsOf self.now pass.old }
        requires claim { outcome_of claim pass.old.progress.drawn ≡ Some Open }
        ensures own { IsOf self.now pass.new }
        ensures failed { pass.new.progress ≡ after_outcome pass.old.progress claim Failed }
    {
        let failed = claim.number;
        let words = &self.words.shared;
        words.fetch_min::<LeastStep>(&mut pass.seat, LEAST, failed);
        self.count::<Brand>(pass, failed);
    }

    /// The claim's job is left undone, since the pass has seen that one of a lower number failed: `pass.seen()` is below the
    /// claim's number.
    ///
    /// The claim is one that this pass drew, or a pass that was joined into it.
    pub fn skip(&self, pass: &mut Pass, claim: Claim)
        requires own { IsOf self.now pass.old }
        requires claim { outcome_of claim pass.old.progress.drawn ≡ Some Open }
        requires seen { pass.old.progress.look < claim }
        ensures own { IsOf self.now pass.new }
        ensures skipped { pass.new.progress ≡ after_outcome pass.old.progress claim Skipped }
    {
        let skipped = claim.number;
        self.count::<Brand>(pass, skipped);
    }

    /// The least number that has failed so far, on any pass; the number of jobs where none has.
    ///
    /// The answer becomes the pass's look. It is at most the look before, and at most each number that this pass has failed; the
    /// least failed number of the tally is never above it.
    pub fn look(&self, pass: &mut Pass) -> u64
        requires { IsOf self.now pass.old }
        ensures own { IsOf self.now pass.new }
        ensures looked { pass.new.progress ≡ after_look pass.old.progress result }
        ensures within { result ≤ self.now.jobs }
        ensures later { result ≤ pass.old.progress.look }
        ensures failed { (x : ℕ) → outcome_of x pass.old.progress.drawn ≡ Some Failed → result ≤ x }
    {
        let words = &self.words.shared;
        let found = words.load::<LookStep>(&mut pass.seat, LEAST);
        pass.look = found;
        found
    }

    /// Two passes as one: the numbers of `other` behind those of `pass`, both weights and all dry marks, and the smaller look.
    pub fn join(&self, pass: Pass, other: Pass) -> Pass
        requires { IsOf self.now pass × IsOf self.now other }
        ensures own { IsOf self.now result }
        ensures joined { result.progress ≡ joined pass.progress other.progress }
    {
        let Pass {
            mut seat,
            is_dry,
            look,
        } = pass;
        let Pass {
            seat: other_seat,
            is_dry: other_is_dry,
            look: other_look,
        } = other;
        self.words.shared.join_seat::<Share>(&mut seat, other_seat);
        Pass {
            seat,
            is_dry: is_dry || other_is_dry,
            look: look.min(other_look),
        }
    }

    /// What became of all jobs; board and pass are spent.
    ///
    /// Other passes may have been dropped, and what they finished counts. Where all passes were joined into this one, the answer
    /// is `Ok` exactly where it has finished each job. It takes no memory.
    ///
    /// # Errors
    ///
    /// `Unfinished` where some number below `jobs` was not drawn or is still open, with how many are finished.
    pub fn finish(self, pass: Pass) -> Result<Tally, Unfinished>
        requires { IsOf self pass }
        ensures tally { IfOk result (λ t. (t.jobs ≡ self.jobs) × IsSettled self.jobs t.least pass.progress) }
        ensures looked { IfOk result (λ t. unwrap_or t.least self.jobs ≤ pass.progress.look) }
        ensures unfinished { IfErr result (λ u. (u.done < self.jobs) × IsUnsettled self.jobs u.done pass.progress) }

        // Where all passes are in this one:
        ensures drew_each { pass.progress.weight ≡ self.seats → 0 < pass.progress.dry_marks →
            DrewEach self.jobs pass.progress }
        ensures whole { pass.progress.weight ≡ self.seats →
            MatchResult result
            (λ t. (sum_of finish pass.progress.drawn ≡ self.jobs) × IsTallyOf self.jobs t.least pass.progress)
            (λ u. u.done ≡ sum_of finish pass.progress.drawn) }
    {
        let Pass {
            seat,
            is_dry: _,
            look: _,
        } = pass;
        let Board { jobs, words } = self;
        let (done, least) = last_words(words, seat);
        answer(jobs, done, least)
    }
}
