// Draws from a board by two passes, what they look at, and boards that are finished or left unfinished.
ghost use Rattle.std.specs.Prelude.{Some, ◌≡◌};
ghost use Rattle.fr_board.specs.declared.progress.Outcome.TheVariants.{Open};
ghost use Rattle.fr_board.specs.Drawn.{outcome_of};
ghost use Rattle.fr_board.specs.Progress.{new_progress};
ghost use Rattle.fr_board.specs.Values.{IsOf};

use fr_board::{Board, BoardFault, Claim, Pass};
use std::alloc::Global;
use std::process::Abort;

// A board with two passes.
fn pair(rt: &impl Abort, alloc: Global, jobs: u64) -> (Board, Pass, Pass)
    ensures first { IsOf result.0 result.1 × (result.1.progress ≡ new_progress jobs 1) }
    ensures second { IsOf result.0 result.2 × (result.2.progress ≡ new_progress jobs 1) }
{
    let Ok((board, mut passes)) = Board::new(alloc, jobs, 2) else {
        panic!(rt; "no board")
    };
    let Some(b) = passes.pop() else {
        panic!(rt; "no pass")
    };
    let Some(a) = passes.pop() else {
        panic!(rt; "one pass")
    };
    (board, a, b)
}

// The claim of a draw that has to give this number.
fn drawn(rt: &impl Abort, board: &Board, pass: &mut Pass, number: u64) -> Claim
    requires { IsOf board.now pass.old }
    ensures own { IsOf board.now pass.new }
    ensures open { outcome_of result pass.new.progress.drawn ≡ Some Open }
{
    let Some(claim) = board.draw(pass) else {
        panic!(rt; "nothing is left")
    };
    assert!(rt; claim.number() == number);
    claim
}

// Two draws that both have to give nothing.
fn is_dry(rt: &impl Abort, board: &Board, pass: &mut Pass)
    requires { IsOf board.now pass.old }
    ensures { IsOf board.now pass.new }
{
    assert!(rt; board.draw(pass).is_none());
    assert!(rt; board.draw(pass).is_none());
}

// The least number that failed, where all of these were finished.
fn least_of(rt: &impl Abort, board: Board, pass: Pass, jobs: u64) -> Option<u64>
    requires { IsOf board pass }
{
    let Ok(tally) = board.finish(pass) else {
        panic!(rt; "not all are finished")
    };
    assert!(rt; tally.jobs == jobs);
    tally.least
}

#[test]
fn least_of_two_failures(rt: HostRuntime) {
    let (board, mut a, mut b) = pair(&rt, rt.alloc(), 3);
    let zero = drawn(&rt, &board, &mut a, 0);
    let one = drawn(&rt, &board, &mut b, 1);
    board.failed(&mut b, one);
    board.passed(&mut a, zero);
    let two = drawn(&rt, &board, &mut a, 2);
    board.failed(&mut a, two);
    is_dry(&rt, &board, &mut a);
    let all = board.join(b, a);
    assert!(rt; least_of(&rt, board, all, 3) == Some(1));
}

#[test]
fn no_jobs(rt: HostRuntime) {
    let Ok((board, mut passes)) = Board::new(rt.alloc(), 0, 1) else {
        panic!(rt; "no board")
    };
    let Some(mut a) = passes.pop() else {
        panic!(rt; "no pass")
    };
    is_dry(&rt, &board, &mut a);
    assert!(rt; least_of(&rt, board, a, 0) == None);
}

fn fault_of(alloc: Global, jobs: u64, seats: usize) -> Option<BoardFault> {
    Board::new(alloc, jobs, seats).err()
}

#[test]
fn refused_sizes(rt: HostRuntime) {
    assert!(rt; matches!(&fault_of(rt.alloc(), 1, 0), Some(BoardFault::Seats)));
    assert!(rt; matches!(&fault_of(rt.alloc(), 1, 65), Some(BoardFault::Seats)));
    assert!(rt;
        matches!(
            &fault_of(rt.alloc(), 4_294_967_297, 1),
            Some(BoardFault::Jobs)
        )
    );
    assert!(rt; fault_of(rt.alloc(), 4_294_967_296, 1).is_none());
}

#[test]
fn skipping_after_a_look(rt: HostRuntime) {
    let (board, mut a, mut b) = pair(&rt, rt.alloc(), 5);
    assert!(rt; a.seen() == 5 && b.seen() == 5);
    let zero = drawn(&rt, &board, &mut a, 0);
    let one = drawn(&rt, &board, &mut b, 1);
    board.failed(&mut b, one);
    // It sees the failure of another pass: it has none itself.
    assert!(rt; board.look(&mut a) == 1);
    board.passed(&mut a, zero);
    let two = drawn(&rt, &board, &mut a, 2);
    assert!(rt; a.seen() < two.number());
    board.skip(&mut a, two);
    let three = drawn(&rt, &board, &mut b, 3);
    assert!(rt; board.look(&mut b) == 1 && b.seen() < three.number());
    board.skip(&mut b, three);
    let four = drawn(&rt, &board, &mut a, 4);
    assert!(rt; a.seen() < four.number());
    board.skip(&mut a, four);
    is_dry(&rt, &board, &mut a);
    let all = board.join(a, b);
    assert!(rt; all.seen() == 1 && least_of(&rt, board, all, 5) == Some(1));
}

#[test]
fn dropped_pass_with_an_open_claim(rt: HostRuntime) {
    let (board, mut a, mut b) = pair(&rt, rt.alloc(), 3);
    let zero = drawn(&rt, &board, &mut a, 0);
    board.passed(&mut a, zero);
    let one = drawn(&rt, &board, &mut b, 1);
    drop(one);
    drop(b);
    let two = drawn(&rt, &board, &mut a, 2);
    board.passed(&mut a, two);
    is_dry(&rt, &board, &mut a);
    let Err(unfinished) = board.finish(a) else {
        panic!(rt; "finished")
    };
    assert!(rt; unfinished.done == 2);
}

#[test]
fn dropped_pass_with_a_failed_claim(rt: HostRuntime) {
    let (board, mut a, mut b) = pair(&rt, rt.alloc(), 3);
    let zero = drawn(&rt, &board, &mut a, 0);
    board.passed(&mut a, zero);
    let one = drawn(&rt, &board, &mut b, 1);
    board.failed(&mut b, one);
    drop(b);
    let two = drawn(&rt, &board, &mut a, 2);
    board.passed(&mut a, two);
    is_dry(&rt, &board, &mut a);
    assert!(rt; least_of(&rt, board, a, 3) == Some(1));
}
