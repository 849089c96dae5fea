// One worker's turn.
ghost use Rattle.std.specs.Prelude.{◌≡◌, ◌<◌, Some};
ghost use Rattle.fr_board.specs.declared.progress.Outcome.TheVariants.{Open};
ghost use Rattle.fr_board.specs.Drawn.{outcome_of};
ghost use Rattle.fr_board.specs.Progress.{new_progress};
ghost use Rattle.fr_board.specs.Values.{IsOf};
ghost use Rattle.fr_ends.specs.Fits.{CertificateFits};
ghost use Rattle.fr_effects.specs.Index.{IsIndexOf};
ghost use Rattle.fr_worker.specs.Kept.{IsFor, IsWorked, KeepsAt};
ghost use Rattle.fr_worker.specs.Worked.{Settles};

use fr_board::{Board, Claim, Gate, Pass};
use fr_effects::Index;
use fr_ends::Certificate;
use fr_judge::Judging;
use fr_program::App;

/// Looks, and then skips the claim where a lower number has failed, or judges its point and marks it.
fn settle<G: Gate>(
    judging: &Judging,
    board: &Board,
    pass: &mut Pass,
    claim: Claim,
    worker: usize,
    gate: &G,
)
    requires jobs { IsFor judging.now.app board.now }
    requires own { IsOf board.now pass.old }
    requires number { claim < board.now.jobs }
    requires claim { outcome_of claim pass.old.progress.drawn ≡ Some Open }
    ensures own { IsOf board.now pass.new }
    ensures settled { Settles (KeepsAt judging.now.app judging.now.certificate) pass.old.progress claim pass.new.progress }
{
    let number = claim.number();
    if board.look(pass) < number {
        board.skip(pass, claim);
        return;
    }
    gate.arrive(worker, number);
    match judging.part_at(number as usize) {
        None => board.passed(pass, claim),
        Some(_) => board.failed(pass, claim),
    }
}

/// A worker's whole turn: it draws numbers of points until none is left, and says of each what it is, by the index of the
/// application.
///
/// After each draw it looks. Where a lower number has failed it leaves the point, and otherwise it arrives at the
/// gate and judges the point. It takes no memory, and no lock is held while it judges.
///
/// In the pass that comes back, every point marked passed keeps all its parts, and every point marked failed breaks
/// one. Every other drawn point is marked skipped, since a lower one had failed. The pass is that of one worker (its
/// weight is 1), and it has found that no number is left (it has a dry mark).
pub fn work<G: Gate>(
    app: &App,
    certificate: &Certificate,
    index: &Index,
    board: &Board,
    pass: Pass,
    worker: usize,
    gate: &G,
) -> Pass
    requires own { IsOf board.now pass }
    requires new { pass.progress ≡ new_progress board.now.jobs 1 }
    requires jobs { IsFor app.now board.now }
    requires fits { CertificateFits app.now certificate.now }
    requires index { IsIndexOf app.now index.now }
    ensures { IsWorked board.now app.now certificate.now result }
{
    work_by(
        &Judging::by(app, certificate, index),
        board,
        pass,
        worker,
        gate,
    )
}

/// The same as `work`, for points that are judged so.
pub fn work_by<G: Gate>(
    judging: &Judging,
    board: &Board,
    mut pass: Pass,
    worker: usize,
    gate: &G,
) -> Pass
    requires own { IsOf board.now pass }
    requires new { pass.progress ≡ new_progress board.now.jobs 1 }
    requires jobs { IsFor judging.now.app board.now }
    ensures { IsWorked board.now judging.now.app judging.now.certificate result }
{
    while let Some(claim) = board.draw(&mut pass) {
        settle(judging, board, &mut pass, claim, worker, gate);
    }
    pass
}
