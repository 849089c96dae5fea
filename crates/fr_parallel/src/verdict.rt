// The verdict, found by several workers.
ghost use Rattle.std.specs.Prelude.{◌≡◌, ◌≢◌, ◌↔◌, length, IfOk, IfErr, IsErrOf, Some, IsTrue};
ghost use Rattle.fr_board.specs.Tally.{IsNewBoard, IsSeatCount};
ghost use Rattle.fr_program.specs.Points.{points_of};
ghost use Rattle.fr_rules.specs.Run.{IsSafe};
ghost use Rattle.fr_ends.specs.Fits.{CertificateFits};
ghost use Rattle.fr_judge.specs.declared.part.Verdict.TheVariants.{Yes};
ghost use Rattle.fr_judge.specs.Told.{TellsVerdict, Speaks};
ghost use Rattle.fr_parallel.specs.declared.fault.ParFault.TheVariants.{Workers};
ghost use Rattle.fr_worker.specs.Kept.{IsLeastFailing};
ghost use Rattle.fr_parallel.specs.Crew.{IsNoCrew};

use crate::crew::worked_by_all;
use crate::fault::ParFault;
use fr_board::{Board, BoardFault, Gate, Pass};
use fr_ends::Certificate;
use fr_judge::{Judging, Lists, Verdict};
use fr_program::App;
use std::alloc::Global;
use std::sync::Wait;
use std::thread::Threads;

/// Whether there can be so many workers: 1 to 64.
pub fn is_crew(workers: usize) -> bool
    ensures { IsTrue result ↔ IsSeatCount workers }
{
    0 < workers && workers <= 64
}

/// A board with a job for each point and a pass for each worker.
fn board_for(alloc: Global, app: &App, workers: usize) -> Result<(Board, Vec<Pass>), ParFault>
    requires { IsSeatCount workers }
    ensures new { IfOk result (λ r. IsNewBoard (length (points_of app.now)) workers r.0 r.1.items) }
    ensures fault { IfErr result (λ e. e ≢ Workers) }
{
    app.recall_faultless();
    match Board::new(alloc, app.points() as u64, workers) {
        Ok(made) => Ok(made),
        Err(BoardFault::Memory) => Err(ParFault::Memory),
        Err(BoardFault::Seats) => unreachable!(),
        Err(BoardFault::Jobs) => unreachable!(),
    }
}

/// The verdict No at the point with this number, the least that failed.
fn refused_at(judging: &Judging, number: usize) -> Verdict
    requires least { IsLeastFailing judging.now.app judging.now.certificate (Some number) }
    ensures verdict { TellsVerdict judging.now.app judging.now.certificate result }
    ensures speaks { Speaks judging.now.app result }
{
    match judging.part_at(number) {
        Some(part) => Verdict::No {
            point: judging.app().point(number),
            part,
        },
        None => unreachable!(),
    }
}

/// The verdict where this number is the least that failed, if one did.
fn verdict_at(judging: &Judging, least: Option<u64>) -> Verdict
    requires least { IsLeastFailing judging.now.app judging.now.certificate least }
    ensures verdict { TellsVerdict judging.now.app judging.now.certificate result }
    ensures speaks { Speaks judging.now.app result }
{
    match least {
        None => Verdict::Yes,
        Some(number) => refused_at(judging, number as usize),
    }
}

/// The same as `judge_with`, by 1 to 64 workers.
pub(crate) fn judge_by_crew<R: Threads + Wait + Sync, G: Gate>(
    rt: &R,
    alloc: Global,
    app: &App,
    certificate: &Certificate,
    workers: usize,
    gate: &G,
) -> Result<Verdict, ParFault>
    requires fits { CertificateFits app.now certificate.now }
    requires workers { IsSeatCount workers }
    ensures verdict { IfOk result (λ v. TellsVerdict app.now certificate.now v) }
    ensures safe { IfOk result (λ v. v ≡ Yes → IsSafe app.now) }
    ensures speaks { IfOk result (λ v. Speaks app.now v) }
    ensures fault { IfErr result (λ e. e ≢ Workers) }
{
    let Ok(lists) = Lists::build_by(rt, alloc, app, certificate, workers) else {
        return Err(ParFault::Memory);
    };
    let (board, passes) = board_for(alloc, app, workers)?;
    let all = worked_by_all(rt, alloc, app, certificate, &lists, &board, passes, gate)?;
    let judging = Judging::with(app, certificate, &lists);
    app.recall_faultless();
    match board.finish(all) {
        Ok(tally) => Ok(verdict_at(&judging, tally.least)),
        Err(_) => unreachable!(),
    }
}

/// The verdict on an application and a certificate that fits it, found by this many workers, each in a thread of its own.
///
/// It is the one verdict of both, whichever worker judges what and in whatever order. A `Yes` says that no state of any run of the
/// application breaches a rule, and a `No` names only what the application has.
///
/// # Errors
///
/// `Workers` exactly where `workers` isn't 1 to 64, before any memory is asked for; `Memory` where memory is refused; `Threads`
/// where a thread can't be started. Threads that were started have ended then.
pub fn judge_with<R: Threads + Wait + Sync, G: Gate>(
    rt: &R,
    alloc: Global,
    app: &App,
    certificate: &Certificate,
    workers: usize,
    gate: &G,
) -> Result<Verdict, ParFault>
    requires fits { CertificateFits app.now certificate.now }
    ensures verdict { IfOk result (λ v. TellsVerdict app.now certificate.now v) }
    ensures safe { IfOk result (λ v. v ≡ Yes → IsSafe app.now) }
    ensures speaks { IfOk result (λ v. Speaks app.now v) }
    ensures workers { IsErrOf result Workers ↔ IsNoCrew workers }
{
    if !is_crew(workers) {
        return Err(ParFault::Workers);
    }
    judge_by_crew(rt, alloc, app, certificate, workers, gate)
}
