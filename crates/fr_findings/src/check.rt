// Checking the bytes of an application and of a certificate.
ghost use Rattle.std.specs.Prelude.{◌≡◌, ◌≢◌, ◌≤◌, ◌↔◌, IfOk, IfErr, IsErrOf};
ghost use Rattle.fr_parallel.specs.Crew.{IsNoCrew};
ghost use Rattle.fr_outcome.specs.Checked.{IsAnswer, IsSafeText, CanRefuse, IsRefused, status_of};

use fr_judge::Verdict;
use fr_outcome::{CheckFault, DONE, NO, status};
use fr_parallel::{Gate, judge_bytes};
use fr_report::report;
use std::alloc::Global;
use std::io::Write;
use std::sync::Wait;
use std::thread::Threads;

/// The exit status of a verdict.
pub(crate) fn status_of(verdict: &Verdict) -> u8
    ensures { result ≡ status_of verdict.now }
{
    match verdict {
        Verdict::Yes => DONE,
        Verdict::No { .. } => NO,
    }
}

/// Judges the certificate for the application by this many workers, writes the report and answers
/// the exit status: 0 only where the verdict is `Yes`, so that the application breaks none of the
/// twelve rules in any state of any run, and 1 only where it is `No`, each with the report's bytes
/// written and nothing else.
///
/// # Errors
///
/// `Workers` exactly where their number is not 1 to 64, before anything is read; `App` and `Cert`
/// name a fault that is present in the bytes; `Memory` and `Thread` say that the machine refused an
/// allocation or a thread. Nothing is written then. `Write` says that the writer failed to take the
/// report of a verdict; what was written then is open.
pub fn check_with<R: Threads + Wait + Sync, G: Gate, W: Write>(
    rt: &R,
    alloc: Global,
    app: &[u8],
    certificate: &[u8],
    workers: usize,
    gate: &G,
    writer: &mut W,
) -> Result<u8, CheckFault>
    ensures answer { IfOk result
        (λ status. IsAnswer app.now certificate.now status (W.contents writer.old) (W.contents writer.new)) }
    ensures safe { IfOk result (λ status. status ≡ 0 → IsSafeText app.now) }
    ensures workers { IsErrOf result CheckFault.Workers ↔ IsNoCrew workers }
    ensures refused { IfErr result (CanRefuse app.now certificate.now workers) }
    ensures kept { IfErr result (λ fault. fault ≢ CheckFault.Write → writer.new ≡ writer.old) }
{
    let judged = judge_bytes(rt, alloc, app, certificate, workers, gate)?;
    let text = report(alloc, &judged.app, &judged.verdict)?;
    match writer.write_all(text.as_bytes()) {
        Ok(()) => Ok(status_of(&judged.verdict)),
        Err(_) => Err(CheckFault::Write),
    }
}

/// The exit status of `check_with`: 0 and 1 as it answers, 2 where the bytes or the number of
/// workers are refused, with nothing written, and 3 where the machine failed. Where there can't be
/// so many workers it is 2.
pub fn check_to<R: Threads + Wait + Sync, G: Gate, W: Write>(
    rt: &R,
    alloc: Global,
    app: &[u8],
    certificate: &[u8],
    workers: usize,
    gate: &G,
    writer: &mut W,
) -> u8
    ensures answer { result ≤ 1 → IsAnswer app.now certificate.now result (W.contents writer.old) (W.contents writer.new) }
    ensures safe { result ≡ 0 → IsSafeText app.now }
    ensures workers { IsNoCrew workers → result ≡ 2 }
    ensures refused { result ≡ 2 → IsRefused app.now certificate.now workers }
    ensures kept { result ≡ 2 → writer.new ≡ writer.old }
    ensures most { result ≤ 3 }
{
    match check_with(rt, alloc, app, certificate, workers, gate, writer) {
        Ok(answer) => answer,
        Err(fault) => status(&fault),
    }
}
