// Running the application that bytes mean, where it passes with its certificate.
ghost use Rattle.std.specs.Prelude.{◌≡◌, ◌≢◌, ◌<◌, ℕ, List, [], IfOk, IfErr, Err, None, string_bytes};
ghost use Rattle.fr_rules.specs.Run.{IsSafe};
ghost use Rattle.fr_ends.specs.Fits.{CertificateFits};
ghost use Rattle.fr_judge.specs.declared.part.Verdict.TheVariants.{Yes};
ghost use Rattle.fr_judge.specs.Told.{Speaks};
ghost use Rattle.fr_report.specs.Report.{report_text};
ghost use Rattle.fr_outcome.specs.Checked.{IsSafeText};
ghost use Rattle.fr_findings.specs.Ran.{
  CanRefuseRun,
  IsOutput,
  IsOutputFor,
  IsRunAnswer,
  IsRunText,
  most_polls,
  run_fault,
};

use crate::judging::why;
use fr_ends::Certificate;
use fr_interfere::Index;
use fr_judge::{Passed, Verdict};
use fr_outcome::{CheckFault, DONE, NO};
use fr_parallel::Gate;
use fr_program::App;
use fr_report::{report, trace_text};
use fr_request::Detail;
use fr_runner::{MOST_POLLS, RunFault, run};
use fr_text::read_both;
use fr_wording::explanation_text;
use std::alloc::{AllocError, Global};
use std::io::Write;
use std::sync::Wait;
use std::thread::Threads;

/// The fault of a command whose run gave no trace. That no poll is left and that there is no such
/// actor are faults of single polls, and no run has them.
fn run_fault(fault: RunFault) -> CheckFault
    ensures { result ≡ run_fault fault }
{
    match fault {
        RunFault::Polls => CheckFault::Polls,
        RunFault::Threads => CheckFault::Thread,
        RunFault::Memory | RunFault::Spent | RunFault::NoActor => CheckFault::Memory,
    }
}

/// Runs the application, and gives the text of the trace.
fn run_text<R: Threads + Wait + Sync, G: Gate>(
    rt: &R,
    alloc: Global,
    passed: &Passed,
    polls: u64,
    words: &[u64],
    gate: &G,
) -> Result<String, CheckFault>
    ensures output { IfOk result
        (λ text. IsOutput passed.now.app Yes polls words.now (string_bytes text)) }
    ensures refused { IfErr result
        (λ f. (app certificate : List ℕ) → CanRefuseRun app certificate polls f) }
{
    match run(rt, alloc, passed, polls, words, gate) {
        Ok(trace) => Ok(trace_text(alloc, passed.app(), &trace)?),
        Err(fault) => Err(run_fault(fault)),
    }
}

/// The report of a verdict, and the lines of why it is no.
fn refusal(
    alloc: Global,
    text: &[u8],
    app: &App,
    certificate: &Certificate,
    verdict: Verdict,
    detail: Option<Detail>,
) -> Result<(String, String), AllocError>
    requires fits { CertificateFits app.now certificate.now }
    requires speaks { Speaks app.now verdict }
    ensures report { IfOk result (λ r. string_bytes r.0 ≡ report_text app.now verdict) }
    ensures unasked { IfOk result (λ r. detail ≡ None → string_bytes r.1 ≡ []) }
{
    let line = report(alloc, app, &verdict)?;
    let explanation = why(alloc, text, app, certificate, verdict, detail, false)?;
    let more = explanation_text(alloc, app, &explanation)?;
    Ok((line, more))
}

/// What has to be written for the application, with the exit status: the text of a run where the verdict is yes, and the report
/// where it is no, with why it is.
fn output<R: Threads + Wait + Sync, G: Gate>(
    rt: &R,
    alloc: Global,
    text: &[u8],
    app: App,
    certificate: Certificate,
    polls: u64,
    words: &[u64],
    gate: &G,
    detail: Option<Detail>,
) -> Result<(u8, String, String), CheckFault>
    requires fits { CertificateFits app certificate }
    ensures output { IfOk result
        (λ r. IsOutputFor app certificate polls words.now r.0 (string_bytes r.1)) }
    ensures yes { IfOk result (λ r. r.0 ≡ 0 → string_bytes r.2 ≡ []) }
    ensures unasked { IfOk result (λ r. detail ≡ None → string_bytes r.2 ≡ []) }
    ensures safe { IfOk result (λ r. r.0 ≡ 0 → IsSafe app) }
    ensures refused { IfErr result
        (λ f. (app certificate : List ℕ) → CanRefuseRun app certificate polls f) }
{
    let Ok(index) = Index::build(alloc, &app) else {
        return Err(CheckFault::Memory);
    };
    match Passed::check_by(app, certificate, &index) {
        Ok(passed) => match run_text(rt, alloc, &passed, polls, words, gate) {
            Ok(lines) => Ok((DONE, lines, String::new(alloc))),
            Err(fault) => Err(fault),
        },
        Err((app, certificate, verdict)) => {
            match refusal(alloc, text, &app, &certificate, verdict, detail) {
                Ok((line, more)) => Ok((NO, line, more)),
                Err(_) => Err(CheckFault::Memory),
            }
        }
    }
}

/// Judges the certificate for the application. Where the verdict is yes, it runs the application for so many polls, each actor in a
/// thread of its own, and picks choices by the words. Ok is the exit status and what has to be written: the lines of the run, or
/// the report and where `detail` asks for it why the verdict is no.
///
/// # Errors
///
/// As those of `run_to`, but for `Write`.
pub fn ran_texts<R: Threads + Wait + Sync, G: Gate>(
    rt: &R,
    alloc: Global,
    app: &[u8],
    certificate: &[u8],
    polls: u64,
    words: &[u64],
    gate: &G,
    detail: Option<Detail>,
) -> Result<(u8, String), CheckFault>
    ensures ran { IfOk result
        (λ r. IsRunText app.now certificate.now polls words.now detail r.0 (string_bytes r.1)) }
    ensures safe { IfOk result (λ r. r.0 ≡ 0 → IsSafeText app.now) }
    ensures polls { most_polls < polls → result ≡ Err CheckFault.Polls }
    ensures refused { IfErr result (CanRefuseRun app.now certificate.now polls) }
{
    if polls > MOST_POLLS {
        return Err(CheckFault::Polls);
    }
    let bytes = app;
    let (app, certificate) = read_both(alloc, bytes, certificate)?;
    let (status, mut text, more) = output(
        rt,
        alloc,
        bytes,
        app,
        certificate,
        polls,
        words,
        gate,
        detail,
    )?;
    text.push_str(&more)?;
    Ok((status, text))
}

/// Judges the certificate for the application. Where the verdict is yes, it runs the application for
/// so many polls, each actor in a thread of its own, picks choices by the words, writes the trace,
/// one line an entry, and answers the exit status 0. Where the verdict is no, it writes the report
/// and answers 1.
///
/// # Errors
///
/// `Polls` exactly where there are more than 1,000,000, before anything is read; `App` and `Cert`
/// name a fault that is present in the bytes; `Memory` and `Thread` say that the machine refused an
/// allocation or a thread. Nothing is written then. `Write` says that the writer failed; what was
/// written then is open.
pub fn run_to<R: Threads + Wait + Sync, G: Gate, W: Write>(
    rt: &R,
    alloc: Global,
    app: &[u8],
    certificate: &[u8],
    polls: u64,
    words: &[u64],
    gate: &G,
    writer: &mut W,
) -> Result<u8, CheckFault>
    ensures answer { IfOk result
        (λ status. IsRunAnswer app.now certificate.now polls words.now status (W.contents writer.old) (W.contents writer.new)) }
    ensures safe { IfOk result (λ status. status ≡ 0 → IsSafeText app.now) }
    ensures polls { most_polls < polls → result ≡ Err CheckFault.Polls }
    ensures refused { IfErr result (CanRefuseRun app.now certificate.now polls) }
    ensures kept { IfErr result (λ fault. fault ≢ CheckFault.Write → writer.new ≡ writer.old) }
{
    let (status, text) = ran_texts(rt, alloc, app, certificate, polls, words, gate, None)?;
    match writer.write_all(text.as_bytes()) {
        Ok(()) => Ok(status),
        Err(_) => Err(CheckFault::Write),
    }
}
