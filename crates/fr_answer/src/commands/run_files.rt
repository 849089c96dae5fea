// The command `run`.
ghost use Rattle.std.specs.Prelude.{◌≡◌, ◌≤◌, IfErr, IfOk, option_copied};
ghost use Rattle.fr_outcome.specs.Checked.{fault_status};
ghost use Rattle.fr_answer.specs.Commands.{AreRunWords, IsAnswered, IsSafeIn};
ghost use Rattle.fr_inputs.specs.Inputs.{Reads};

use fr_cert::MOST_CERTIFICATE_BYTES;
use fr_findings::{WordsFault, ran_texts, words_of};
use fr_inputs::{Files, application, input, refusal_of_texts};
use fr_outcome::{AppText, CheckFault, Refusal, put};
use fr_parallel::Open;
use fr_request::{Request, RunRequest};
use std::alloc::Global;
use std::io::Write;
use std::sync::Wait;
use std::thread::Threads;

/// The words that are asked for; none where none are given.
fn words_asked(alloc: Global, asked: &RunRequest) -> Result<Vec<u64>, WordsFault>
    ensures { IfOk result (λ words. AreRunWords (option_copied asked.now.words) words.items) }
{
    match asked.words {
        None => Ok(Vec::new(alloc)),
        Some(text) => words_of(alloc, text),
    }
}

/// Runs the application in the file where it passes with the certificate in the other one, prints the lines of the run or the report,
/// and gives the exit status. The list of words is refused before a file is read.
pub(crate) fn run_files<R: Threads + Wait + Sync, F: Files, O: Write>(
    rt: &R,
    alloc: Global,
    asked: &RunRequest,
    files: &F,
    out: &mut O,
) -> Result<u8, Refusal>
    ensures answered { IfOk result (λ status. IsAnswered (Reads (F.Gives files.now) F.Means)
        (Request.Run asked.now) status (O.contents out.old) (O.contents out.new)) }
    ensures safe { IfOk result (λ status. status ≡ 0 → IsSafeIn (Reads (F.Gives files.now) F.Means) asked.now.app.now) }
    ensures most { IfOk result (λ status. status ≤ 1) }
    ensures refused { IfErr result (λ refusal. fault_status refusal.fault ≡ 2 → out.new ≡ out.old) }
{
    let words = match words_asked(alloc, asked) {
        Ok(words) => words,
        Err(fault) => return Err(Refusal::from(CheckFault::from(fault))),
    };
    let explains = asked.detail.is_some();
    let AppText { bytes: app, .. } = application(alloc, files, asked.app, explains)?;
    let path = asked.certificate;
    let certificate = input(alloc, files, path, MOST_CERTIFICATE_BYTES, explains)?;
    let polls = u64::from(asked.polls);
    match ran_texts(
        rt,
        alloc,
        &app,
        &certificate,
        polls,
        &words,
        &Open,
        asked.detail,
    ) {
        Ok((status, text)) => {
            put(&text, out)?;
            Ok(status)
        }
        Err(fault) => {
            let certificate = Some(certificate.as_slice());
            Err(refusal_of_texts(alloc, &app, certificate, fault, explains))
        }
    }
}
