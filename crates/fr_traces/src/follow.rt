// The command `follow`.
ghost use Rattle.std.specs.Prelude.{◌≡◌, ◌≤◌, ◌∷◌, [], ℕ, List, IfErr, IfNone, IfOk, IfSome, None, Some, false, length, map, true};
ghost use Rattle.fr_formats.specs.Answers.{status_of as kind_status};
ghost use Rattle.fr_outcome.specs.Checked.{fault_status};
ghost use Rattle.fr_inputs.specs.Inputs.{Reads};
ghost use Rattle.fr_traces.specs.Traces.{AreCovered, AreTraces, AreTracesPrinted, IsAnswerAt, IsFollowDone, IsFollowWritten, IsReadAs, IsTracesAnswered, answered_at, is_several};

use crate::answers::answer_one;
use crate::outputs::{look_at_outputs, put_outputs};
use crate::printed::{print_one, print_several};
use fr_inputs::{Files, application, refusal_of_texts};
use fr_lanes::Code;
use fr_outcome::{AppText, Boxed, CheckFault, Refusal, put};
use fr_place::is_unknown_word;
use fr_program::App;
use fr_reader::read_app;
use fr_request::FollowRequest;
use fr_trail::{Coverage, TraceAnswer};
use std::alloc::Global;
use std::io::Write;

/// The application in the file that is named, and its text.
fn app_asked<F: Files>(
    alloc: Global,
    asked: &FollowRequest,
    files: &F,
) -> Result<(App, Vec<u8>), Refusal>
    ensures read { IfOk result (λ r. IsReadAs (Reads (F.Gives files.now) F.Means) asked.now.app.now r.0) }
    ensures fault { IfErr result (λ refusal. 2 ≤ fault_status refusal.fault) }
{
    let AppText { bytes: text, .. } = application(alloc, files, asked.app, asked.explains)?;
    match read_app(alloc, &text) {
        Ok(app) => Ok((app, text)),
        Err(fault) => {
            let places = asked.explains || is_unknown_word(&fault);
            let fault = CheckFault::from(fault);
            Err(refusal_of_texts(alloc, &text, None, fault, places))
        }
    }
}

/// The one trace that is named; None where there are several.
fn one_named<'a>(traces: &'a [&'a str]) -> Option<&'a str>
    ensures some { IfSome result (λ path. traces.now ≡ path ∷ []) }
    ensures none { IfNone result (is_several (length traces.now) ≡ true) }
{
    if traces.len() == 1 {
        traces.first().copied()
    } else {
        None
    }
}

/// Answers the trace in the file and prints that, where it is the only one that is named.
fn follow_one<F: Files, O: Write>(
    alloc: Global,
    app: &App,
    path: &str,
    asked: &FollowRequest,
    coverage: &mut Coverage,
    files: &F,
    out: &mut O,
) -> Result<Boxed<TraceAnswer>, Refusal>
    ensures answered { IfOk result (λ answer. AreTraces (Reads (F.Gives files.now) F.Means) asked.now app.now (path.now ∷ []) (kind_status answer.kind)
        (AreTracesPrinted asked.now.format asked.now.app.now false (O.contents out.old) (O.contents out.new))) }
    ensures by { IfOk result (λ answer. IsAnswerAt (Reads (F.Gives files.now) F.Means) asked.now app.now
        (answered_at path.now answer)) }
    ensures kept { IfOk result (λ answer. asked.now.format ≡ None → kind_status answer.kind ≤ 1) }
    ensures refused { IfErr result (λ refusal. fault_status refusal.fault ≡ 2 → out.new ≡ out.old) }
{
    let answer = answer_one(alloc, app, &coverage.sources, path, asked, files)?;
    print_one(alloc, path, answer.get(), asked, out)?;
    coverage.add(alloc, app, answer.get())?;
    Ok(answer)
}

/// Answers the traces that are named, and prints the answers: the one alone, each of several after its path, or a report of all; gives the
/// greatest exit status, and the answer where there is one trace.
fn follow_named<F: Files, O: Write>(
    alloc: Global,
    app: &App,
    asked: &FollowRequest,
    coverage: &mut Coverage,
    files: &F,
    out: &mut O,
) -> Result<(u8, Option<Boxed<TraceAnswer>>), Refusal>
    ensures answered { IfOk result (λ r. AreTraces (Reads (F.Gives files.now) F.Means) asked.now app.now (map (λ s. s.now) asked.now.traces.now) r.0
        (AreTracesPrinted asked.now.format asked.now.app.now (is_several (length asked.now.traces.now)) (O.contents out.old) (O.contents out.new))) }
    ensures by { IfOk result (λ r. IfSome r.1 (λ answer. (path : List ℕ) × (map (λ s. s.now) asked.now.traces.now ≡ path ∷ [])
        × IsAnswerAt (Reads (F.Gives files.now) F.Means) asked.now app.now (answered_at path answer) × (r.0 ≡ kind_status answer.kind))) }
    ensures several { IfOk result (λ r. IfNone r.1 (is_several (length asked.now.traces.now) ≡ true)) }
    ensures most { IfOk result (λ r. r.0 ≤ 3) }
    ensures kept { IfOk result (λ r. asked.now.format ≡ None → length asked.now.traces.now ≡ 1 → r.0 ≤ 1) }
    ensures refused { IfErr result (λ refusal. fault_status refusal.fault ≡ 2 → out.new ≡ out.old) }
{
    match one_named(asked.traces) {
        Some(path) => {
            let answer = follow_one(alloc, app, path, asked, coverage, files, out)?;
            Ok((answer.get().kind.status(), Some(answer)))
        }
        None => {
            let status = print_several(alloc, app, asked.traces, asked, coverage, files, out)?;
            Ok((status, None))
        }
    }
}

/// Prints what no run has shown, where that is asked for and no report is.
fn cover<O: Write>(
    alloc: Global,
    app: &App,
    asked: &FollowRequest,
    coverage: &Coverage,
    out: &mut O,
) -> Result<(), CheckFault>
    ensures covered { IfOk result (λ _. AreCovered asked.now.covers asked.now.format (O.contents out.old) (O.contents out.new)) }
    ensures fault { IfErr result (λ fault. fault_status fault ≡ 3) }
{
    if !asked.covers || asked.format.is_some() {
        return Ok(());
    }
    put(&coverage.text(alloc, app)?, out)
}

/// Follows the traces in files by runs of the application in another one, prints how far that goes, writes the run that was found and the
/// page of the answer to the files for them, if they are named, and gives the greatest exit status. These files are looked at before
/// anything is read.
pub fn follow_traces<F: Files, O: Write>(
    alloc: Global,
    asked: &FollowRequest,
    files: &mut F,
    out: &mut O,
) -> Result<u8, Refusal>
    ensures answered { IfOk result (λ status. IsTracesAnswered (Reads (F.Gives files.old) F.Means) asked.now status (O.contents out.old) (O.contents out.new)) }
    ensures most { IfOk result (λ status. status ≤ 3) }
    ensures kept { IfOk result (λ status. 2 ≤ status → asked.now.format ≡ None → length asked.now.traces.now ≡ 1 → out.new ≡ out.old) }
    ensures refused { IfErr result (λ refusal. fault_status refusal.fault ≡ 2 → out.new ≡ out.old) }
    ensures files { IsFollowWritten (Reads (F.Gives files.old) F.Means) F.Puts asked.now files.old files.new }
    ensures done { IfOk result (λ status. IsFollowDone (Reads (F.Gives files.old) F.Means) F.Puts asked.now status files.old files.new) }
{
    look_at_outputs(alloc, asked, files)?;
    let (app, text) = app_asked(alloc, asked, files)?;
    let mut coverage = Coverage::new(alloc, &app, Code::of(alloc, &text)?.sources)?;
    let (status, answer) = follow_named(alloc, &app, asked, &mut coverage, files, out)?;
    cover(alloc, &app, asked, &coverage, out)?;
    put_outputs(alloc, asked, &app, &text, &answer, files)?;
    Ok(status)
}
