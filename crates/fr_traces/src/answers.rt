// The answers to traces in files.
ghost use Rattle.std.specs.Prelude.{◌≡◌, ◌≤◌, IfErr, IfOk, None};
ghost use Rattle.fr_formats.specs.Answers.{status_of as kind_status};
ghost use Rattle.fr_outcome.specs.Answers.{kind_of};
ghost use Rattle.fr_outcome.specs.Checked.{fault_status};
ghost use Rattle.fr_inputs.specs.Inputs.{Reads};
ghost use Rattle.fr_traces.specs.Traces.{IsAnswerAt, answered_at};

use crate::answered::answered;
use fr_escape::place_of_texts;
use fr_inputs::{Files, input};
use fr_outcome::{Boxed, CheckFault, Refusal, What};
use fr_program::App;
use fr_request::FollowRequest;
use fr_trace::MOST_TRACE_BYTES;
use fr_trail::{Asked, NoAnswer, TraceAnswer};
use fr_wording::Sources;
use std::alloc::{AllocError, Global};

/// Whether it is explained why a trace isn't followed further, and where a refusal is: where a machine reads the answer, always.
fn explains(asked: &FollowRequest) -> bool {
    asked.explains || asked.format.is_some()
}

/// Why there is no answer, and where that is asked for the place.
fn refused(alloc: Global, why: NoAnswer, places: bool) -> Refusal
    ensures { 2 ≤ fault_status result.fault }
{
    let NoAnswer::Refused { text, line, place } = why else {
        return Refusal::from(CheckFault::Memory);
    };
    let fault = CheckFault::Source { text, line };
    if !places || place.is_empty() {
        return Refusal::from(fault);
    }
    match place_of_texts(alloc, &place) {
        Ok(place) => Refusal {
            fault,
            place: Some(place),
        },
        Err(_) => Refusal::from(CheckFault::Memory),
    }
}

/// The answer to the trace in a file.
fn answer_at<F: Files>(
    alloc: Global,
    app: &App,
    sources: &Sources,
    path: &str,
    asked: &FollowRequest,
    files: &F,
) -> Result<TraceAnswer, Refusal>
    ensures by { IfOk result (λ answer. IsAnswerAt (Reads (F.Gives files.now) F.Means) asked.now app.now
        (answered_at path.now answer)) }
    ensures most { IfOk result (λ answer. kind_status answer.kind ≤ 1) }
    ensures fault { IfErr result (λ refusal. 2 ≤ fault_status refusal.fault) }
{
    let explains = explains(asked);
    let bytes = input(alloc, files, path, MOST_TRACE_BYTES, explains)?;
    let ways = Asked {
        states: asked.states,
        any_times: asked.any_times,
        from_anywhere: asked.from_anywhere,
        explains,
        writes: asked.run.is_some(),
        shows: asked.html.is_some(),
    };
    match answered(alloc, app, sources, &bytes, ways) {
        Ok(answer) => Ok(answer),
        Err(why) => Err(refused(alloc, why, explains)),
    }
}

/// What was found out of a trace, without a run.
fn answer_with(alloc: Global, what: &What, explains: bool) -> Result<TraceAnswer, AllocError>
    ensures kind { IfOk result (λ answer. answer.kind ≡ kind_of what.now) }
    ensures run { IfOk result (λ answer. answer.run ≡ None) }
{
    let line = what.line(alloc)?;
    let why = if explains {
        what.lines(alloc)?
    } else {
        Vec::new(alloc)
    };
    Ok(TraceAnswer {
        kind: what.kind(),
        line,
        why,
        stop: what.refused_line(),
        followed: None,
        run: None,
        rows: Vec::new(alloc),
        begun: Vec::new(alloc),
    })
}

/// A refusal as the answer to a trace.
fn answer_of(alloc: Global, refusal: Refusal, explains: bool) -> Result<TraceAnswer, AllocError>
    ensures least { IfOk result (λ answer. 2 ≤ kind_status answer.kind) }
    ensures run { IfOk result (λ answer. answer.run ≡ None) }
{
    let what = What::Refused(Boxed::new(alloc, refusal)?);
    answer_with(alloc, &what, explains)
}

/// The answer to the trace in a file, or why there is none, as an answer too.
pub(crate) fn answer_shown<F: Files>(
    alloc: Global,
    app: &App,
    sources: &Sources,
    path: &str,
    asked: &FollowRequest,
    files: &F,
) -> Result<Boxed<TraceAnswer>, AllocError>
    ensures by { IfOk result (λ answer. IsAnswerAt (Reads (F.Gives files.now) F.Means) asked.now app.now
        (answered_at path.now answer)) }
{
    match answer_at(alloc, app, sources, path, asked, files) {
        Ok(answer) => Boxed::new(alloc, answer),
        Err(refusal) => Boxed::new(alloc, answer_of(alloc, refusal, explains(asked))?),
    }
}

/// The answer to the only trace that is named: where a report is asked for, that there is none is an answer too.
pub(crate) fn answer_one<F: Files>(
    alloc: Global,
    app: &App,
    sources: &Sources,
    path: &str,
    asked: &FollowRequest,
    files: &F,
) -> Result<Boxed<TraceAnswer>, Refusal>
    ensures by { IfOk result (λ answer. IsAnswerAt (Reads (F.Gives files.now) F.Means) asked.now app.now
        (answered_at path.now answer)) }
    ensures kept { IfOk result (λ answer. asked.now.format ≡ None → kind_status answer.kind ≤ 1) }
    ensures fault { IfErr result (λ refusal. 2 ≤ fault_status refusal.fault) }
{
    if asked.format.is_some() {
        Ok(answer_shown(alloc, app, sources, path, asked, files)?)
    } else {
        let answer = answer_at(alloc, app, sources, path, asked, files)?;
        Ok(Boxed::new(alloc, answer)?)
    }
}
