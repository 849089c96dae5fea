// The files that `follow` writes: the run that was found for a trace, and the page of the answer to it.
ghost use Rattle.std.specs.Prelude.{◌≡◌, ◌≤◌, ◌⊎◌, ℕ, List, IfErr, IfOk, Some, option_copied, option_map, string_bytes};
ghost use Rattle.fr_outcome.specs.Checked.{fault_status};
ghost use Rattle.fr_traces.specs.Traces.{PutsAnswerOf, PutsRun, PutsSomeOf, PutsTrailPage};

use crate::page::trail_page;
use fr_files::Holds;
use fr_inputs::{Files, output_at, refusal_of_file, refusal_of_outputs};
use fr_outcome::{Boxed, CheckFault, Refusal};
use fr_program::App;
use fr_request::FollowRequest;
use fr_trail::TraceAnswer;
use std::alloc::Global;

/// The word that asks for a file, if one is named and there are several traces: such a file is for one trace.
fn word_for_one(asked: &FollowRequest) -> Option<&'static str> {
    if asked.traces.len() <= 1 {
        return None;
    }
    match (asked.run, asked.html) {
        (Some(_), _) => Some("--run"),
        (None, Some(_)) => Some("--html"),
        (None, None) => None,
    }
}

/// Looks at the files for the run and for the page, where they are named: they are written for one trace alone.
pub(crate) fn look_at_outputs<F: Files>(
    alloc: Global,
    asked: &FollowRequest,
    files: &F,
) -> Result<(), Refusal>
    ensures run { IfOk result (λ _. (path : List ℕ) → option_copied asked.now.run ≡ Some path → F.May files.now path) }
    ensures html { IfOk result (λ _. (path : List ℕ) → option_copied asked.now.html ≡ Some path → F.May files.now path) }
    ensures fault { IfErr result (λ refusal. 2 ≤ fault_status refusal.fault) }
{
    if let Some(word) = word_for_one(asked) {
        let text = format!(in alloc; "refused: {word} is for one trace")?;
        return Err(Refusal::from(CheckFault::Source { text, line: None }));
    }
    let trace = asked.traces.first().copied().unwrap_or("");
    let run = output_at(asked.run, Holds::Anything);
    let html = output_at(asked.html, Holds::Page);
    match files.check_outputs(&[asked.app, trace], &[run, html]) {
        Ok(()) => Ok(()),
        Err(fault) => Err(refusal_of_outputs(alloc, &fault, asked.explains)),
    }
}

/// Writes the lines of the run that was found to the file that is named, if one is.
fn put_run<F: Files>(
    alloc: Global,
    asked: &FollowRequest,
    run: &Option<String>,
    files: &mut F,
) -> Result<(), Refusal>
    requires may { (path : List ℕ) → option_copied asked.now.run ≡ Some path → F.May files.old path }
    ensures may { (other : List ℕ) → F.May files.old other → F.May files.new other }
    ensures put { (files.new ≡ files.old)
        ⊎ PutsRun F.Puts (option_copied asked.now.run) (option_map string_bytes run.now) files.old files.new }
    ensures done { IfOk result (λ _. PutsRun F.Puts (option_copied asked.now.run) (option_map string_bytes run.now) files.old files.new) }
    ensures fault { IfErr result (λ refusal. fault_status refusal.fault ≡ 3) }
{
    let Some(path) = asked.run else {
        return Ok(());
    };
    let Some(text) = run else {
        return Ok(());
    };
    match files.replace(path, text.as_bytes()) {
        Ok(()) => Ok(()),
        Err(fault) => Err(refusal_of_file(alloc, &fault, asked.explains)),
    }
}

/// Writes the page of the answer to the file that is named, if one is.
fn put_page<F: Files>(
    alloc: Global,
    asked: &FollowRequest,
    app: &App,
    text: &[u8],
    answer: &TraceAnswer,
    files: &mut F,
) -> Result<(), Refusal>
    requires may { (path : List ℕ) → option_copied asked.now.html ≡ Some path → F.May files.old path }
    ensures put { (files.new ≡ files.old)
        ⊎ PutsTrailPage F.Puts (option_copied asked.now.html) answer.now.kind (string_bytes answer.now.line) files.old files.new }
    ensures done { IfOk result (λ _. PutsTrailPage F.Puts (option_copied asked.now.html) answer.now.kind (string_bytes answer.now.line)
        files.old files.new) }
    ensures fault { IfErr result (λ refusal. fault_status refusal.fault ≡ 3) }
{
    let Some(path) = asked.html else {
        return Ok(());
    };
    let trace = asked.traces.first().copied().unwrap_or("");
    let command = format!(in alloc; "follow {} {trace}", asked.app)?;
    let page = trail_page(alloc, app, text, command, answer)?;
    match files.replace(path, page.as_bytes()) {
        Ok(()) => Ok(()),
        Err(fault) => Err(refusal_of_file(alloc, &fault, asked.explains)),
    }
}

/// Writes the run that was found, and the page of the answer, to the files that are named for them; nothing where there are several answers.
pub(crate) fn put_outputs<F: Files>(
    alloc: Global,
    asked: &FollowRequest,
    app: &App,
    text: &[u8],
    answer: &Option<Boxed<TraceAnswer>>,
    files: &mut F,
) -> Result<(), Refusal>
    requires run { (path : List ℕ) → option_copied asked.now.run ≡ Some path → F.May files.old path }
    requires html { (path : List ℕ) → option_copied asked.now.html ≡ Some path → F.May files.old path }
    ensures put { PutsSomeOf F.Puts asked.now answer.now files.old files.new }
    ensures done { IfOk result (λ _. PutsAnswerOf F.Puts asked.now answer.now files.old files.new) }
    ensures fault { IfErr result (λ refusal. fault_status refusal.fault ≡ 3) }
{
    let Some(answer) = answer else {
        return Ok(());
    };
    let answer = answer.get();
    put_run(alloc, asked, &answer.run, files)?;
    put_page(alloc, asked, app, text, answer, files)
}
