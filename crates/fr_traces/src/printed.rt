// The answers to traces as they are printed.
ghost use Rattle.std.specs.Prelude.{◌≡◌, ◌≤◌, ◌++◌, ◌∷◌, [], IfErr, IfOk, None, Some, codes, false, map, option_map, string_bytes, true};
ghost use Rattle.std.specs.Io.KnownBytes.{Appends};
ghost use Rattle.fr_formats.specs.Answers.{status_of as kind_status};
ghost use Rattle.fr_wording.specs.Lines.{lines_text};
ghost use Rattle.fr_outcome.specs.Checked.{fault_status};
ghost use Rattle.fr_outcome.specs.Each.{Each, IsAdded};
ghost use Rattle.fr_inputs.specs.Inputs.{Reads};
ghost use Rattle.fr_traces.specs.Traces.{AreTraces, AreTracesPrinted, ShowsTrace, answered_at, text_at};

use crate::answers::answer_shown;
use fr_formats::{AnswerShown, Command, Source, TraceShown};
use fr_inputs::Files;
use fr_outcome::{CheckFault, copied_lines, heading, put, put_report};
use fr_program::App;
use fr_request::{FollowRequest, Format};
use fr_trail::{Coverage, TraceAnswer};
use fr_wording::text_of;
use std::alloc::{AllocError, Global};
use std::io::Write;
use std::slice;

/// The text of an answer: its line, and those that explain it.
fn answer_text(alloc: Global, answer: &TraceAnswer) -> Result<String, AllocError>
    ensures { IfOk result (λ text. string_bytes text ≡ string_bytes answer.now.line ++ (codes "\n" ++ lines_text answer.now.why.items)) }
{
    let (line, more) = (&answer.line, text_of(alloc, &answer.why)?);
    format!(in alloc; "{line}\n{more}")
}

/// The answer to the trace in this file as reports show it.
fn trace_shown(
    alloc: Global,
    path: &str,
    answer: &TraceAnswer,
    asked: &FollowRequest,
) -> Result<AnswerShown, AllocError>
    ensures application { IfOk result (λ shown. string_bytes shown.application ≡ asked.now.app.now) }
    ensures trace { IfOk result (λ shown. option_map (λ trace. string_bytes trace.file) shown.trace ≡ Some path.now) }
    ensures kind { IfOk result (λ shown. shown.answer ≡ answer.now.kind) }
    ensures line { IfOk result (λ shown. string_bytes shown.report ≡ string_bytes answer.now.line) }
    ensures lines { IfOk result (λ shown. lines_text shown.lines.items ≡ lines_text answer.now.why.items) }
{
    let source = Source {
        command: Command::Follow,
        application: asked.app,
        certificate: None,
    };
    let trace = TraceShown {
        file: String::from_str(alloc, path)?,
        line: answer.stop,
    };
    let lines = copied_lines(alloc, &answer.why)?;
    let mut shown = AnswerShown::new(alloc, source, answer.kind, answer.line.clone()?)?;
    shown.trace = Some(trace);
    shown.lines = lines;
    Ok(shown)
}

/// Prints a report of the answer to the trace in this file.
fn report_one<O: Write>(
    alloc: Global,
    path: &str,
    answer: &TraceAnswer,
    format: Format,
    asked: &FollowRequest,
    out: &mut O,
) -> Result<(), CheckFault>
    ensures printed { IfOk result (λ _. AreTracesPrinted (Some format) asked.now.app.now false (O.contents out.old) (O.contents out.new)
        (answered_at path.now answer.now ∷ [])) }
    ensures fault { IfErr result (λ fault. fault_status fault ≡ 3) }
{
    let shown = trace_shown(alloc, path, answer, asked)?;
    put_report(alloc, format, slice::from_ref(&shown), out)
}

/// Prints the answer to the trace in this file: its text, or a report of it.
pub(crate) fn print_one<O: Write>(
    alloc: Global,
    path: &str,
    answer: &TraceAnswer,
    asked: &FollowRequest,
    out: &mut O,
) -> Result<(), CheckFault>
    ensures printed { IfOk result (λ _. AreTracesPrinted asked.now.format asked.now.app.now false (O.contents out.old) (O.contents out.new)
        (answered_at path.now answer.now ∷ [])) }
    ensures fault { IfErr result (λ fault. fault_status fault ≡ 3) }
{
    match asked.format {
        None => put(&answer_text(alloc, answer)?, out),
        Some(format) => report_one(alloc, path, answer, format, asked, out),
    }
}

/// Prints an answer after the path of its trace, and adds what its run has shown; gives its exit status.
fn print_after<O: Write>(
    alloc: Global,
    app: &App,
    path: &str,
    answer: &TraceAnswer,
    coverage: &mut Coverage,
    out: &mut O,
) -> Result<u8, CheckFault>
    ensures printed { IfOk result
        (λ _. Appends (O.contents out.old) (O.contents out.new) (text_at true (answered_at path.now answer.now))) }
    ensures status { IfOk result (λ status. status ≡ kind_status answer.now.kind) }
    ensures fault { IfErr result (λ fault. fault_status fault ≡ 3) }
{
    let (heading, text) = (heading(alloc, path)?, answer_text(alloc, answer)?);
    put(&format!(in alloc; "{heading}{text}")?, out)?;
    coverage.add(alloc, app, answer)?;
    Ok(answer.kind.status())
}

/// Answers each trace and prints that when it is answered; gives the greatest exit status.
fn print_each<F: Files, O: Write>(
    alloc: Global,
    app: &App,
    paths: &[&str],
    asked: &FollowRequest,
    coverage: &mut Coverage,
    files: &F,
    out: &mut O,
) -> Result<u8, CheckFault>
    ensures answered { IfOk result (λ status. AreTraces (Reads (F.Gives files.now) F.Means) asked.now app.now (map (λ s. s.now) paths.now) status
        (AreTracesPrinted None asked.now.app.now true (O.contents out.old) (O.contents out.new))) }
    ensures most { IfOk result (λ status. status ≤ 3) }
    ensures fault { IfErr result (λ fault. fault_status fault ≡ 3) }
{
    let mut greatest = 0u8;
    for path in paths {
        let answer = answer_shown(alloc, app, &coverage.sources, *path, asked, files)?;
        let status = print_after(alloc, app, *path, answer.get(), coverage, out)?;
        greatest = greatest.max(status);
    }
    Ok(greatest)
}

/// Adds the answer to the trace in this file as reports show it, and gives its exit status.
fn add_trace(
    alloc: Global,
    path: &str,
    answer: &TraceAnswer,
    asked: &FollowRequest,
    answers: &mut Vec<AnswerShown>,
) -> Result<u8, AllocError>
    ensures added { IfOk result
        (λ _. IsAdded (ShowsTrace asked.now.app.now (answered_at path.now answer.now)) answers.old.items answers.new.items) }
    ensures status { IfOk result (λ status. status ≡ kind_status answer.now.kind) }
{
    answers.push(trace_shown(alloc, path, answer, asked)?)?;
    Ok(answer.kind.status())
}

/// The answers to all traces as reports show them, and the greatest exit status.
fn shown_each<F: Files>(
    alloc: Global,
    app: &App,
    paths: &[&str],
    asked: &FollowRequest,
    coverage: &Coverage,
    files: &F,
) -> Result<(Vec<AnswerShown>, u8), AllocError>
    ensures answered { IfOk result (λ r. AreTraces (Reads (F.Gives files.now) F.Means) asked.now app.now (map (λ s. s.now) paths.now) r.1
        (λ answers. Each (ShowsTrace asked.now.app.now) answers r.0.items)) }
    ensures most { IfOk result (λ r. r.1 ≤ 3) }
{
    let (mut answers, mut greatest) = (Vec::new(alloc), 0u8);
    for path in paths {
        let answer = answer_shown(alloc, app, &coverage.sources, *path, asked, files)?;
        let status = add_trace(alloc, *path, answer.get(), asked, &mut answers)?;
        greatest = greatest.max(status);
    }
    Ok((answers, greatest))
}

/// Answers each trace, and prints a report of all answers in this form; gives the greatest exit status.
fn report_each<F: Files, O: Write>(
    alloc: Global,
    app: &App,
    paths: &[&str],
    format: Format,
    asked: &FollowRequest,
    coverage: &Coverage,
    files: &F,
    out: &mut O,
) -> Result<u8, CheckFault>
    ensures answered { IfOk result (λ status. AreTraces (Reads (F.Gives files.now) F.Means) asked.now app.now (map (λ s. s.now) paths.now) status
        (AreTracesPrinted (Some format) asked.now.app.now true (O.contents out.old) (O.contents out.new))) }
    ensures most { IfOk result (λ status. status ≤ 3) }
    ensures fault { IfErr result (λ fault. fault_status fault ≡ 3) }
{
    let (answers, status) = shown_each(alloc, app, paths, asked, coverage, files)?;
    put_report(alloc, format, &answers, out)?;
    Ok(status)
}

/// Answers several traces and prints the answers, each after its path, or a report of all; gives the greatest exit status.
pub(crate) fn print_several<F: Files, O: Write>(
    alloc: Global,
    app: &App,
    paths: &[&str],
    asked: &FollowRequest,
    coverage: &mut Coverage,
    files: &F,
    out: &mut O,
) -> Result<u8, CheckFault>
    ensures answered { IfOk result (λ status. AreTraces (Reads (F.Gives files.now) F.Means) asked.now app.now (map (λ s. s.now) paths.now) status
        (AreTracesPrinted asked.now.format asked.now.app.now true (O.contents out.old) (O.contents out.new))) }
    ensures most { IfOk result (λ status. status ≤ 3) }
    ensures fault { IfErr result (λ fault. fault_status fault ≡ 3) }
{
    match asked.format {
        None => print_each(alloc, app, paths, asked, coverage, files, out),
        Some(format) => report_each(alloc, app, paths, format, asked, coverage, files, out),
    }
}
