// The command `check --list`: several applications, each judged as if alone.
ghost use Rattle.std.specs.Prelude.{◌≡◌, ◌≤◌, ◌++◌, ℕ, List, IfErr, IfOk, None, Some, codes, map, string_bytes};
ghost use Rattle.std.specs.Io.KnownBytes.{Appends};
ghost use Rattle.std.specs.Option.{is_some};
ghost use Rattle.fr_list.specs.Beside.{beside};
ghost use Rattle.fr_list.specs.Means.{shown as entry_of};
ghost use Rattle.fr_wording.specs.Lines.{lines_text};
ghost use Rattle.fr_outcome.specs.Answers.{first_line, what_status};
ghost use Rattle.fr_outcome.specs.Checked.{fault_status};
ghost use Rattle.fr_answer.specs.Commands.{
  AreAnswered,
  AreLinesPrinted,
  AreMore,
  IsAnswerBy,
  IsLineAdded,
  IsLineAnswer,
  IsLinePrinted,
  IsLineText,
  IsListAnswered,
};
ghost use Rattle.fr_shown.specs.Shows.{Shows};
ghost use Rattle.fr_outcome.specs.Each.{Each, IsAdded};
ghost use Rattle.fr_inputs.specs.Inputs.{Reads};

use crate::reading::{checked_files, proved_alone};
use crate::ways::{MOST_STATE_BYTES, MOST_STATES, detail_in};
use fr_findings::Ways;
use fr_formats::{AnswerShown, Command, Source};
use fr_inputs::{Files, input};
use fr_list::{Listed, MOST_LIST_BYTES, listed_in, path_beside};
use fr_outcome::{Answer, CheckFault, Refusal, What, heading, put, put_report};
use fr_printing::warn;
use fr_request::{CheckRequest, Format, Warns};
use fr_shown::{answer_to, shown_of};
use fr_wording::text_of;
use std::alloc::{AllocError, Global};
use std::io::Write;
use std::sync::Wait;
use std::thread::Threads;

/// The answer for a line that names an application alone.
fn proved_line<R: Threads + Wait + Sync, F: Files>(
    rt: &R,
    alloc: Global,
    list: &str,
    app: &str,
    ways: Ways,
    files: &F,
) -> Result<Answer, AllocError>
    ensures by { IfOk result
        (λ a. what_status a.what ≤ 1 → IsAnswerBy (Reads (F.Gives files.now) F.Means) ways.deadlock list.now (beside list.now app.now) None a.what) }
    ensures path { IfOk result (λ a. string_bytes a.application ≡ beside list.now app.now) }
{
    let app = path_beside(alloc, list, app)?;
    let found = proved_alone(rt, alloc, files, &app, ways);
    let source = Source {
        command: Command::Prove,
        application: &app,
        certificate: None,
    };
    answer_to(alloc, source, found, ways.warns)
}

/// The answer for a line that names an application and a certificate.
fn checked_line<R: Threads + Wait + Sync, F: Files>(
    rt: &R,
    alloc: Global,
    list: &str,
    app: &str,
    certificate: &str,
    ways: Ways,
    files: &F,
) -> Result<Answer, AllocError>
    ensures by { IfOk result
        (λ a. what_status a.what ≤ 1 → IsAnswerBy (Reads (F.Gives files.now) F.Means) ways.deadlock list.now (beside list.now app.now) (Some certificate.now) a.what) }
    ensures path { IfOk result (λ a. string_bytes a.application ≡ beside list.now app.now) }
{
    let (app, certificate) = (
        path_beside(alloc, list, app)?,
        path_beside(alloc, list, certificate)?,
    );
    let found = checked_files(rt, alloc, files, &app, &certificate, ways);
    let source = Source {
        command: Command::Check,
        application: &app,
        certificate: Some(&certificate),
    };
    answer_to(alloc, source, found, ways.warns)
}

/// The answer for one line of the list.
fn answer_line<R: Threads + Wait + Sync, F: Files>(
    rt: &R,
    alloc: Global,
    list: &str,
    listed: Listed,
    ways: Ways,
    files: &F,
) -> Result<Answer, AllocError>
    ensures by { IfOk result (λ a. IsLineAnswer (Reads (F.Gives files.now) F.Means) ways.deadlock list.now
        (record { entry = entry_of listed.entry; what = a.what })) }
    ensures path { IfOk result (λ a. string_bytes a.application ≡ beside list.now listed.entry.application.now) }
{
    match listed.certificate {
        Some(certificate) => {
            checked_line(
                rt,
                alloc,
                list,
                listed.application,
                certificate,
                ways,
                files,
            )
        }
        None => proved_line(rt, alloc, list, listed.application, ways, files),
    }
}

/// The lines that follow the first one: whether actors can deadlock, and the others where they are asked for.
fn more_lines(alloc: Global, what: &What, explains: bool) -> Result<Vec<String>, AllocError>
    ensures { IfOk result (λ lines. AreMore explains what.now (lines_text lines.items)) }
{
    if explains {
        what.lines(alloc)
    } else {
        what.second_lines(alloc)
    }
}

/// The answer for one line: the application's name with the first line, whether actors can deadlock, and the other lines where they are
/// asked for.
fn line_text(
    alloc: Global,
    heading: &str,
    what: &What,
    explains: bool,
) -> Result<String, AllocError>
    ensures { IfOk result (λ text. (more : List ℕ) × AreMore explains what.now more
        × (string_bytes text ≡ heading.now ++ (first_line what.now ++ (codes "\n" ++ more)))) }
{
    let line = what.line(alloc)?;
    let more = text_of(alloc, &more_lines(alloc, what, explains)?)?;
    format!(in alloc; "{heading}{line}\n{more}")
}

/// Prints the answer for one line, and warnings on standard error; gives its exit status.
fn print_line<O: Write, E: Write>(
    alloc: Global,
    answer: &Answer,
    explains: bool,
    out: &mut O,
    err: &mut E,
) -> Result<u8, CheckFault>
    ensures text { IfOk result (λ _. (text : List ℕ)
        × IsLineText explains (string_bytes answer.now.application) answer.now.what text
        × Appends (O.contents out.old) (O.contents out.new) text) }
    ensures status { IfOk result (λ status. status ≡ what_status answer.now.what) }
    ensures fault { IfErr result (λ fault. fault_status fault ≡ 3) }
{
    let heading = heading(alloc, &answer.application)?;
    put(&line_text(alloc, &heading, &answer.what, explains)?, out)?;
    warn(alloc, answer, &heading, err)?;
    Ok(answer.what.status())
}

/// Answers one line and prints that; gives its exit status.
fn print_answer<R: Threads + Wait + Sync, F: Files, O: Write, E: Write>(
    rt: &R,
    alloc: Global,
    list: &str,
    listed: Listed,
    ways: Ways,
    files: &F,
    out: &mut O,
    err: &mut E,
) -> Result<u8, CheckFault>
    ensures printed { IfOk result (IsLinePrinted (Reads (F.Gives files.now) F.Means) ways.deadlock (is_some ways.detail) list.now
        (entry_of listed.entry) (O.contents out.old) (O.contents out.new)) }
    ensures fault { IfErr result (λ fault. fault_status fault ≡ 3) }
{
    let answer = answer_line(rt, alloc, list, listed, ways, files)?;
    print_line(alloc, &answer, ways.detail.is_some(), out, err)
}

/// Answers each line and prints it when it is answered; gives the greatest exit status.
fn print_each<R: Threads + Wait + Sync, F: Files, O: Write, E: Write>(
    rt: &R,
    alloc: Global,
    list: &str,
    entries: &[Listed],
    ways: Ways,
    files: &F,
    out: &mut O,
    err: &mut E,
) -> Result<u8, CheckFault>
    ensures answered { IfOk result (λ status. AreAnswered (Reads (F.Gives files.now) F.Means) ways.deadlock list.now (map entry_of entries.now) status
        (λ lines. AreLinesPrinted None (is_some ways.detail) list.now lines (O.contents out.old) (O.contents out.new))) }
    ensures most { IfOk result (λ status. status ≤ 3) }
    ensures fault { IfErr result (λ fault. fault_status fault ≡ 3) }
{
    let mut greatest = 0u8;
    for entry in entries {
        let status = print_answer(rt, alloc, list, *entry, ways, files, out, err)?;
        greatest = greatest.max(status);
    }
    Ok(greatest)
}

/// Adds an answer as reports show it, and gives its exit status.
fn add_answer(
    alloc: Global,
    answer: &Answer,
    answers: &mut Vec<AnswerShown>,
) -> Result<u8, AllocError>
    ensures added { IfOk result
        (λ _. IsAdded (Shows (string_bytes answer.now.application) answer.now.what) answers.old.items answers.new.items) }
    ensures status { IfOk result (λ status. status ≡ what_status answer.now.what) }
{
    answers.push(shown_of(alloc, answer)?)?;
    Ok(answer.what.status())
}

/// Answers one line, adds the answer as reports show it, and gives its exit status.
fn add_line<R: Threads + Wait + Sync, F: Files>(
    rt: &R,
    alloc: Global,
    list: &str,
    listed: Listed,
    ways: Ways,
    files: &F,
    answers: &mut Vec<AnswerShown>,
) -> Result<u8, AllocError>
    ensures { IfOk result (IsLineAdded (Reads (F.Gives files.now) F.Means) ways.deadlock list.now (entry_of listed.entry) answers.old.items answers.new.items) }
{
    let answer = answer_line(rt, alloc, list, listed, ways, files)?;
    add_answer(alloc, &answer, answers)
}

/// The answers to all lines as reports show them, and the greatest exit status.
fn shown_each<R: Threads + Wait + Sync, F: Files>(
    rt: &R,
    alloc: Global,
    list: &str,
    entries: &[Listed],
    ways: Ways,
    files: &F,
) -> Result<(Vec<AnswerShown>, u8), AllocError>
    ensures answered { IfOk result (λ r. AreAnswered (Reads (F.Gives files.now) F.Means) ways.deadlock list.now (map entry_of entries.now) r.1
        (λ lines. Each (λ line shown. Shows (beside list.now line.entry.application) line.what shown) lines r.0.items)) }
    ensures most { IfOk result (λ r. r.1 ≤ 3) }
{
    let (mut answers, mut greatest) = (Vec::new(alloc), 0u8);
    for listed in entries {
        let status = add_line(rt, alloc, list, *listed, ways, files, &mut answers)?;
        greatest = greatest.max(status);
    }
    Ok((answers, greatest))
}

/// Answers each line, and prints a report of all answers in this form; gives the greatest exit status.
fn report_each<R: Threads + Wait + Sync, F: Files, O: Write>(
    rt: &R,
    alloc: Global,
    list: &str,
    entries: &[Listed],
    ways: Ways,
    format: Format,
    files: &F,
    out: &mut O,
) -> Result<u8, CheckFault>
    ensures answered { IfOk result (λ status. AreAnswered (Reads (F.Gives files.now) F.Means) ways.deadlock list.now (map entry_of entries.now) status
        (λ lines. AreLinesPrinted (Some format) (is_some ways.detail) list.now lines (O.contents out.old) (O.contents out.new))) }
    ensures most { IfOk result (λ status. status ≤ 3) }
    ensures fault { IfErr result (λ fault. fault_status fault ≡ 3) }
{
    let (answers, status) = shown_each(rt, alloc, list, entries, ways, files)?;
    put_report(alloc, format, &answers, out)?;
    Ok(status)
}

/// Judges the applications that the list names, each as if alone, prints the answers in the list's order, and gives the greatest exit
/// status. What is wrong with one of them is its own answer.
pub(super) fn check_list<R: Threads + Wait + Sync, F: Files, O: Write, E: Write>(
    rt: &R,
    alloc: Global,
    list: &str,
    asked: &CheckRequest,
    files: &F,
    out: &mut O,
    err: &mut E,
) -> Result<u8, Refusal>
    ensures answered { IfOk result (λ status. IsListAnswered (Reads (F.Gives files.now) F.Means) asked.now.deadlock list.now asked.now.format
        (is_some asked.now.detail) status (O.contents out.old) (O.contents out.new)) }
    ensures most { IfOk result (λ status. status ≤ 3) }
    ensures refused { IfErr result (λ refusal. fault_status refusal.fault ≡ 2 → out.new ≡ out.old) }
{
    let detail = detail_in(asked.format, asked.detail);
    let ways = Ways {
        workers: usize::from(asked.workers),
        states: MOST_STATES,
        state_bytes: MOST_STATE_BYTES,
        deadlock: asked.deadlock,
        detail,
        places: detail.is_some(),
        names: true,
        warns: if asked.warns {
            Warns::OfAll
        } else {
            Warns::OfNoActors
        },
    };
    let bytes = input(alloc, files, list, MOST_LIST_BYTES, true)?;
    let entries = match listed_in(alloc, &bytes) {
        Ok(entries) => entries,
        Err(fault) => return Err(Refusal::from(CheckFault::from(fault))),
    };
    match asked.format {
        None => Ok(print_each(rt, alloc, list, &entries, ways, files, out, err)?),
        Some(format) => Ok(report_each(rt, alloc, list, &entries, ways, format, files, out)?),
    }
}
