// An answer as a page to look at.
ghost use Rattle.std.specs.Prelude.{IfOk, string_bytes};
ghost use Rattle.fr_printing.specs.Pages.{IsPageOf};

mod points;

use fr_formats::{AnswerKind, Command};
use fr_found::Finding;
use fr_lanes::{Body, Code, empty_body, page_kind, page_with, put_actors, put_deadlock, put_run};
use fr_outcome::{Answer, What};
use fr_page::page_text;
use fr_program::App;
use points::put_judged;
use std::alloc::{AllocError, Global};

/// The words of the command with its files.
fn command_text(alloc: Global, answer: &Answer) -> Result<String, AllocError> {
    let app = &answer.application;
    match (answer.command, &answer.certificate) {
        (Command::Check, Some(certificate)) => format!(in alloc; "check {app} {certificate}"),
        (Command::Check, None) => format!(in alloc; "check {app}"),
        (Command::Prove, _) => format!(in alloc; "prove {app}"),
        (Command::Refute, _) => format!(in alloc; "refute {app}"),
        (Command::Follow, _) => format!(in alloc; "follow {app}"),
    }
}

/// Adds what a search found below the actors: a run into a breach or a deadlock, step by step.
fn put_found(
    alloc: Global,
    body: &mut Body,
    app: &App,
    code: &Code,
    found: &Finding,
) -> Result<(), AllocError> {
    put_actors(alloc, body, app, code)?;
    match found {
        Finding::Breach(run) => put_run(alloc, body, app, code, &run.steps, run.actor, run.rule),
        Finding::Deadlock(run) => put_deadlock(alloc, body, app, code, &run.steps, &run.cycle),
        _ => Ok(()),
    }
}

/// Adds what the page shows below the answer: the actors side by side, with a certificate what each note says, which points fail
/// and which are never reached; with a run into a breach the run, step by step; and where a text is refused, where.
fn put_below(
    alloc: Global,
    body: &mut Body,
    answer: &Answer,
    code: &Code,
) -> Result<(), AllocError> {
    let what = &answer.what;
    match what {
        What::Judged(judged) => {
            let judged = judged.get();
            put_actors(alloc, body, judged.app(), code)?;
            let blames = matches!(answer.command, Command::Prove);
            put_judged(alloc, body, judged, code, blames)?;
            if matches!(what.kind(), AnswerKind::Yes) {
                body.details = what.second_lines(alloc)?;
            }
            Ok(())
        }
        What::Searched(searched) => {
            let searched = searched.get();
            put_found(alloc, body, &searched.app, code, &searched.found)
        }
        What::Refused(_) => {
            body.details = what.lines(alloc)?;
            Ok(())
        }
    }
}

/// What the page shows below the answer. Lines of code are as they stand in the text, with their places in the source where the
/// application was translated from one.
fn body_of(alloc: Global, answer: &Answer) -> Result<Body, AllocError> {
    let code = Code::of(alloc, &answer.text)?;
    let mut body = empty_body(alloc);
    put_below(alloc, &mut body, answer, &code)?;
    Ok(body)
}

/// The page of an answer, as one HTML file. Its heading is that of the answer's kind, and the line below it is the one that
/// reports show of it. Its error is that an allocation was refused.
pub fn page_of(alloc: Global, answer: &Answer) -> Result<String, AllocError>
    ensures { IfOk result (λ text. IsPageOf answer.now.what (string_bytes text)) }
{
    let (command, line) = (command_text(alloc, answer)?, answer.what.shown_line(alloc)?);
    let kind = page_kind(answer.what.kind());
    let body = body_of(alloc, answer)?;
    let page = page_with(kind, command, line, body);
    page_text(alloc, &page)
}
