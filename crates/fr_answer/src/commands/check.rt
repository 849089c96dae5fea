// The command `check`.
ghost use Rattle.std.specs.Prelude.{◌≡◌, ◌≤◌, ℕ, List, IfErr, IfOk, None, Some, option_copied};
ghost use Rattle.std.specs.Option.{is_some};
ghost use Rattle.fr_outcome.specs.Checked.{fault_status};
ghost use Rattle.fr_answer.specs.Commands.{IsCheckAnswered, IsCheckOf, IsDone, IsNamedAnswer, IsNamedText};
ghost use Rattle.fr_printing.specs.Printing.{IsPaged, IsShown, PutsPage};
ghost use Rattle.fr_inputs.specs.Inputs.{Reads};

use crate::commands::list::check_list;
use crate::reading::checked_files;
use crate::ways::{MOST_STATE_BYTES, MOST_STATES, detail_in};
use fr_files::Holds;
use fr_findings::Ways;
use fr_formats::{Command, Source};
use fr_inputs::{Files, output_at};
use fr_outcome::Refusal;
use fr_printing::{PrintWays, show_found, show_outputs_refused};
use fr_request::{CheckRequest, CheckedFiles, Request, Warns};
use std::alloc::Global;
use std::io::Write;
use std::sync::Wait;
use std::thread::Threads;

/// How `check` does its work for one application.
fn ways_of(asked: &CheckRequest) -> Ways
    ensures { result.deadlock ≡ asked.now.deadlock }
{
    let detail = detail_in(asked.format, asked.detail);
    Ways {
        workers: usize::from(asked.workers),
        states: MOST_STATES,
        state_bytes: MOST_STATE_BYTES,
        deadlock: asked.deadlock,
        detail,
        places: detail.is_some() || asked.html.is_some(),
        names: detail.is_some(),
        warns: if asked.warns {
            Warns::OfAll
        } else {
            Warns::Never
        },
    }
}

/// How the answer is to be printed.
fn asked_of<'a>(asked: &CheckRequest<'a>, ways: Ways) -> PrintWays<'a>
    ensures format { result.format ≡ asked.now.format }
    ensures html { result.html ≡ asked.now.html }
{
    PrintWays {
        format: asked.format,
        html: asked.html,
        explains: ways.detail.is_some(),
        words: false,
        names: ways.names,
    }
}

/// Prints the verdict on the application and the certificate in these files, after the page's file was looked at.
fn check_looked<R: Threads + Wait + Sync, F: Files, O: Write, E: Write>(
    rt: &R,
    alloc: Global,
    app: &str,
    certificate: &str,
    asked: &CheckRequest,
    files: &mut F,
    out: &mut O,
    err: &mut E,
) -> Result<u8, Refusal>
    requires may { (path : List ℕ) → option_copied asked.now.html ≡ Some path → F.May files.old path }
    ensures answered { IfOk result (λ status. IsShown
        (IsCheckOf (Reads (F.Gives files.old) F.Means) asked.now.deadlock app.now certificate.now) asked.now.format app.now status (O.contents out.old) (O.contents out.new)) }
    ensures kept { IfOk result
        (λ status. 2 ≤ status → asked.now.format ≡ None → out.new ≡ out.old) }
    ensures most { IfOk result (λ status. status ≤ 3) }
    ensures fault { IfErr result (λ refusal. fault_status refusal.fault ≡ 3) }
    ensures files { IsPaged F.Puts (IsCheckOf (Reads (F.Gives files.old) F.Means) asked.now.deadlock app.now certificate.now)
        (option_copied asked.now.html) files.old files.new }
    ensures done { IfOk result (λ status. status ≤ 1
        → PutsPage F.Puts (IsCheckOf (Reads (F.Gives files.old) F.Means) asked.now.deadlock app.now certificate.now) status
        (option_copied asked.now.html) files.old files.new) }
{
    let ways = ways_of(asked);
    let found = checked_files(rt, alloc, files, app, certificate, ways);
    let source = Source {
        command: Command::Check,
        application: app,
        certificate: Some(certificate),
    };
    let shown = asked_of(asked, ways);
    show_found(alloc, source, found, ways.warns, shown, files, out, err)
}

/// The same, where the page's file may be written.
fn check_one<R: Threads + Wait + Sync, F: Files, O: Write, E: Write>(
    rt: &R,
    alloc: Global,
    app: &str,
    certificate: &str,
    asked: &CheckRequest,
    files: &mut F,
    out: &mut O,
    err: &mut E,
) -> Result<u8, Refusal>
    ensures answered { IfOk result (λ status. IsShown
        (IsCheckOf (Reads (F.Gives files.old) F.Means) asked.now.deadlock app.now certificate.now) asked.now.format app.now status (O.contents out.old) (O.contents out.new)) }
    ensures kept { IfOk result
        (λ status. 2 ≤ status → asked.now.format ≡ None → out.new ≡ out.old) }
    ensures most { IfOk result (λ status. status ≤ 3) }
    ensures fault { IfErr result (λ refusal. fault_status refusal.fault ≡ 3) }
    ensures files { IsPaged F.Puts (IsCheckOf (Reads (F.Gives files.old) F.Means) asked.now.deadlock app.now certificate.now)
        (option_copied asked.now.html) files.old files.new }
    ensures done { IfOk result (λ status. status ≤ 1
        → PutsPage F.Puts (IsCheckOf (Reads (F.Gives files.old) F.Means) asked.now.deadlock app.now certificate.now) status
        (option_copied asked.now.html) files.old files.new) }
{
    let output = output_at(asked.html, Holds::Page);
    if let Err(fault) = files.check_outputs(&[app, certificate], &[output]) {
        let source = Source {
            command: Command::Check,
            application: app,
            certificate: Some(certificate),
        };
        let shown = asked_of(asked, ways_of(asked));
        return show_outputs_refused(alloc, source, &fault, shown, files, out, err);
    }
    check_looked(rt, alloc, app, certificate, asked, files, out, err)
}

/// Prints the verdict on the files that are named, in the form that is asked for, and gives the exit status.
pub(crate) fn check<R: Threads + Wait + Sync, F: Files, O: Write, E: Write>(
    rt: &R,
    alloc: Global,
    asked: &CheckRequest,
    files: &mut F,
    out: &mut O,
    err: &mut E,
) -> Result<u8, Refusal>
    ensures answered { IfOk result
        (λ status. IsCheckAnswered (Reads (F.Gives files.old) F.Means) asked.now.deadlock asked.now.files asked.now.format
        (is_some asked.now.detail) status (O.contents out.old) (O.contents out.new)) }
    ensures kept { IfOk result (λ status. 2 ≤ status → IsNamedText asked.now.files asked.now.format → out.new ≡ out.old) }
    ensures refused { IfErr result (λ refusal. fault_status refusal.fault ≡ 2 → out.new ≡ out.old) }
    ensures most { IfOk result (λ status. status ≤ 3) }
    ensures files { IsPaged F.Puts (IsNamedAnswer (Reads (F.Gives files.old) F.Means) asked.now.deadlock asked.now.files)
        (option_copied asked.now.html) files.old files.new }
    ensures done { IfOk result (λ status. status ≤ 1
        → IsDone (Reads (F.Gives files.old) F.Means) F.Puts (Request.Check asked.now) status files.old files.new) }
{
    match asked.files {
        CheckedFiles::Listed(list) => check_list(rt, alloc, list, asked, files, out, err),
        CheckedFiles::One { app, certificate } => {
            check_one(rt, alloc, app, certificate, asked, files, out, err)
        }
    }
}
