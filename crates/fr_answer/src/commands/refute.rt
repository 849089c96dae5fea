// The command `refute`.
ghost use Rattle.std.specs.Prelude.{◌≡◌, ◌≤◌, ℕ, List, IfErr, IfOk, None, Some, option_copied};
ghost use Rattle.fr_outcome.specs.Checked.{fault_status};
ghost use Rattle.fr_answer.specs.Commands.{IsAnswered, IsDone, IsSearchAt};
ghost use Rattle.fr_printing.specs.Printing.{IsPaged};
ghost use Rattle.fr_inputs.specs.Inputs.{Reads};

use crate::reading::searched_file;
use crate::ways::mebibytes;
use fr_files::Holds;
use fr_findings::Ways;
use fr_formats::{Command, Source};
use fr_inputs::{Files, output_at};
use fr_outcome::Refusal;
use fr_printing::{PrintWays, show_found, show_outputs_refused};
use fr_request::{Detail, RefuteRequest, Request, Warns};
use std::alloc::Global;
use std::io::Write;
use std::thread::Threads;

/// How `refute` does its work.
fn ways_of(asked: &RefuteRequest) -> Ways
    ensures { result.deadlock ≡ asked.now.deadlock }
{
    let detail = asked.explains.then_some(Detail::Relevant);
    Ways {
        workers: usize::from(asked.workers),
        states: asked.states as usize,
        state_bytes: mebibytes(asked.memory),
        deadlock: asked.deadlock,
        detail,
        places: asked.explains || asked.format.is_some() || asked.html.is_some(),
        names: true,
        warns: Warns::Never,
    }
}

/// How the answer is to be printed.
fn asked_of<'a>(asked: &RefuteRequest<'a>) -> PrintWays<'a>
    ensures format { result.format ≡ asked.now.format }
    ensures html { result.html ≡ asked.now.html }
{
    PrintWays {
        format: asked.format,
        html: asked.html,
        explains: asked.explains,
        words: true,
        names: true,
    }
}

/// The file that is named, as reports show it.
fn source_of<'a>(asked: &RefuteRequest<'a>) -> Source<'a>
    ensures { result.application.now ≡ asked.now.app.now }
{
    Source {
        command: Command::Refute,
        application: asked.app,
        certificate: None,
    }
}

/// The same as `refute`, after the page's file was looked at.
fn refute_looked<R: Threads + Sync, F: Files, O: Write, E: Write>(
    rt: &R,
    alloc: Global,
    asked: &RefuteRequest,
    files: &mut F,
    out: &mut O,
    err: &mut E,
) -> Result<u8, Refusal>
    requires may { (path : List ℕ) → option_copied asked.now.html ≡ Some path → F.May files.old path }
    ensures answered { IfOk result (λ status. IsAnswered (Reads (F.Gives files.old) F.Means)
        (Request.Refute asked.now) status (O.contents out.old) (O.contents out.new)) }
    ensures kept { IfOk result
        (λ status. 2 ≤ status → asked.now.format ≡ None → out.new ≡ out.old) }
    ensures refused { IfErr result (λ refusal. fault_status refusal.fault ≡ 3) }
    ensures most { IfOk result (λ status. status ≤ 3) }
    ensures files { IsPaged F.Puts (IsSearchAt (Reads (F.Gives files.old) F.Means) asked.now.deadlock asked.now.app.now)
        (option_copied asked.now.html) files.old files.new }
    ensures done { IfOk result (λ status. status ≤ 1
        → IsDone (Reads (F.Gives files.old) F.Means) F.Puts (Request.Refute asked.now) status files.old files.new) }
{
    let ways = ways_of(asked);
    let found = searched_file(rt, alloc, files, asked.app, ways);
    let shown = asked_of(asked);
    let source = source_of(asked);
    show_found(alloc, source, found, ways.warns, shown, files, out, err)
}

/// Prints a run of the application in the file into a breach, or that none was found, in the form that is asked for, and gives the
/// exit status. The page's file is looked at before anything is read.
pub(crate) fn refute<R: Threads + Sync, F: Files, O: Write, E: Write>(
    rt: &R,
    alloc: Global,
    asked: &RefuteRequest,
    files: &mut F,
    out: &mut O,
    err: &mut E,
) -> Result<u8, Refusal>
    ensures answered { IfOk result (λ status. IsAnswered (Reads (F.Gives files.old) F.Means)
        (Request.Refute asked.now) status (O.contents out.old) (O.contents out.new)) }
    ensures kept { IfOk result
        (λ status. 2 ≤ status → asked.now.format ≡ None → out.new ≡ out.old) }
    ensures refused { IfErr result (λ refusal. fault_status refusal.fault ≡ 3) }
    ensures most { IfOk result (λ status. status ≤ 3) }
    ensures files { IsPaged F.Puts (IsSearchAt (Reads (F.Gives files.old) F.Means) asked.now.deadlock asked.now.app.now)
        (option_copied asked.now.html) files.old files.new }
    ensures done { IfOk result (λ status. status ≤ 1
        → IsDone (Reads (F.Gives files.old) F.Means) F.Puts (Request.Refute asked.now) status files.old files.new) }
{
    let html = output_at(asked.html, Holds::Page);
    if let Err(fault) = files.check_outputs(&[asked.app], &[html]) {
        let (source, shown) = (source_of(asked), asked_of(asked));
        return show_outputs_refused(alloc, source, &fault, shown, files, out, err);
    }
    refute_looked(rt, alloc, asked, files, out, err)
}
