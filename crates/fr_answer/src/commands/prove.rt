// The command `prove`.
ghost use Rattle.std.specs.Prelude.{◌≡◌, ◌≤◌, ℕ, List, IfErr, IfOk, IsErr, None, Some, option_copied, string_bytes};
ghost use Rattle.fr_outcome.specs.Checked.{fault_status};
ghost use Rattle.fr_answer.specs.Commands.{IsAnswered, IsDone, IsGiven, IsWritten, PutsYes};
ghost use Rattle.fr_inputs.specs.Inputs.{Reads};

use crate::reading::proved_file;
use crate::ways::{detail_in, mebibytes};
use fr_files::Holds;
use fr_findings::Ways;
use fr_formats::{Command, Source};
use fr_inputs::{Files, output_at, refusal_of_file};
use fr_outcome::{AppText, Refusal, What};
use fr_printing::{PrintWays, show_found, show_outputs_refused};
use fr_request::{ProveRequest, Request, Warns};
use std::alloc::Global;
use std::io::Write;
use std::sync::Wait;
use std::thread::Threads;

/// What was found out, after the certificate of a yes was written to the file that is asked for; or that it can't be written.
fn kept<F: Files>(
    alloc: Global,
    found: Result<(AppText, What, String), Refusal>,
    out: Option<&str>,
    files: &mut F,
) -> Result<(AppText, What), Refusal>
    requires may { (path : List ℕ) → option_copied out ≡ Some path → F.May files.old path }
    ensures may { (path : List ℕ) → F.May files.old path → F.May files.new path }
    ensures found { IfOk result (λ r. IfOk found (λ all. r.1 ≡ all.1)) }
    ensures none { IfErr found (λ refusal. IsErr result) }
    ensures fault { IfErr found (λ refusal. 2 ≤ fault_status refusal.fault)
        → IfErr result (λ refusal. 2 ≤ fault_status refusal.fault) }
    ensures files { IfOk found
        (λ all. IsGiven F.Puts (option_copied out.entry) all.1 (string_bytes all.2) files.old files.new) }
    ensures same { IfErr found (λ _. files.new ≡ files.old) }
    ensures done { IfOk result (λ _. IfOk found
        (λ all. PutsYes F.Puts (option_copied out.entry) all.1 (string_bytes all.2) files.old files.new)) }
{
    let (text, what, certificate) = found?;
    if !what.is_yes() {
        return Ok((text, what));
    }
    let Some(path) = out else {
        return Ok((text, what));
    };
    match files.replace(path, certificate.as_bytes()) {
        Ok(()) => Ok((text, what)),
        Err(fault) => Err(refusal_of_file(alloc, &fault, true)),
    }
}

/// How `prove` does its work.
fn ways_of(asked: &ProveRequest) -> Ways
    ensures { result.deadlock ≡ asked.now.deadlock }
{
    let detail = detail_in(asked.format, asked.detail);
    Ways {
        workers: usize::from(asked.workers),
        states: asked.states as usize,
        state_bytes: mebibytes(asked.memory),
        deadlock: asked.deadlock,
        detail,
        places: detail.is_some() || asked.html.is_some(),
        names: true,
        warns: if asked.warns {
            Warns::OfAll
        } else {
            Warns::OfNoActors
        },
    }
}

/// How the answer is to be printed.
fn asked_of<'a>(asked: &ProveRequest<'a>) -> PrintWays<'a>
    ensures format { result.format ≡ asked.now.format }
    ensures html { result.html ≡ asked.now.html }
{
    PrintWays {
        format: asked.format,
        html: asked.html,
        explains: asked.detail.is_some(),
        words: false,
        names: true,
    }
}

/// The files that are named, as reports show them.
fn source_of<'a>(asked: &ProveRequest<'a>) -> Source<'a>
    ensures { result.application.now ≡ asked.now.app.now }
{
    Source {
        command: Command::Prove,
        application: asked.app,
        certificate: asked.out,
    }
}

/// The same as `prove`, after the outputs were looked at.
fn prove_looked<R: Threads + Wait + Sync, F: Files, O: Write, E: Write>(
    rt: &R,
    alloc: Global,
    asked: &ProveRequest,
    files: &mut F,
    out: &mut O,
    err: &mut E,
) -> Result<u8, Refusal>
    requires out { (path : List ℕ) → option_copied asked.now.out ≡ Some path → F.May files.old path }
    requires html { (path : List ℕ) → option_copied asked.now.html ≡ Some path → F.May files.old path }
    ensures answered { IfOk result (λ status. IsAnswered (Reads (F.Gives files.old) F.Means)
        (Request.Prove asked.now) status (O.contents out.old) (O.contents out.new)) }
    ensures kept { IfOk result
        (λ status. 2 ≤ status → asked.now.format ≡ None → out.new ≡ out.old) }
    ensures refused { IfErr result (λ refusal. fault_status refusal.fault ≡ 3) }
    ensures most { IfOk result (λ status. status ≤ 3) }
    ensures files { IsWritten (Reads (F.Gives files.old) F.Means) F.Puts (Request.Prove asked.now) files.old files.new }
    ensures done { IfOk result (λ status. status ≤ 1
        → IsDone (Reads (F.Gives files.old) F.Means) F.Puts (Request.Prove asked.now) status files.old files.new) }
{
    let ways = ways_of(asked);
    let proof = proved_file(rt, alloc, files, asked.app, asked.searches, ways);
    let found = kept(alloc, proof, asked.out, files);
    let shown = asked_of(asked);
    let source = source_of(asked);
    show_found(alloc, source, found, ways.warns, shown, files, out, err)
}

/// Prints the verdict on the application in the file by a certificate that is worked out, or a run into a breach or a deadlock, in the form
/// that is asked for, and gives the exit status. The outputs are looked at before anything is read, and the certificate is written before
/// anything is printed, where the verdict is yes.
pub(crate) fn prove<R: Threads + Wait + Sync, F: Files, O: Write, E: Write>(
    rt: &R,
    alloc: Global,
    asked: &ProveRequest,
    files: &mut F,
    out: &mut O,
    err: &mut E,
) -> Result<u8, Refusal>
    ensures answered { IfOk result (λ status. IsAnswered (Reads (F.Gives files.old) F.Means)
        (Request.Prove asked.now) status (O.contents out.old) (O.contents out.new)) }
    ensures kept { IfOk result
        (λ status. 2 ≤ status → asked.now.format ≡ None → out.new ≡ out.old) }
    ensures refused { IfErr result (λ refusal. fault_status refusal.fault ≡ 3) }
    ensures most { IfOk result (λ status. status ≤ 3) }
    ensures files { IsWritten (Reads (F.Gives files.old) F.Means) F.Puts (Request.Prove asked.now) files.old files.new }
    ensures done { IfOk result (λ status. status ≤ 1
        → IsDone (Reads (F.Gives files.old) F.Means) F.Puts (Request.Prove asked.now) status files.old files.new) }
{
    let certificate = output_at(asked.out, Holds::Certificate);
    let html = output_at(asked.html, Holds::Page);
    if let Err(fault) = files.check_outputs(&[asked.app], &[certificate, html]) {
        let (source, shown) = (source_of(asked), asked_of(asked));
        return show_outputs_refused(alloc, source, &fault, shown, files, out, err);
    }
    prove_looked(rt, alloc, asked, files, out, err)
}
