// The command `find`.
ghost use Rattle.std.specs.Prelude.{◌≡◌, ◌≤◌, IfErr, IfOk};
ghost use Rattle.fr_outcome.specs.Checked.{fault_status};
ghost use Rattle.fr_answer.specs.Commands.{IsAnswered, IsDone, IsWritten};
ghost use Rattle.fr_inputs.specs.Inputs.{Reads};

use fr_files::{Holds, Output};
use fr_findings::{Found, find_bytes};
use fr_inputs::{Files, application, refusal_of_file, refusal_of_outputs, refusal_of_texts};
use fr_outcome::{Refusal, put};
use fr_request::{FindRequest, Request};
use std::alloc::Global;
use std::io::Write;
use std::thread::Threads;

/// Finds a certificate for the application in the file, writes it to the other file, whatever that held, prints whether one was
/// found, and gives the exit status. Where none is found, the other file stays as it is.
pub(crate) fn find<R: Threads + Sync, F: Files, O: Write>(
    rt: &R,
    alloc: Global,
    asked: &FindRequest,
    files: &mut F,
    out: &mut O,
) -> Result<u8, Refusal>
    ensures answered { IfOk result (λ status. IsAnswered (Reads (F.Gives files.old) F.Means)
        (Request.Find asked.now) status (O.contents out.old) (O.contents out.new)) }
    ensures done { IfOk result (λ status. status ≤ 1
        → IsDone (Reads (F.Gives files.old) F.Means) F.Puts (Request.Find asked.now) status files.old files.new) }
    ensures most { IfOk result (λ status. status ≤ 1) }
    ensures refused { IfErr result (λ refusal. fault_status refusal.fault ≡ 2 → out.new ≡ out.old) }
    ensures files { IsWritten (Reads (F.Gives files.old) F.Means) F.Puts (Request.Find asked.now) files.old files.new }
{
    let (path, explains) = (asked.out, asked.explains);
    let replaces = Holds::Anything;
    if let Err(fault) = files.check_outputs(&[asked.app], &[Some(Output { path, replaces })]) {
        return Err(refusal_of_outputs(alloc, &fault, explains));
    }
    let app = application(alloc, files, asked.app, explains)?;
    let found = match find_bytes(rt, alloc, &app.bytes, usize::from(asked.rounds)) {
        Ok(found) => found,
        Err(fault) => return Err(refusal_of_texts(alloc, &app.bytes, None, fault, explains)),
    };
    if let Found::Text(text) = &found {
        if let Err(fault) = files.replace(path, text.as_bytes()) {
            return Err(refusal_of_file(alloc, &fault, explains));
        }
    }
    put(found.line(), out)?;
    Ok(found.status())
}
