// The one entry, and the commands: from what the words ask for to the exit status.
ghost use Rattle.std.specs.Prelude.{◌≡◌, ◌≤◌, ◌⊎◌, IfErr, IfOk};
ghost use Rattle.fr_outcome.specs.Checked.{fault_status};
ghost use Rattle.fr_answer.specs.Commands.{AreSafe, IsAnswered, IsDone, IsText, IsWritten};
ghost use Rattle.fr_inputs.specs.Inputs.{Reads};

mod check;
mod find;
mod list;
mod points;
mod prove;
mod refute;
mod run_files;
mod translate;

use check::check;
use find::find;
use fr_inputs::Files;
use fr_outcome::Refusal;
use fr_printing::refuse;
use fr_request::Request;
use fr_traces::follow_traces;
use points::points;
use prove::prove;
use refute::refute;
use run_files::run_files;
use std::alloc::Global;
use std::io::Write;
use std::sync::Wait;
use std::thread::Threads;
use translate::translate;

/// Does what is asked for, and gives the exit status; or why that can't be done.
fn answered<R: Threads + Wait + Sync, F: Files, O: Write, E: Write>(
    rt: &R,
    alloc: Global,
    request: &Request,
    files: &mut F,
    out: &mut O,
    err: &mut E,
) -> Result<u8, Refusal>
    ensures answered { IfOk result
        (λ status. IsAnswered (Reads (F.Gives files.old) F.Means) request.now status (O.contents out.old) (O.contents out.new)) }
    ensures safe { IfOk result (λ status. status ≡ 0 → AreSafe (Reads (F.Gives files.old) F.Means) request.now) }
    ensures done { IfOk result (λ status. status ≤ 1
        → IsDone (Reads (F.Gives files.old) F.Means) F.Puts request.now status files.old files.new) }
    ensures kept { IfOk result (λ status. 2 ≤ status → IsText request.now → out.new ≡ out.old) }
    ensures refused { IfErr result (λ refusal. fault_status refusal.fault ≡ 2 → out.new ≡ out.old) }
    ensures most { IfOk result (λ status. status ≤ 3) }
    ensures files { IsWritten (Reads (F.Gives files.old) F.Means) F.Puts request.now files.old files.new }
{
    match request {
        Request::Check(asked) => check(rt, alloc, asked, files, out, err),
        Request::Find(asked) => find(rt, alloc, asked, files, out),
        Request::Prove(asked) => prove(rt, alloc, asked, files, out, err),
        Request::Points { app, explains } => points(alloc, app, *explains, files, out),
        Request::Refute(asked) => refute(rt, alloc, asked, files, out, err),
        Request::Run(asked) => run_files(rt, alloc, asked, files, out),
        Request::Translate(asked) => translate(alloc, asked, files, out, err),
        Request::Follow(asked) => follow_traces(alloc, asked, files, out),
    }
}

/// Does what is asked for: reads the files that the request names, prints the answer to `out` and what goes beside it to `err`, writes
/// the files that are asked for, and gives the exit status.
///
/// It is 0 for `check`, `prove`, `refute` and `run` only where each application that is named breaks none of the twelve rules in any
/// state of any run, and where that is asked is never deadlocked: for a list, each of its lines. Where a file's name ends in `.frc`, the
/// application is the one that the source in it means. It is 1 where that isn't shown; for `find`, where no certificate was found. It is 2
/// where the words, a file or an output is refused. Then either the answer was written all the same, as a report that says what is refused,
/// or as the lines of a list, of which each is answered; or nothing was written to `out`, and `err` says why. So it is where the answer is a
/// text for a person about one application. It is 3 where the machine failed: what was written then is open, unless it is such an answer.
///
/// A file is replaced only by a certificate on which the verdict is yes, by a page, by the certificate that `find` was asked for, by the
/// application that a source means, or by the run that was found for a trace. With 0 or 1 all of these that are asked for were written, and
/// are those of the answer with this status; for `find` and `translate` with 0.
pub fn run<R: Threads + Wait + Sync, F: Files, O: Write, E: Write>(
    rt: &R,
    alloc: Global,
    request: &Request,
    files: &mut F,
    out: &mut O,
    err: &mut E,
) -> u8
    ensures answered { IsAnswered (Reads (F.Gives files.old) F.Means) request.now result (O.contents out.old) (O.contents out.new)
        ⊎ (2 ≤ result × (result ≡ 2 → out.new ≡ out.old)) }
    ensures safe { result ≡ 0 → AreSafe (Reads (F.Gives files.old) F.Means) request.now }
    ensures done { result ≤ 1 → IsDone (Reads (F.Gives files.old) F.Means) F.Puts request.now result files.old files.new }
    ensures kept { result ≡ 2 → IsText request.now → out.new ≡ out.old }
    ensures most { result ≤ 3 }
    ensures files { IsWritten (Reads (F.Gives files.old) F.Means) F.Puts request.now files.old files.new }
{
    match answered(rt, alloc, request, files, out, err) {
        Ok(status) => status,
        Err(refusal) => refuse(alloc, refusal, err),
    }
}
