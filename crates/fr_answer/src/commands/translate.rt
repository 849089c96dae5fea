// The command `translate`.
ghost use Rattle.std.specs.Prelude.{◌≡◌, ◌≤◌, ◌⊎◌, IfErr, IfOk, None, string_bytes};
ghost use Rattle.fr_outcome.specs.Checked.{fault_status};
ghost use Rattle.fr_answer.specs.Commands.{IsAnswered, IsApplication, IsDone, IsTranslated, IsWritten, PutsTranslated};
ghost use Rattle.fr_inputs.specs.Inputs.{AsSource, Reads};

use fr_files::{Holds, Output};
use fr_inputs::{Files, refusal_of_file, refusal_of_outputs, translation};
use fr_outcome::{CheckFault, DONE, Refusal, put};
use fr_reader::read_app;
use fr_request::{Request, TranslateRequest};
use fr_source::{Message, Translation};
use std::alloc::{AllocError, Global};
use std::io::Write;

/// The application that the source in this file means, which is read as one.
fn application<F: Files>(
    alloc: Global,
    asked: &TranslateRequest,
    files: &F,
) -> Result<Translation, Refusal>
    ensures reads { IfOk result
        (λ found. Reads (F.Gives files.now) F.Means AsSource asked.now.source.now (string_bytes found.text)) }
    ensures means { IfOk result (λ found. IsApplication (string_bytes found.text)) }
    ensures fault { IfErr result (λ refusal. 2 ≤ fault_status refusal.fault) }
{
    let found = translation(alloc, files, asked.source, true)?;
    match read_app(alloc, found.text.as_bytes()) {
        Ok(_) => Ok(found),
        Err(fault) => Err(Refusal::from(CheckFault::from(fault))),
    }
}

/// What is printed of a place in the source: what is to be said of it, and the line with a mark.
fn message_text(alloc: Global, path: &str, message: &Message) -> Result<String, AllocError> {
    let report = message.report(alloc, path)?;
    let [line, mark] = message.excerpt(alloc)?;
    format!(in alloc; "{report}\n  {line}\n  {mark}\n")
}

/// Prints on standard error what is never reached in the source, and left out.
fn warn<E: Write>(
    alloc: Global,
    path: &str,
    warnings: &[Message],
    err: &mut E,
) -> Result<(), CheckFault>
    ensures { IfErr result (λ fault. fault_status fault ≡ 3) }
{
    for warning in warnings {
        put(&message_text(alloc, path, warning)?, err)?;
    }
    Ok(())
}

/// Writes the application that a source means to a file, whatever that held.
fn write_to<F: Files, E: Write>(
    alloc: Global,
    asked: &TranslateRequest,
    path: &str,
    files: &mut F,
    err: &mut E,
) -> Result<(), Refusal>
    ensures done { IfOk result (λ _. PutsTranslated (Reads (F.Gives files.old) F.Means) F.Puts asked.now.source.now path.now files.old files.new) }
    ensures kept { IfErr result (λ _. (files.new ≡ files.old)
        ⊎ PutsTranslated (Reads (F.Gives files.old) F.Means) F.Puts asked.now.source.now path.now files.old files.new) }
{
    let replaces = Holds::Anything;
    if let Err(fault) = files.check_outputs(&[asked.source], &[Some(Output { path, replaces })]) {
        return Err(refusal_of_outputs(alloc, &fault, true));
    }
    let found = application(alloc, asked, files)?;
    if let Err(fault) = files.replace(path, found.text.as_bytes()) {
        return Err(refusal_of_file(alloc, &fault, true));
    }
    warn(alloc, asked.source, &found.warnings, err)?;
    Ok(())
}

/// Prints the application that a source means.
fn print<F: Files, O: Write, E: Write>(
    alloc: Global,
    asked: &TranslateRequest,
    files: &F,
    out: &mut O,
    err: &mut E,
) -> Result<(), Refusal>
    ensures printed { IfOk result
        (λ _. IsTranslated (Reads (F.Gives files.now) F.Means) asked.now.source.now None (O.contents out.old) (O.contents out.new)) }
    ensures refused { IfErr result (λ refusal. fault_status refusal.fault ≡ 2 → out.new ≡ out.old) }
{
    let found = application(alloc, asked, files)?;
    put(&found.text, out)?;
    warn(alloc, asked.source, &found.warnings, err)?;
    Ok(())
}

/// Translates the source in a file into the text of an application, writes that to the other file, whatever it held, or prints it, and
/// gives the exit status. What is written is an application: it is read as one first.
pub(crate) fn translate<F: Files, O: Write, E: Write>(
    alloc: Global,
    asked: &TranslateRequest,
    files: &mut F,
    out: &mut O,
    err: &mut E,
) -> Result<u8, Refusal>
    ensures answered { IfOk result (λ status. IsAnswered (Reads (F.Gives files.old) F.Means)
        (Request.Translate asked.now) status (O.contents out.old) (O.contents out.new)) }
    ensures done { IfOk result (λ status. status ≤ 1
        → IsDone (Reads (F.Gives files.old) F.Means) F.Puts (Request.Translate asked.now) status files.old files.new) }
    ensures refused { IfErr result (λ refusal. fault_status refusal.fault ≡ 2 → out.new ≡ out.old) }
    ensures files { IsWritten (Reads (F.Gives files.old) F.Means) F.Puts (Request.Translate asked.now) files.old files.new }
{
    match asked.out {
        Some(path) => write_to(alloc, asked, path, files, err)?,
        None => print(alloc, asked, files, out, err)?,
    }
    Ok(DONE)
}
