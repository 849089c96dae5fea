// How an answer is printed, and shown as a page.
ghost use Rattle.std.specs.Prelude.{◌≡◌, ◌≤◌, ◌⊎◌, ℕ, List, IfOk, IfErr, None, Some, option_copied, string_bytes};
ghost use Rattle.std.specs.Io.KnownBytes.{Appends};
ghost use Rattle.fr_outcome.specs.Answers.{HasFound, IsTextOf, what_status};
ghost use Rattle.fr_outcome.specs.Checked.{fault_status};
ghost use Rattle.fr_printing.specs.Printing.{IsPaged, IsPrinted, IsShown, IsTextPrinted, PutsPage};

use crate::page::page_of;
use crate::ways::PrintWays;
use fr_files::OutputFault;
use fr_formats::Source;
use fr_inputs::{Files, refusal_of_file, refusal_of_outputs};
use fr_outcome::{
    Answer, AppText, Boxed, CheckFault, MACHINE, NO, REFUSED, Refusal, What, put, put_report,
};
use fr_place::is_unknown_word;
use fr_request::{Format, Warns};
use fr_shown::{answer_to, shown_of};
use fr_wording::text_of;
use std::alloc::{AllocError, Global};
use std::io::Write;
use std::slice;

/// Prints that there is no memory for the text of an answer, and gives the exit status of that.
fn say_no_memory<E: Write>(err: &mut E) -> u8
    ensures { result ≡ 3 }
{
    let _written = err.write_all(b"machine: memory\n");
    MACHINE
}

/// Prints an answer on standard error, and gives its exit status; it is 3 where there is no memory for the text, in whose place
/// `machine: memory` is printed, and where the writer failed.
fn print_whole<E: Write>(alloc: Global, what: &What, err: &mut E) -> u8
    ensures status { (result ≡ 3) ⊎ (result ≡ what_status what.now) }
    ensures printed { result ≡ 2 → (text : List ℕ) × IsTextOf what.now text × Appends (E.contents err.old) (E.contents err.new) text }
{
    let Ok(text) = what.text(alloc) else {
        return say_no_memory(err);
    };
    match err.write_all(text.as_bytes()) {
        Ok(()) => what.status(),
        Err(_) => MACHINE,
    }
}

/// Prints a refusal on standard error, its line first, and gives its exit status. Where there is no memory for its text it prints
/// `machine: memory`, and the status is 3; it is 3 too where the writer failed.
pub fn refuse<E: Write>(alloc: Global, refusal: Refusal, err: &mut E) -> u8
    ensures refused { result ≡ 2 → fault_status refusal.fault ≡ 2 }
    ensures printed { result ≡ 2 → (text : List ℕ) × IsTextOf (What.Refused refusal) text × Appends (E.contents err.old) (E.contents err.new) text }
    ensures least { 2 ≤ result }
    ensures most { result ≤ 3 }
{
    let Ok(refusal) = Boxed::new(alloc, refusal) else {
        return say_no_memory(err);
    };
    print_whole(alloc, &What::Refused(refusal), err)
}

/// Whether it is printed where a fault is: always of a file and of a source.
fn shows_place(fault: &CheckFault, asked: PrintWays) -> bool {
    match fault {
        CheckFault::File | CheckFault::Source { .. } => true,
        CheckFault::App(fault) if asked.words => asked.explains || is_unknown_word(fault),
        _ => asked.explains,
    }
}

/// What is printed of an answer without a verdict: the fault's line, and where it is.
fn refusal_text(alloc: Global, what: &What, asked: PrintWays) -> Result<String, AllocError> {
    match what {
        What::Refused(refusal) if !shows_place(&refusal.get().fault, asked) => {
            let line = what.line(alloc)?;
            format!(in alloc; "{line}\n")
        }
        _ => what.text(alloc),
    }
}

/// Prints the answer as a text for a person: a verdict on standard output, and why there is none on standard error.
fn print_text<O: Write, E: Write>(
    alloc: Global,
    what: &What,
    asked: PrintWays,
    out: &mut O,
    err: &mut E,
) -> Result<(), CheckFault>
    ensures text { IfOk result (λ _. IsTextPrinted what.now (O.contents out.old) (O.contents out.new)) }
    ensures kept { 2 ≤ what_status what.now → out.new ≡ out.old }
    ensures fault { IfErr result (λ fault. fault_status fault ≡ 3) }
{
    if what.status() <= NO {
        put(&what.text(alloc)?, out)
    } else {
        put(&refusal_text(alloc, what, asked)?, err)
    }
}

/// Prints the answer in a form that machines read.
fn print_formed<O: Write>(
    alloc: Global,
    answer: &Answer,
    format: Format,
    out: &mut O,
) -> Result<(), CheckFault>
    ensures text { IfOk result
        (λ _. IsPrinted (Some format) (string_bytes answer.now.application) answer.now.what (O.contents out.old) (O.contents out.new)) }
    ensures fault { IfErr result (λ fault. fault_status fault ≡ 3) }
{
    let shown = shown_of(alloc, answer)?;
    put_report(alloc, format, slice::from_ref(&shown), out)
}

/// Prints the answer as it is asked for.
fn print<O: Write, E: Write>(
    alloc: Global,
    answer: &Answer,
    asked: PrintWays,
    out: &mut O,
    err: &mut E,
) -> Result<(), CheckFault>
    ensures text { IfOk result
        (λ _. IsPrinted asked.entry.format (string_bytes answer.now.application) answer.now.what (O.contents out.old) (O.contents out.new)) }
    ensures kept { asked.entry.format ≡ None → 2 ≤ what_status answer.now.what → out.new ≡ out.old }
    ensures fault { IfErr result (λ fault. fault_status fault ≡ 3) }
{
    match asked.format {
        Some(format) => print_formed(alloc, answer, format, out),
        None => print_text(alloc, &answer.what, asked, out, err),
    }
}

/// Writes the page of an answer that isn't the machine's failure to the file that is asked for, if one is.
fn put_page<F: Files>(
    alloc: Global,
    answer: &Answer,
    asked: PrintWays,
    files: &mut F,
) -> Result<(), Refusal>
    requires may { (path : List ℕ) → option_copied asked.html ≡ Some path → F.May files.old path }
    ensures paged { IsPaged F.Puts (λ what. what ≡ answer.now.what) (option_copied asked.entry.html) files.old files.new }
    ensures written { IfOk result (λ _. what_status answer.now.what ≤ 2
        → PutsPage F.Puts (λ what. what ≡ answer.now.what) (what_status answer.now.what) (option_copied asked.entry.html) files.old files.new) }
    ensures fault { IfErr result (λ refusal. fault_status refusal.fault ≡ 3) }
{
    let Some(path) = asked.html else {
        return Ok(());
    };
    if answer.what.status() > REFUSED {
        return Ok(());
    }
    let text = page_of(alloc, answer)?;
    match files.replace(path, text.as_bytes()) {
        Ok(()) => Ok(()),
        Err(fault) => Err(refusal_of_file(alloc, &fault, asked.names)),
    }
}

/// Prints the warnings on standard error, each after this text.
pub fn warn<E: Write>(
    alloc: Global,
    answer: &Answer,
    before: &str,
    err: &mut E,
) -> Result<(), CheckFault>
    ensures { IfErr result (λ fault. fault_status fault ≡ 3) }
{
    for warning in &answer.warnings {
        let line = format!(in alloc; "{before}{}\n", warning.text)?;
        put(&line, err)?;
    }
    Ok(())
}

/// Prints an answer as it is asked for, writes its page where one is wanted, and gives the exit status.
pub fn show<F: Files, O: Write, E: Write>(
    alloc: Global,
    answer: &Answer,
    asked: PrintWays,
    files: &mut F,
    out: &mut O,
    err: &mut E,
) -> Result<u8, Refusal>
    requires may { (path : List ℕ) → option_copied asked.html ≡ Some path → F.May files.old path }
    ensures status { IfOk result (λ status. status ≡ what_status answer.now.what) }
    ensures text { IfOk result
        (λ status. IsPrinted asked.entry.format (string_bytes answer.now.application) answer.now.what (O.contents out.old) (O.contents out.new)) }
    ensures kept { asked.entry.format ≡ None → 2 ≤ what_status answer.now.what → out.new ≡ out.old }
    ensures paged { IsPaged F.Puts (λ what. what ≡ answer.now.what) (option_copied asked.entry.html) files.old files.new }
    ensures written { IfOk result (λ _. what_status answer.now.what ≤ 2
        → PutsPage F.Puts (λ what. what ≡ answer.now.what) (what_status answer.now.what) (option_copied asked.entry.html) files.old files.new) }
    ensures fault { IfErr result (λ refusal. fault_status refusal.fault ≡ 3) }
{
    print(alloc, answer, asked, out, err)?;
    if asked.format.is_none() {
        warn(alloc, answer, "", err)?;
        put(&text_of(alloc, &answer.notes)?, err)?;
    }
    put_page(alloc, answer, asked, files)?;
    Ok(answer.what.status())
}

/// Prints what a command found out for these files as it is asked for, writes its page where one is wanted, and gives the exit status.
pub fn show_found<F: Files, O: Write, E: Write>(
    alloc: Global,
    source: Source,
    found: Result<(AppText, What), Refusal>,
    warns: Warns,
    asked: PrintWays,
    files: &mut F,
    out: &mut O,
    err: &mut E,
) -> Result<u8, Refusal>
    requires may { (path : List ℕ) → option_copied asked.html ≡ Some path → F.May files.old path }
    ensures answered { IfOk result
        (λ status. IsShown (HasFound found) asked.entry.format source.entry.application.now status (O.contents out.old) (O.contents out.new)) }
    ensures refused { IfErr found (λ _. IfOk result (λ status. 2 ≤ status)) }
    ensures kept { IfOk result
        (λ status. 2 ≤ status → asked.entry.format ≡ None → out.new ≡ out.old) }
    ensures most { IfOk result (λ status. status ≤ 3) }
    ensures paged { IsPaged F.Puts (HasFound found) (option_copied asked.entry.html) files.old files.new }
    ensures written { IfOk result (λ status. status ≤ 2
        → PutsPage F.Puts (HasFound found) status (option_copied asked.entry.html) files.old files.new) }
    ensures fault { IfErr result (λ refusal. fault_status refusal.fault ≡ 3) }
{
    let answer = answer_to(alloc, source, found, warns)?;
    show(alloc, &answer, asked, files, out, err)
}

/// Prints that the outputs of a command are refused, and writes no page; gives the exit status.
pub fn show_outputs_refused<F: Files, O: Write, E: Write>(
    alloc: Global,
    source: Source,
    fault: &OutputFault,
    asked: PrintWays,
    files: &mut F,
    out: &mut O,
    err: &mut E,
) -> Result<u8, Refusal>
    ensures answered { IfOk result
        (λ status. IsShown (λ _. ⊥) asked.entry.format source.entry.application.now status (O.contents out.old) (O.contents out.new)) }
    ensures refused { IfOk result (λ status. 2 ≤ status) }
    ensures kept { IfOk result (λ status. asked.entry.format ≡ None → out.new ≡ out.old) }
    ensures most { IfOk result (λ status. status ≤ 3) }
    ensures same { files.new ≡ files.old }
    ensures fault { IfErr result (λ refusal. fault_status refusal.fault ≡ 3) }
{
    let found = Err(refusal_of_outputs(alloc, fault, asked.names));
    let asked = PrintWays {
        html: None,
        ..asked
    };
    show_found(alloc, source, found, Warns::Never, asked, files, out, err)
}
