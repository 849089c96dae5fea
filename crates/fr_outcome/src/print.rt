// What is written: a text, a report, and how a path begins a line.
ghost use Rattle.std.specs.Prelude.{◌≡◌, ℕ, List, IfErr, IfOk, string_bytes};
ghost use Rattle.std.specs.Io.KnownBytes.{Appends};
ghost use Rattle.fr_formats.specs.Reports.{IsReport};
ghost use Rattle.fr_outcome.specs.Checked.{fault_status};
ghost use Rattle.fr_outcome.specs.Heading.{heading};

use crate::fault::CheckFault;
use fr_escape::push_plain;
use fr_formats::{AnswerShown, answers_text};
use fr_request::Format;
use std::alloc::{AllocError, Global};
use std::io::Write;

/// Writes a text, whole. Its error is that the writer failed; what was written then is open.
pub fn put<W: Write>(text: &str, writer: &mut W) -> Result<(), CheckFault>
    ensures put { IfOk result (λ _. Appends (W.contents writer.old) (W.contents writer.new) text.now) }
    ensures fault { IfErr result (λ fault. fault ≡ CheckFault.Write) }
{
    match writer.write_all(text.as_bytes()) {
        Ok(()) => Ok(()),
        Err(_) => Err(CheckFault::Write),
    }
}

/// Writes a report of these answers in this form. Its error is that the writer failed, or that an allocation was refused.
pub fn put_report<O: Write>(
    alloc: Global,
    format: Format,
    answers: &[AnswerShown],
    out: &mut O,
) -> Result<(), CheckFault>
    ensures report { IfOk result (λ _. (text : List ℕ) × IsReport format answers.now text × Appends (O.contents out.old) (O.contents out.new) text) }
    ensures fault { IfErr result (λ fault. fault_status fault ≡ 3) }
{
    put(&answers_text(alloc, format, answers)?, out)
}

/// How a path begins a line: as a text without control characters, and never as `::`, which build servers take for a command.
/// Its error is that an allocation was refused.
pub fn heading(alloc: Global, path: &str) -> Result<String, AllocError>
    ensures { IfOk result (λ text. string_bytes text ≡ heading path.now) }
{
    let is_command = path.as_bytes().starts_with(b"::");
    let mut text = String::from_str(alloc, if is_command { "./" } else { "" })?;
    push_plain(&mut text, path)?;
    text.push_str(": ")?;
    Ok(text)
}
