// The answer to a command: what was found out, with the application's text and what is said beside it.
ghost use Rattle.std.specs.Prelude.{◌≡◌, ◌≤◌, IfErr, IfOk, string_bytes};
ghost use Rattle.fr_outcome.specs.Answers.{HasFound, what_status};
ghost use Rattle.fr_outcome.specs.declared.answer.What.TheVariants.{Refused as RefusedWhat};

use crate::hidden::said_beside;
use fr_formats::{Source, WarningShown};
use fr_outcome::{Answer, AppText, Boxed, Refusal, What};
use fr_request::Warns;
use std::alloc::{AllocError, Global};

/// What an answer has besides what was found out.
#[derive(Drop)]
struct Beside {
    application: String,
    certificate: Option<String>,
    warnings: Vec<WarningShown>,
    notes: Vec<String>,
}

impl Beside {
    /// The files as they were named, and what is said beside what was found out.
    fn of(
        alloc: Global,
        source: Source,
        what: &What,
        text: &AppText,
        warns: Warns,
    ) -> Result<Beside, AllocError>
        ensures { IfOk result (λ beside. string_bytes beside.application ≡ source.entry.application.now) }
    {
        let application = String::from_str(alloc, source.application)?;
        let certificate = match source.certificate {
            Some(path) => Some(String::from_str(alloc, path)?),
            None => None,
        };
        let (warnings, notes) = said_beside(alloc, source, what, text, warns)?;
        Ok(Beside {
            application,
            certificate,
            warnings,
            notes,
        })
    }
}

/// The answer of a command for these files: what was found out, with the application's text, or why there is no verdict.
pub fn answer_to(
    alloc: Global,
    source: Source,
    found: Result<(AppText, What), Refusal>,
    warns: Warns,
) -> Result<Answer, AllocError>
    ensures path { IfOk result (λ a. string_bytes a.application ≡ source.entry.application.now) }
    ensures what { IfOk found (λ r. IfOk result (λ a. a.what ≡ r.1)) }
    ensures fault { IfErr found (λ refusal. IfOk result (λ a. a.what ≡ RefusedWhat refusal)) }
    ensures found { IfOk result (λ a. what_status a.what ≤ 1 → HasFound found a.what) }
    ensures refused { IfErr found (λ _. IfOk result (λ a. 2 ≤ what_status a.what)) }
    ensures most { IfOk result (λ a. what_status a.what ≤ 3) }
{
    let (text, what) = match found {
        Ok(found) => found,
        Err(refusal) => (
            AppText::none(alloc),
            What::Refused(Boxed::new(alloc, refusal)?),
        ),
    };
    let beside = Beside::of(alloc, source, &what, &text, warns)?;
    Ok(Answer {
        command: source.command,
        application: beside.application,
        certificate: beside.certificate,
        text: text.bytes,
        what,
        warnings: beside.warnings,
        notes: beside.notes,
    })
}
