// Answers in each form that machines read.
ghost use Rattle.std.specs.Prelude.{IfOk, string_bytes};
ghost use Rattle.fr_formats.specs.Reports.{IsReport};

use crate::answer::AnswerShown;
use crate::as_json::json_text;
use crate::junit::junit_text;
use crate::sarif::sarif_text;
use fr_request::Format;
use std::alloc::{AllocError, Global};

/// The answers in this form. Its error is that an allocation was refused.
pub fn answers_text(
    alloc: Global,
    format: Format,
    answers: &[AnswerShown],
) -> Result<String, AllocError>
    ensures { IfOk result (λ text. IsReport format answers.now (string_bytes text)) }
{
    match format {
        Format::Json => json_text(alloc, answers),
        Format::Sarif => sarif_text(alloc, answers),
        Format::Junit => junit_text(alloc, answers),
    }
}
