// Answers as JSON.
ghost use Rattle.std.specs.Prelude.{◌≡◌, ◌++◌, IfOk, OnOk, codes, string_bytes};
ghost use Rattle.fr_formats.specs.Tokens.{listed, maybe};
ghost use Rattle.fr_formats.specs.Json.{answer_begins, answer_tokens, answered_tokens, asked_tokens, failure_tokens, json_of, lines_tokens, member_place, place_begins, place_tokens, report_begins, source_tokens, step_tokens, trace_tokens, warnings_tokens};

use crate::answer::{
    AnswerShown, Failure, PlaceShown, SourceShown, StepShown, TraceShown, WarningShown,
    greatest_status,
};
use crate::piece::Piece::{
    Array, Field, Integer, Key, Marks, MaybeField, MaybeNumber, Number, Object, Text,
};
use crate::piece::{Out, put};
use fr_request::VERSION;
use std::alloc::{AllocError, Global};

/// The version of this form.
const FORM: usize = 1;

/// Appends the begin of a point: its line of code, and where that is in the application's file.
#[tactic(auto, using(std::proofs::Common::append_assoc), unfolding(crate::specs::Json::place_begins))]
fn begin_point(out: &mut Out, place: &PlaceShown) -> Result<(), AllocError>
    ensures { OnOk result (out.new.tokens ≡ out.old.tokens ++ place_begins place.now) }
{
    put!(out; Marks("{"), Number("point", place.point), Field("actor", &place.actor),
        Number("index", place.index), Field("side", place.side.text()), Field("code", &place.code),
        MaybeNumber("line", place.line), MaybeNumber("column", place.column),
        MaybeNumber("length", place.length))
}

/// Appends the line in the source; nothing where it isn't known.
#[tactic(auto, using(std::proofs::Common::append_assoc), unfolding(crate::specs::Json::source_tokens))]
fn put_source(out: &mut Out, source: &Option<SourceShown>) -> Result<(), AllocError>
    ensures { OnOk result (out.new.tokens ≡ out.old.tokens ++ maybe source_tokens source.now) }
{
    let Some(source) = source else {
        return Ok(());
    };
    put!(out; Object("source"), Field("file", &source.file), Number("line", source.line), Marks("}"))
}

/// Appends a point.
#[tactic(auto, using(std::proofs::Common::append_assoc), unfolding(crate::specs::Json::place_tokens))]
fn put_point(out: &mut Out, place: &PlaceShown) -> Result<(), AllocError>
    ensures { OnOk result (out.new.tokens ≡ out.old.tokens ++ place_tokens place.now) }
{
    begin_point(out, place)?;
    put_source(out, &place.source)?;
    put!(out; Marks("}"))
}

/// Appends a point under this key; nothing where there is none.
fn put_place(out: &mut Out, key: &str, place: &Option<PlaceShown>) -> Result<(), AllocError>
    ensures { OnOk result (out.new.tokens ≡ out.old.tokens ++ maybe (member_place key.now) place.now) }
{
    let Some(place) = place else {
        return Ok(());
    };
    put!(out; Key(key))?;
    put_point(out, place)
}

/// Appends what fails, where something does.
#[tactic(auto, using(std::proofs::Common::append_assoc), unfolding(crate::specs::Json::failure_tokens))]
fn put_failure(out: &mut Out, failure: &Option<Failure>) -> Result<(), AllocError>
    ensures { OnOk result (out.new.tokens ≡ out.old.tokens ++ maybe failure_tokens failure.now) }
{
    let Some(failure) = failure else {
        return Ok(());
    };
    put!(out; Object("failure"), Field("rule", failure.rule), Field("text", &failure.text))?;
    put_place(out, "place", &failure.place)?;
    put_place(out, "other", &failure.other)?;
    put!(out; Marks("}"))
}

/// Appends the lines that follow a report's first.
#[tactic(auto, using(std::proofs::Common::append_assoc), unfolding(crate::specs::Json::lines_tokens))]
fn put_lines(out: &mut Out, lines: &[String]) -> Result<(), AllocError>
    ensures { OnOk result (out.new.tokens ≡ out.old.tokens ++ lines_tokens lines.now) }
{
    if lines.is_empty() {
        return Ok(());
    }
    put!(out; Array("lines"))?;
    for line in lines {
        put!(out; Text(line))?;
    }
    put!(out; Marks("]"))
}

/// Appends the warnings.
#[tactic(auto, using(std::proofs::Common::append_assoc), unfolding(crate::specs::Json::warnings_tokens))]
fn put_warnings(out: &mut Out, warnings: &[WarningShown]) -> Result<(), AllocError>
    ensures { OnOk result (out.new.tokens ≡ out.old.tokens ++ warnings_tokens warnings.now) }
{
    if warnings.is_empty() {
        return Ok(());
    }
    put!(out; Array("warnings"))?;
    for warning in warnings {
        put!(out; Text(&warning.text))?;
    }
    put!(out; Marks("]"))
}

/// Appends a step of a run.
#[tactic(auto, using(std::proofs::Common::append_assoc), unfolding(crate::specs::Json::step_tokens))]
fn put_step(out: &mut Out, step: &StepShown) -> Result<(), AllocError>
    ensures { OnOk result (out.new.tokens ≡ out.old.tokens ++ step_tokens step.now) }
{
    put!(out; Marks("{"))?;
    put_place(out, "place", &step.place)?;
    put!(out; Integer("choice", step.choice), Field("change", &step.change), Marks("}"))
}

/// Appends the steps of a run.
fn put_steps(out: &mut Out, steps: &[StepShown]) -> Result<(), AllocError>
    ensures { OnOk result (out.new.tokens ≡ out.old.tokens ++ listed (codes "steps") step_tokens steps.now) }
{
    if steps.is_empty() {
        return Ok(());
    }
    put!(out; Array("steps"))?;
    for step in steps {
        put_step(out, step)?;
    }
    put!(out; Marks("]"))
}

/// Appends the begin of an answer: the command, the application and the certificate.
#[tactic(auto, using(std::proofs::Common::append_assoc), unfolding(crate::specs::Json::asked_tokens))]
fn put_asked(out: &mut Out, answer: &AnswerShown) -> Result<(), AllocError>
    ensures { OnOk result (out.new.tokens ≡ out.old.tokens ++ asked_tokens answer.now) }
{
    put!(out; Marks("{"), Field("command", answer.command.name()), Field("application", &answer.application),
        MaybeField("certificate", answer.certificate.as_deref()))
}

/// Appends the trace that was followed; nothing where none was.
#[tactic(auto, using(std::proofs::Common::append_assoc), unfolding(crate::specs::Json::trace_tokens))]
fn put_trace(out: &mut Out, trace: &Option<TraceShown>) -> Result<(), AllocError>
    ensures { OnOk result (out.new.tokens ≡ out.old.tokens ++ maybe trace_tokens trace.now) }
{
    let Some(trace) = trace else {
        return Ok(());
    };
    put!(out; Object("trace"), Field("file", &trace.file), MaybeNumber("line", trace.line), Marks("}"))
}

/// Appends what was answered: the kind, the status, and the first line that is printed.
#[tactic(auto, using(std::proofs::Common::append_assoc), unfolding(crate::specs::Json::answered_tokens))]
fn put_answered(out: &mut Out, answer: &AnswerShown) -> Result<(), AllocError>
    ensures { OnOk result (out.new.tokens ≡ out.old.tokens ++ answered_tokens answer.now) }
{
    put!(out; Field("answer", answer.answer.name()),
        Number("status", usize::from(answer.answer.status())), Field("report", &answer.report))
}

/// Appends the begin of an answer: what was asked, the trace that was followed, and what was answered.
#[tactic(auto, using(std::proofs::Common::append_assoc), unfolding(crate::specs::Json::answer_begins))]
fn begin_answer(out: &mut Out, answer: &AnswerShown) -> Result<(), AllocError>
    ensures { OnOk result (out.new.tokens ≡ out.old.tokens ++ answer_begins answer.now) }
{
    put_asked(out, answer)?;
    put_trace(out, &answer.trace)?;
    put_answered(out, answer)
}

/// Appends an answer.
#[tactic(auto, using(std::proofs::Common::append_assoc), unfolding(crate::specs::Json::answer_tokens))]
fn put_answer(out: &mut Out, answer: &AnswerShown) -> Result<(), AllocError>
    ensures { OnOk result (out.new.tokens ≡ out.old.tokens ++ answer_tokens answer.now) }
{
    begin_answer(out, answer)?;
    put_lines(out, &answer.lines)?;
    put_warnings(out, &answer.warnings)?;
    put_failure(out, &answer.failure)?;
    put_steps(out, &answer.steps)?;
    put!(out; Marks("}"))
}

/// Appends the begin of the report with this status, up to its answers.
#[tactic(auto, using(std::proofs::Common::append_assoc), unfolding(crate::specs::Json::report_begins))]
fn begin_report(out: &mut Out, status: usize) -> Result<(), AllocError>
    ensures { OnOk result (out.new.tokens ≡ out.old.tokens ++ report_begins status) }
{
    put!(out; Marks("{"), Field("tool", "fr_check"), Field("version", VERSION), Number("form", FORM),
        Number("status", status), Array("answers"))
}

/// The answers as JSON, in this project's own form, which `docs/schema/report.schema.json` describes.
///
/// Its error is that an allocation was refused.
pub(crate) fn json_text(alloc: Global, answers: &[AnswerShown]) -> Result<String, AllocError>
    ensures { IfOk result (λ text. string_bytes text ≡ json_of answers.now) }
{
    let mut out = Out::new(alloc);
    begin_report(&mut out, usize::from(greatest_status(answers)))?;
    for answer in answers {
        put_answer(&mut out, answer)?;
    }
    put!(out; Marks("]}"))?;
    out.finish()
}
