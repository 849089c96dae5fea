// Answers as SARIF 2.1.0 (OASIS), which code hosts and editors read.
mod flow;
mod place;

ghost use Rattle.std.specs.Prelude.{◌≡◌, ◌++◌, IfOk, OnOk, map, nat_lt, string_bytes};
ghost use Rattle.fr_formats.specs.Answers.{greatest_status as greatest};
ghost use Rattle.fr_formats.specs.Sarif.{IsSarif, added, all_notifications, artifact, error_begins, failing, failing_by, files, invocations, is_named, log, log_begins, notification, notification_of, notifications, plain_result, related, result_begins, result_of, results, results_begin, rule_of, rule_tokens, rules, warning_result, warning_results, whole_result, whole_text};

use crate::answer::{AnswerKind, AnswerShown, Failure, WarningShown, greatest_status};
use crate::ident::{Ident, idents, rule_index};
use crate::piece::Piece::{Array, Field, Flag, Marks, MaybeNumber, Message, Number, Object};
use crate::piece::{Out, put};
use flow::put_way;
use fr_request::VERSION;
use place::{file_uri, put_file, put_location, put_point};
use std::alloc::{AllocError, Global};

/// The schema of the form.
const SCHEMA: &str = "https://json.schemastore.org/sarif-2.1.0.json";

/// The exit status from which on the machine failed.
const MACHINE: u8 = 3;

/// Appends a rule, with its help.
#[tactic(auto, using(std::proofs::Common::append_assoc), unfolding(crate::specs::Sarif::rule_tokens))]
fn put_rule(out: &mut Out, ident: &Ident) -> Result<(), AllocError>
    ensures { OnOk result (out.new.tokens ≡ out.old.tokens ++ rule_tokens (rule_of ident.now)) }
{
    put!(out; Marks("{"), Field("id", ident.name), Message("shortDescription", ident.short),
        Message("fullDescription", ident.short), Message("help", ident.help), Marks("}"))
}

/// Appends all rules and parts that can fail, and the end of what the program is.
#[tactic(auto, using(std::proofs::Common::append_assoc), unfolding(crate::specs::Sarif::rules))]
fn put_rules(out: &mut Out, idents: &[Ident]) -> Result<(), AllocError>
    ensures { OnOk result (out.new.tokens ≡ out.old.tokens ++ rules (map rule_of idents.now)) }
{
    put!(out; Array("rules"))?;
    for ident in idents {
        put_rule(out, ident)?;
    }
    put!(out; Marks("]}}"))
}

/// The report's line, and the lines after it.
#[tactic(auto, using(std::proofs::Common::append_assoc), unfolding(crate::specs::Sarif::whole_text))]
fn text_of(alloc: Global, answer: &AnswerShown) -> Result<String, AllocError>
    ensures { IfOk result (λ text. string_bytes text ≡ whole_text answer.now) }
{
    let mut text = String::from_str(alloc, &answer.report)?;
    for line in &answer.lines {
        text.push('\n')?;
        text.push_str(line)?;
    }
    Ok(text)
}

/// Appends the begin of a result, up to its places.
#[tactic(auto, using(std::proofs::Common::append_assoc), unfolding(crate::specs::Sarif::result_begins))]
fn begin_result<'a>(
    out: &mut Out,
    rule: &'a str,
    level: &'a str,
    text: &'a str,
) -> Result<(), AllocError>
    ensures { OnOk result (out.new.tokens ≡ out.old.tokens ++ result_begins rule.now level.now text.now) }
{
    put!(out; Marks("{"), Field("ruleId", rule), MaybeNumber("ruleIndex", rule_index(rule)),
        Field("level", level), Message("message", text), Array("locations"))
}

/// Appends a result about the file at this path, or about the line of it that is known.
#[tactic(auto, using(std::proofs::Common::append_assoc), unfolding(crate::specs::Sarif::plain_result))]
fn put_plain(
    out: &mut Out,
    path: &str,
    line: Option<usize>,
    rule: &str,
    level: &str,
    text: &str,
) -> Result<(), AllocError>
    ensures { OnOk result (out.new.tokens ≡ out.old.tokens ++ plain_result path.now line rule.now level.now text.now) }
{
    begin_result(out, rule, level, text)?;
    put_file(out, path, line)?;
    put!(out; Marks("]}"))
}

/// Appends the result of an answer about its file, or about a line of it, which has all that the answer says.
#[tactic(auto, using(std::proofs::Common::append_assoc), unfolding(crate::specs::Sarif::whole_result))]
fn put_whole(out: &mut Out, answer: &AnswerShown, level: &str) -> Result<(), AllocError>
    ensures { OnOk result (out.new.tokens ≡ out.old.tokens ++ whole_result level.now answer.now) }
{
    let text = text_of(out.alloc, answer)?;
    let (path, line) = (answer.subject(), answer.subject_line());
    put_plain(out, path, line, answer.answer.name(), level, &text)
}

/// Appends the other point that a failure is about.
#[tactic(auto, using(std::proofs::Common::append_assoc), unfolding(crate::specs::Sarif::related))]
fn put_related(out: &mut Out, path: &str, failure: &Failure) -> Result<(), AllocError>
    ensures { OnOk result (out.new.tokens ≡ out.old.tokens ++ related path.now failure.now) }
{
    let Some(other) = &failure.other else {
        return Ok(());
    };
    put!(out; Array("relatedLocations"))?;
    put_point(out, path, other, &failure.text)?;
    put!(out; Marks("]"))?;
    Ok(())
}

/// Appends the result of what fails, with the other point that it is about, and a way that shows it.
#[tactic(auto, using(std::proofs::Common::append_assoc), unfolding(crate::specs::Sarif::failing))]
fn put_failing(out: &mut Out, answer: &AnswerShown, failure: &Failure) -> Result<(), AllocError>
    ensures { OnOk result (out.new.tokens ≡ out.old.tokens ++ failing answer.now failure.now) }
{
    let path = answer.application.as_str();
    begin_result(out, failure.rule, "error", &answer.report)?;
    put_location(out, path, &failure.place)?;
    put!(out; Marks("]"))?;
    put_related(out, path, failure)?;
    put_way(out, answer, failure)?;
    put!(out; Marks("}"))
}

/// Appends what fails, or all that the answer says where no place is known.
fn put_failed(out: &mut Out, answer: &AnswerShown) -> Result<(), AllocError>
    ensures { OnOk result (out.new.tokens ≡ out.old.tokens ++ failing_by answer.now.failure answer.now) }
{
    match &answer.failure {
        Some(failure) => put_failing(out, answer, failure),
        None => put_whole(out, answer, "error"),
    }
}

/// Appends what the answer says of the application or the trace: nothing for a yes, or where the trace was followed.
#[tactic(auto, using(std::proofs::Common::append_assoc), unfolding(crate::specs::Sarif::result_of))]
fn put_result(out: &mut Out, answer: &AnswerShown) -> Result<(), AllocError>
    ensures { OnOk result (out.new.tokens ≡ out.old.tokens ++ result_of answer.now) }
{
    match answer.answer {
        AnswerKind::Yes | AnswerKind::NoBreach | AnswerKind::Machine => Ok(()),
        AnswerKind::Followed | AnswerKind::FollowedApart => Ok(()),
        AnswerKind::No | AnswerKind::MayDeadlock => put_failed(out, answer),
        AnswerKind::Breach | AnswerKind::Deadlock => put_failed(out, answer),
        AnswerKind::Refused => put_whole(out, answer, "error"),
        AnswerKind::NotFollowed | AnswerKind::NotListed => put_whole(out, answer, "error"),
        AnswerKind::StatesLeft | AnswerKind::GaveUp => put_whole(out, answer, "warning"),
    }
}

/// Appends the result of a warning about the file at this path, or about a line of the file that it names itself.
#[tactic(auto, unfolding(crate::specs::Sarif::warning_result))]
fn put_warning(out: &mut Out, path: &str, warning: &WarningShown) -> Result<(), AllocError>
    ensures { OnOk result (out.new.tokens ≡ out.old.tokens ++ warning_result path.now warning.now) }
{
    let path = match &warning.file {
        Some(file) => file.as_str(),
        None => path,
    };
    put_plain(
        out,
        path,
        warning.line,
        warning.kind.rule(),
        "warning",
        &warning.text,
    )
}

/// Appends a result for each warning.
#[tactic(auto, using(std::proofs::Common::append_assoc), unfolding(crate::specs::Sarif::warning_results))]
fn put_warnings(out: &mut Out, answer: &AnswerShown) -> Result<(), AllocError>
    ensures { OnOk result (out.new.tokens ≡ out.old.tokens ++ warning_results answer.now) }
{
    for warning in &answer.warnings {
        put_warning(out, &answer.application, warning)?;
    }
    Ok(())
}

/// Appends the end of the files, how columns are counted, and the begin of what was found.
#[tactic(auto, using(std::proofs::Common::append_assoc), unfolding(crate::specs::Sarif::results_begin))]
fn begin_results(out: &mut Out) -> Result<(), AllocError>
    ensures { OnOk result (out.new.tokens ≡ out.old.tokens ++ results_begin) }
{
    put!(out; Marks("]"), Field("columnKind", "unicodeCodePoints"), Array("results"))
}

/// Appends all that was found.
#[tactic(auto, using(std::proofs::Common::append_assoc), unfolding(crate::specs::Sarif::results))]
fn put_results(out: &mut Out, answers: &[AnswerShown]) -> Result<(), AllocError>
    ensures { OnOk result (out.new.tokens ≡ out.old.tokens ++ results answers.now) }
{
    begin_results(out)?;
    for answer in answers {
        put_result(out, answer)?;
        put_warnings(out, answer)?;
    }
    put!(out; Marks("]"))
}

/// Whether one of the answers is about this file.
fn is_answered(answers: &[AnswerShown], path: &str) -> bool
    ensures { result ≡ is_named answers.now path.now }
{
    answers.iter().any(|a| a.subject() == path)
}

/// Appends the file with this URI.
#[tactic(auto, using(std::proofs::Common::append_assoc), unfolding(crate::specs::Sarif::artifact))]
fn put_artifact(out: &mut Out, uri: &str) -> Result<(), AllocError>
    ensures { OnOk result (out.new.tokens ≡ out.old.tokens ++ artifact uri.now) }
{
    put!(out; Marks("{"), Object("location"), Field("uri", uri), Marks("}}"))
}

/// Appends the file that an answer is about, unless one of the answers before is about it.
#[tactic(auto, using(std::proofs::Common::append_assoc), unfolding(crate::specs::Sarif::added))]
fn put_new(out: &mut Out, before: &[AnswerShown], answer: &AnswerShown) -> Result<(), AllocError>
    ensures { OnOk result (out.new.tokens ≡ out.old.tokens ++ added before.now answer.now) }
{
    let path = answer.subject();
    if is_answered(before, path) {
        return Ok(());
    }
    let uri = file_uri(out.alloc, path)?;
    put_artifact(out, &uri)
}

/// Appends the files that the answers are about, each once.
fn put_files(out: &mut Out, answers: &[AnswerShown]) -> Result<(), AllocError>
    ensures { OnOk result (out.new.tokens ≡ out.old.tokens ++ files answers.now) }
{
    put!(out; Array("artifacts"))?;
    for (index, answer) in answers.iter().enumerate() {
        put_new(out, &answers[..index], answer)?;
    }
    Ok(())
}

/// Whether the machine gave all answers.
fn has_verdicts(answers: &[AnswerShown]) -> bool
    ensures { result ≡ nat_lt (greatest answers.now) 3 }
{
    greatest_status(answers) < MACHINE
}

/// Appends the begin of what kept the machine from an answer, up to its places.
#[tactic(auto, using(std::proofs::Common::append_assoc), unfolding(crate::specs::Sarif::error_begins))]
fn begin_error(out: &mut Out, text: &str) -> Result<(), AllocError>
    ensures { OnOk result (out.new.tokens ≡ out.old.tokens ++ error_begins text.now) }
{
    put!(out; Marks("{"), Field("level", "error"), Message("message", text), Array("locations"))
}

/// Appends what kept the machine from an answer.
#[tactic(auto, using(std::proofs::Common::append_assoc), unfolding(crate::specs::Sarif::notification))]
fn put_machine(out: &mut Out, answer: &AnswerShown) -> Result<(), AllocError>
    ensures { OnOk result (out.new.tokens ≡ out.old.tokens ++ notification answer.now) }
{
    let text = text_of(out.alloc, answer)?;
    begin_error(out, &text)?;
    put_file(out, answer.subject(), None)?;
    put!(out; Marks("]}"))
}

/// Appends what kept the machine from an answer; nothing where it gave one.
#[tactic(auto, using(std::proofs::Common::append_assoc), unfolding(crate::specs::Sarif::notification_of))]
fn put_notification(out: &mut Out, answer: &AnswerShown) -> Result<(), AllocError>
    ensures { OnOk result (out.new.tokens ≡ out.old.tokens ++ notification_of answer.now) }
{
    match answer.answer {
        AnswerKind::Machine => put_machine(out, answer),
        _ => Ok(()),
    }
}

/// Appends what kept the machine from answers.
fn put_all(out: &mut Out, answers: &[AnswerShown]) -> Result<(), AllocError>
    ensures { OnOk result (out.new.tokens ≡ out.old.tokens ++ all_notifications answers.now) }
{
    put!(out; Array("toolExecutionNotifications"))?;
    for answer in answers {
        put_notification(out, answer)?;
    }
    put!(out; Marks("]"))?;
    Ok(())
}

/// Appends what kept the machine from answers; nothing where it gave all.
#[tactic(auto, using(std::proofs::Common::append_assoc), unfolding(crate::specs::Sarif::notifications))]
fn put_notifications(out: &mut Out, answers: &[AnswerShown]) -> Result<(), AllocError>
    ensures { OnOk result (out.new.tokens ≡ out.old.tokens ++ notifications answers.now) }
{
    if has_verdicts(answers) {
        return Ok(());
    }
    put_all(out, answers)
}

/// Appends how the program ended.
#[tactic(auto, using(std::proofs::Common::append_assoc), unfolding(crate::specs::Sarif::invocations))]
fn put_invocations(out: &mut Out, answers: &[AnswerShown]) -> Result<(), AllocError>
    ensures { OnOk result (out.new.tokens ≡ out.old.tokens ++ invocations answers.now) }
{
    let status = usize::from(greatest_status(answers));
    put!(out; Array("invocations"), Marks("{"), Flag("executionSuccessful", has_verdicts(answers)),
        Number("exitCode", status))?;
    put_notifications(out, answers)?;
    put!(out; Marks("}]"))
}

/// Appends the begin of the report, up to the program's rules.
#[tactic(auto, using(std::proofs::Common::append_assoc), unfolding(crate::specs::Sarif::log_begins))]
fn begin_log(out: &mut Out) -> Result<(), AllocError>
    ensures { OnOk result (out.new.tokens ≡ out.old.tokens ++ log_begins) }
{
    put!(out; Marks("{"), Field("$schema", SCHEMA), Field("version", "2.1.0"), Array("runs"), Marks("{"),
        Object("tool"), Object("driver"), Field("name", "fr_check"), Field("version", VERSION))
}

/// Appends the report of one run of the program, which gave these answers.
#[tactic(auto, using(std::proofs::Common::append_assoc), unfolding(crate::specs::Sarif::log))]
fn put_log(out: &mut Out, idents: &[Ident], answers: &[AnswerShown]) -> Result<(), AllocError>
    ensures { OnOk result (out.new.tokens ≡ out.old.tokens ++ log (map rule_of idents.now) answers.now) }
{
    begin_log(out)?;
    put_rules(out, idents)?;
    put_invocations(out, answers)?;
    put_files(out, answers)?;
    put_results(out, answers)?;
    put!(out; Marks("}]}"))
}

/// The answers as SARIF 2.1.0: a result for each application that fails or is refused, at the line of code in the
/// application's file, with the steps that show it as a code flow; a result for each trace that wasn't followed, at the
/// line in the trace's file; no result for a yes, or where a trace was followed. Where the machine failed, the run says
/// so.
///
/// Its error is that an allocation was refused.
pub(crate) fn sarif_text(alloc: Global, answers: &[AnswerShown]) -> Result<String, AllocError>
    ensures { IfOk result (λ text. IsSarif answers.now (string_bytes text)) }
{
    let mut out = Out::new(alloc);
    put_log(&mut out, idents(), answers)?;
    let text = out.finish()?;
    Ok(text)
}
