// Answers as JUnit's XML, in the form that Jenkins and GitLab read.
ghost use Rattle.std.specs.Prelude.{◌≡◌, ◌++◌, IfOk, OnOk, flat_map, string_bytes};
ghost use Rattle.fr_formats.specs.Junit.{bytes_of, case_begins, case_of, failed, head_of, head_with, is_broken as broken, is_failed as fails, junit_of, line_of, lines_of, outcome_of, output_of, warning_lines, warnings_of};

use crate::answer::{AnswerKind, AnswerShown, WarningShown};
use Fragment::{Lines, Markup, Number, Text, Warnings};
use fr_escape::push_xml;
use std::alloc::{AllocError, Global};

/// A fragment of a text in XML: markup that is written in this crate, a text, which is escaped, a number, or texts with a
/// line for each.
#[derive(Clone, Copy)]
enum Fragment<'a> {
    Markup(&'a str),
    Text(&'a str),
    Number(usize),
    Lines(&'a [String]),
    Warnings(&'a [WarningShown]),
}

/// Appends a line, with its end.
#[tactic(auto, unfolding(crate::specs::Junit::line_of, crate::specs::Junit::escaped))]
fn put_line(text: &mut String, line: &str) -> Result<(), AllocError>
    ensures { OnOk result (string_bytes text.new ≡ string_bytes text.old ++ line_of line.now) }
{
    push_xml(text, line)?;
    text.push('\n')
}

/// Appends lines, each with its end.
#[tactic(auto, unfolding(crate::specs::Junit::lines_of))]
fn put_lines(text: &mut String, lines: &[String]) -> Result<(), AllocError>
    ensures { OnOk result (string_bytes text.new ≡ string_bytes text.old ++ lines_of lines.now) }
{
    for line in lines {
        put_line(text, line)?;
    }
    Ok(())
}

/// Appends warnings, a line each.
#[tactic(auto, unfolding(crate::specs::Junit::warning_lines))]
fn put_texts(text: &mut String, warnings: &[WarningShown]) -> Result<(), AllocError>
    ensures { OnOk result (string_bytes text.new ≡ string_bytes text.old ++ warning_lines warnings.now) }
{
    for warning in warnings {
        put_line(text, &warning.text)?;
    }
    Ok(())
}

/// Appends a part.
#[tactic(auto, unfolding(crate::specs::Junit::escaped))]
fn put_part(text: &mut String, part: Fragment) -> Result<(), AllocError>
    ensures { OnOk result (string_bytes text.new ≡ string_bytes text.old ++ bytes_of part.entry) }
{
    match part {
        Fragment::Markup(markup) => text.push_str(markup),
        Fragment::Text(given) => push_xml(text, given),
        Fragment::Number(number) => write!(text, "{number}"),
        Fragment::Lines(lines) => put_lines(text, lines),
        Fragment::Warnings(warnings) => put_texts(text, warnings),
    }
}

/// Appends the parts.
fn put(text: &mut String, parts: &[Fragment]) -> Result<(), AllocError>
    ensures { OnOk result (string_bytes text.new ≡ string_bytes text.old ++ flat_map bytes_of parts.now) }
{
    for part in parts {
        put_part(text, *part)?;
    }
    Ok(())
}

/// Appends parts.
macro_rules! put {
    ($text:expr; $part:expr) => { put_part($text, $part) };
    ($text:expr; $($part:expr),*) => { put($text, &[$($part),*]) };
}

/// Whether the case fails: a rule or a part does, or that is not known.
fn is_failed(kind: AnswerKind) -> bool
    ensures { result ≡ fails kind }
{
    match kind {
        AnswerKind::No | AnswerKind::MayDeadlock | AnswerKind::Breach => true,
        AnswerKind::Deadlock | AnswerKind::StatesLeft => true,
        AnswerKind::NotFollowed | AnswerKind::NotListed | AnswerKind::GaveUp => true,
        AnswerKind::Yes | AnswerKind::NoBreach => false,
        AnswerKind::Followed | AnswerKind::FollowedApart => false,
        AnswerKind::Refused | AnswerKind::Machine => false,
    }
}

/// Whether the case is an error: there is no verdict.
fn is_broken(kind: AnswerKind) -> bool
    ensures { result ≡ broken kind }
{
    matches!(kind, AnswerKind::Refused | AnswerKind::Machine)
}

/// Appends what failed, between tags of this name.
#[tactic(auto, using(std::proofs::Common::append_assoc), unfolding(crate::specs::Junit::failed))]
fn put_failed<'a>(
    text: &mut String,
    tag: &'a str,
    answer: &'a AnswerShown,
) -> Result<(), AllocError>
    ensures { OnOk result (string_bytes text.new ≡ string_bytes text.old ++ failed tag.now answer.now) }
{
    put!(text; Markup("      <"), Markup(tag), Markup(" type=\""), Text(answer.failed_rule()),
        Markup("\" message=\""), Text(&answer.report), Markup("\">"), Text(&answer.report), Markup("\n"),
        Lines(&answer.lines), Markup("</"), Markup(tag), Markup(">\n"))
}

/// Appends how the case of an answer came out; nothing where it passed.
#[tactic(auto, using(std::proofs::Common::append_assoc), unfolding(crate::specs::Junit::outcome_of))]
fn put_outcome(text: &mut String, answer: &AnswerShown) -> Result<(), AllocError>
    ensures { OnOk result (string_bytes text.new ≡ string_bytes text.old ++ outcome_of answer.now) }
{
    match answer.answer {
        AnswerKind::Yes | AnswerKind::NoBreach => Ok(()),
        AnswerKind::Followed | AnswerKind::FollowedApart => Ok(()),
        AnswerKind::No | AnswerKind::MayDeadlock | AnswerKind::Breach => {
            put_failed(text, "failure", answer)
        }
        AnswerKind::Deadlock | AnswerKind::StatesLeft => put_failed(text, "failure", answer),
        AnswerKind::NotFollowed | AnswerKind::NotListed | AnswerKind::GaveUp => {
            put_failed(text, "failure", answer)
        }
        AnswerKind::Refused | AnswerKind::Machine => put_failed(text, "error", answer),
    }
}

/// Appends the warnings, as what the test printed.
#[tactic(auto, unfolding(crate::specs::Junit::output_of))]
fn put_output(text: &mut String, warnings: &[WarningShown]) -> Result<(), AllocError>
    ensures { OnOk result (string_bytes text.new ≡ string_bytes text.old ++ output_of warnings.now) }
{
    put!(text; Markup("      <system-out>"), Warnings(warnings), Markup("</system-out>\n"))
}

/// Appends the warnings; nothing where there are none.
fn put_warnings(text: &mut String, warnings: &[WarningShown]) -> Result<(), AllocError>
    ensures { OnOk result (string_bytes text.new ≡ string_bytes text.old ++ warnings_of warnings.now) }
{
    if warnings.is_empty() {
        return Ok(());
    }
    put_output(text, warnings)
}

/// Appends the begin of the case of one application or trace.
fn begin_case(text: &mut String, answer: &AnswerShown) -> Result<(), AllocError>
    ensures { OnOk result (string_bytes text.new ≡ string_bytes text.old ++ case_begins answer.now) }
{
    put!(text; Markup("    <testcase classname=\"fr_check."), Markup(answer.command.name()),
        Markup("\" name=\""), Text(answer.subject()), Markup("\">\n"))
}

/// Appends the case of one application or trace.
fn put_case(text: &mut String, answer: &AnswerShown) -> Result<(), AllocError>
    ensures { OnOk result (string_bytes text.new ≡ string_bytes text.old ++ case_of answer.now) }
{
    begin_case(text, answer)?;
    put_outcome(text, answer)?;
    put_warnings(text, &answer.warnings)?;
    put!(text; Markup("    </testcase>\n"))?;
    Ok(())
}

/// Appends the cases of all answers.
fn put_cases(text: &mut String, answers: &[AnswerShown]) -> Result<(), AllocError>
    ensures { OnOk result (string_bytes text.new ≡ string_bytes text.old ++ flat_map case_of answers.now) }
{
    for answer in answers {
        put_case(text, answer)?;
    }
    Ok(())
}

/// Appends the head of the report, with these counts.
#[tactic(auto, using(std::proofs::Common::append_assoc), unfolding(crate::specs::Junit::head_with))]
fn put_head(
    text: &mut String,
    tests: usize,
    failures: usize,
    errors: usize,
) -> Result<(), AllocError>
    ensures { OnOk result (string_bytes text.new ≡ string_bytes text.old ++ head_with tests failures errors) }
{
    put!(text; Markup("<?xml version=\"1.0\" encoding=\"UTF-8\"?>\n<testsuites>\n"),
        Markup("  <testsuite name=\"fr_check\" tests=\""), Number(tests),
        Markup("\" failures=\""), Number(failures), Markup("\" errors=\""), Number(errors), Markup("\">\n"))
}

/// Appends the head of the report, with the counts of these answers.
fn begin_suite(text: &mut String, answers: &[AnswerShown]) -> Result<(), AllocError>
    ensures { OnOk result (string_bytes text.new ≡ string_bytes text.old ++ head_of answers.now) }
{
    let failures = answers.iter().filter(|a| is_failed(a.answer)).count();
    let errors = answers.iter().filter(|a| is_broken(a.answer)).count();
    put_head(text, answers.len(), failures, errors)
}

/// The answers as a test suite in JUnit's XML, with a case for each application, or for each trace that was followed. It
/// passes where the command's exit status is 0, fails where the answer is no, a breach, that more states are left or that
/// a trace wasn't followed, and is an error where a file is refused or the machine failed.
///
/// Its error is that an allocation was refused.
pub(crate) fn junit_text(alloc: Global, answers: &[AnswerShown]) -> Result<String, AllocError>
    ensures { IfOk result (λ text. string_bytes text ≡ junit_of answers.now) }
{
    let mut text = String::new(alloc);
    begin_suite(&mut text, answers)?;
    put_cases(&mut text, answers)?;
    put!(&mut text; Markup("  </testsuite>\n</testsuites>\n"))?;
    Ok(text)
}
