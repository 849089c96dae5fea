// A source, translated.
ghost use Rattle.std.specs.Prelude.{◌≤◌, length, IfOk, string_bytes};

use crate::declare::program_in;
use crate::expand::{Code, Line, Origin, code_of, outermost};
use crate::fault::{Fault, Spot, wrong, wrong_about, wrong_with};
use crate::message::{Message, Refused, message_at, refused_by};
use crate::program::{Action, Actor, Home, Program};
use crate::source::Source;
use crate::text::text_of;
use crate::texts::{Pieces, Word, filled};
use crate::tidy::{Tidying, tidied};
use crate::token::{Scan, scanned};
use fr_escape::push_plain;
use std::alloc::{AllocError, Global};

/// The most bytes of a source.
pub const MOST_SOURCE_BYTES: usize = 1_048_576;

/// The most bytes of an application.
pub const MOST_APPLICATION_BYTES: usize = 1_048_576;

/// The most lines of an actor.
const MOST_LINES: usize = 512;

/// The most warnings that are given.
const MOST_WARNINGS: usize = 100;

/// The text of an application, and what is left out of the source.
#[derive(Drop)]
pub struct Translation {
    /// The application, as a TOML text.
    pub text: String,
    /// The places that are never reached, and left out: the first 100.
    pub warnings: Vec<Message>,
}

/// Refuses a task that makes a call of interrupts, in a function that it calls.
fn check_calls(alloc: Global, program: &Program, actor: Actor, code: &Code) -> Result<(), Fault> {
    for line in &code.lines {
        if let Action::Call { call, .. } = line.action
            && call.kernel.row().is_of_interrupts()
            && matches!(actor.kind, Home::Task)
        {
            let spot = outermost(&code.calls, line.place);
            let form = "task '%' makes the call % here, which is for interrupts";
            let name = program.text(actor.name);
            let call = call.kernel.row().name;
            return Err(wrong_about(alloc, spot, form, name, call));
        }
    }
    Ok(())
}

/// Refuses a task that can come to its end, and an actor with too many lines.
fn check_code(alloc: Global, program: &Program, actor: Actor, code: &Code) -> Result<(), Fault> {
    let name = program.text(actor.name);
    for line in &code.lines {
        if matches!(line.action, Action::End) {
            let form =
                "task '%' can come to its end here, and a task doesn't return (rule 11): write vTaskDelete(NULL) \
                or an endless loop";
            return Err(wrong_about(alloc, actor.end, form, name, ""));
        }
    }
    if let Some(line) = code.lines.get(MOST_LINES) {
        let spot = outermost(&code.calls, line.place);
        let form = "% '%' has % lines, at most 512 are allowed: this construct passed the limit";
        let words = &[
            Word::Text(actor.kind.text()),
            Word::Text(name),
            Word::Count(code.lines.len()),
        ];
        return Err(wrong_with(alloc, spot, form, words));
    }
    Ok(())
}

/// Whether a way leads to a line of this place.
fn is_reached(lines: &[Line], seen: &[bool], place: Origin) -> bool {
    for (number, line) in lines.iter().enumerate() {
        let Origin { spot, call } = line.place;
        if seen.get(number) == Some(&true)
            && spot.line == place.spot.line
            && spot.column == place.spot.column
            && call == place.call
        {
            return true;
        }
    }
    false
}

/// The warning that something is never reached in an actor.
fn warning(
    alloc: Global,
    source: &Source<'_>,
    program: &Program,
    actor: Actor,
    spot: Spot,
) -> Result<Message, AllocError> {
    let form = "warning: this is never reached in % '%', and left out";
    let name = Word::Text(program.text(actor.name));
    let words = &[Word::Text(actor.kind.text()), name];
    let text = filled(alloc, form, words)?;
    message_at(alloc, source, spot, text)
}

/// Adds the warnings of an actor: what is never reached in it, once for lines that follow each other. Refuses a task that
/// makes a call of interrupts.
fn warn(
    alloc: Global,
    source: &Source<'_>,
    program: &Program,
    actor: Actor,
    code: &Code,
    warnings: &mut Vec<Message>,
) -> Result<(), Fault> {
    check_calls(alloc, program, actor, code)?;
    let seen = Tidying::new(alloc, program, &code.lines)?.reached(alloc)?;
    let mut was_dropped = false;
    for (number, line) in code.lines.iter().enumerate() {
        let is_last = number.saturating_add(1) == code.lines.len();
        if is_last || matches!(line.action, Action::Goto) {
            was_dropped = was_dropped && seen.get(number) != Some(&true);
            continue;
        }
        let is_kept = is_reached(&code.lines, &seen, line.place);
        if !is_kept && !was_dropped && warnings.len() < MOST_WARNINGS {
            let warning = warning(alloc, source, program, actor, line.place.spot)?;
            warnings.push(warning)?;
        }
        was_dropped = !is_kept;
    }
    Ok(())
}

/// Tidies the code of an actor, after its warnings.
fn tidy(
    alloc: Global,
    source: &Source<'_>,
    program: &Program,
    actor: Actor,
    code: &mut Code,
    warnings: &mut Vec<Message>,
) -> Result<(), Fault> {
    warn(alloc, source, program, actor, code, warnings)?;
    code.lines = tidied(alloc, program, &code.lines)?;
    check_code(alloc, program, actor, code)
}

/// The code of each actor, and the warnings.
fn codes_of(
    alloc: Global,
    source: &Source<'_>,
    program: &mut Program,
    warnings: &mut Vec<Message>,
) -> Result<Vec<Code>, Fault> {
    let mut codes = Vec::new(alloc);
    for number in 0..program.actors.len() {
        let Some(actor) = program.actors.get(number).copied() else {
            break;
        };
        let mut code = code_of(alloc, program, actor, number)?;
        tidy(alloc, source, program, actor, &mut code, warnings)?;
        codes.push(code)?;
    }
    Ok(codes)
}

/// A source, translated.
fn translation_of(alloc: Global, source: &Source<'_>, bytes: &[u8]) -> Result<Translation, Fault>
    ensures { IfOk result (λ translation. length (string_bytes translation.text) ≤ 1048576) }
{
    if bytes.len() > MOST_SOURCE_BYTES {
        let spot = Spot { line: 1, column: 1 };
        return Err(wrong(alloc, spot, "the source has more than 1 MiB"));
    }
    let Scan { tokens, end, blank } = scanned(alloc, bytes)?;
    let mut program = program_in(alloc, Pieces::of(blank)?, tokens, end)?;
    application_of(alloc, source, &mut program)
}

/// The application that a program is.
fn application_of(
    alloc: Global,
    source: &Source<'_>,
    program: &mut Program,
) -> Result<Translation, Fault>
    ensures { IfOk result (λ translation. length (string_bytes translation.text) ≤ 1048576) }
{
    let mut warnings = Vec::new(alloc);
    let codes = codes_of(alloc, source, program, &mut warnings)?;
    let text = text_of(alloc, source, program, &codes)?;
    if text.len() > MOST_APPLICATION_BYTES {
        let spot = Spot { line: 1, column: 1 };
        return Err(wrong(alloc, spot, "the translation has more than 1 MiB"));
    }
    Ok(Translation { text, warnings })
}

/// Translates a source (docs/SOURCE.md) into the text of an application. `file` is the name of its file, as comments show
/// it: what could steer a terminal is written as in a literal of Rust. The text has at most 1,048,576 bytes.
///
/// # Errors
///
/// `Source` says what is wrong in the source, and where. `Memory`: an allocation was refused.
pub fn translated(alloc: Global, file: &str, source: &[u8]) -> Result<Translation, Refused>
    ensures { IfOk result (λ translation. length (string_bytes translation.text) ≤ 1048576) }
{
    let mut name = String::new(alloc);
    push_plain(&mut name, file)?;
    let source = match source {
        // A byte order mark is passed by.
        [0xef, 0xbb, 0xbf, rest @ ..] => rest,
        _ => source,
    };
    let text = Source::new(alloc, name.as_str(), source)?;
    match translation_of(alloc, &text, source) {
        Ok(translation) => Ok(translation),
        Err(fault) => Err(refused_by(alloc, &text, fault)),
    }
}
