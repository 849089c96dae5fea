// Ways through the code that show what fails.
ghost use Rattle.std.specs.Prelude.{◌≡◌, ◌++◌, IfOk, OnOk, map, string_bytes};
ghost use Rattle.fr_formats.specs.Sarif.{change_words, choice_words, flow, flow_begins, flow_of, is_run, mover, note_stops, numbered, place_stops, run_stops, run_words, step_stops, step_words, stop_of, stop_tokens};

use super::place::{put_point, words_of};
use crate::answer::{AnswerKind, AnswerShown, Failure, PlaceShown, StepShown};
use crate::piece::Piece::{Array, Key, Marks, Message, Number};
use crate::piece::{Out, put};
use std::alloc::{AllocError, Global};

/// A place of a way, with what is said of it.
#[derive(Drop)]
struct Stop<'a> {
    place: &'a PlaceShown,
    text: String,
}

/// Appends the choice of a step; nothing where it is 0.
fn push_choice(text: &mut String, choice: i64) -> Result<(), AllocError>
    ensures { OnOk result (string_bytes text.new ≡ string_bytes text.old ++ choice_words choice) }
{
    match choice {
        0 => Ok(()),
        _ => write!(text, ", choice {choice}"),
    }
}

/// Appends what a step changes; nothing where it changes nothing.
fn push_change(text: &mut String, change: &str) -> Result<(), AllocError>
    ensures { OnOk result (string_bytes text.new ≡ string_bytes text.old ++ change_words change.now) }
{
    if change.is_empty() {
        return Ok(());
    }
    write!(text, "; then {change}")
}

/// A step of a run in words: its line of code, its choice, and what it changes.
#[tactic(auto, using(std::proofs::Common::append_assoc), unfolding(crate::specs::Sarif::step_words))]
fn words_of_step(alloc: Global, place: &PlaceShown, step: &StepShown) -> Result<String, AllocError>
    ensures { IfOk result (λ words. string_bytes words ≡ step_words place.now step.now) }
{
    let mut text = words_of(alloc, place)?;
    text.push_str(": ")?;
    text.push_str(&place.code)?;
    push_choice(&mut text, step.choice)?;
    push_change(&mut text, &step.change)?;
    Ok(text)
}

/// Adds the place of a step, if it has one.
fn push_step<'a>(
    alloc: Global,
    stops: &mut Vec<Stop<'a>>,
    step: &'a StepShown,
) -> Result<(), AllocError>
    ensures { OnOk result (map stop_of stops.new.items ≡ map stop_of stops.old.items ++ step_stops step.now) }
{
    let Some(place) = &step.place else {
        return Ok(());
    };
    let text = words_of_step(alloc, place, step)?;
    stops.push(Stop { place, text })?;
    Ok(())
}

/// Adds a place, if there is one and something is said of it.
fn push_place<'a>(
    alloc: Global,
    stops: &mut Vec<Stop<'a>>,
    place: &'a Option<PlaceShown>,
    text: &str,
) -> Result<(), AllocError>
    ensures { OnOk result (map stop_of stops.new.items ≡ map stop_of stops.old.items ++ place_stops place.now text.now) }
{
    let Some(place) = place else {
        return Ok(());
    };
    if text.is_empty() {
        return Ok(());
    }
    let text = String::from_str(alloc, text)?;
    stops.push(Stop { place, text })?;
    Ok(())
}

/// The steps of a run into a breach, and where its actor then is.
fn stops_of_run<'a>(
    alloc: Global,
    failure: &'a Failure,
    steps: &'a [StepShown],
) -> Result<Vec<Stop<'a>>, AllocError>
    ensures { IfOk result (λ stops. map stop_of stops.items ≡ run_stops failure.now steps.now) }
{
    let mut stops = Vec::new(alloc);
    for step in steps {
        push_step(alloc, &mut stops, step)?;
    }
    push_place(alloc, &mut stops, &failure.place, &failure.text)?;
    Ok(stops)
}

/// Where the actor is whose step shows why a part fails.
fn mover_of(failure: &Failure) -> &Option<PlaceShown>
    ensures { result.now ≡ mover failure.now }
{
    if failure.rule == "spoiled-by" && failure.other.is_some() {
        &failure.other
    } else {
        &failure.place
    }
}

/// The state that shows why a part fails, and the step from it, if there is one.
fn stops_of_notes<'a>(alloc: Global, failure: &'a Failure) -> Result<Vec<Stop<'a>>, AllocError>
    ensures { IfOk result (λ stops. map stop_of stops.items ≡ note_stops failure.now) }
{
    let mut stops = Vec::new(alloc);
    push_place(alloc, &mut stops, &failure.place, &failure.state)?;
    push_place(alloc, &mut stops, mover_of(failure), &failure.step)?;
    Ok(stops)
}

/// Appends a place of a way.
fn put_stop(out: &mut Out, path: &str, number: usize, stop: &Stop) -> Result<(), AllocError>
    ensures { OnOk result (out.new.tokens ≡ out.old.tokens ++ stop_tokens path.now number (stop_of stop.now)) }
{
    put!(out; Marks("{"))?;
    put!(out; Key("location"))?;
    put_point(out, path, stop.place, &stop.text)?;
    put!(out; Number("executionOrder", number))?;
    put!(out; Marks("}"))?;
    Ok(())
}

/// Appends the places of a way, with their numbers from 1 on.
fn put_stops(out: &mut Out, path: &str, stops: &[Stop]) -> Result<(), AllocError>
    ensures { OnOk result (out.new.tokens ≡ out.old.tokens ++ numbered path.now 1 (map stop_of stops.now)) }
{
    for (index, stop) in stops.iter().enumerate() {
        put_stop(out, path, index + 1, stop)?;
    }
    Ok(())
}

/// Appends the begin of a way under this text.
#[tactic(auto, using(std::proofs::Common::append_assoc), unfolding(crate::specs::Sarif::flow_begins))]
fn begin_flow(out: &mut Out, text: &str) -> Result<(), AllocError>
    ensures { OnOk result (out.new.tokens ≡ out.old.tokens ++ flow_begins text.now) }
{
    put!(out; Array("codeFlows"), Marks("{"), Message("message", text), Array("threadFlows"),
        Marks("{"), Array("locations"))
}

/// Appends a way under this text; nothing where it has no place.
fn put_flow(out: &mut Out, path: &str, text: &str, stops: &[Stop]) -> Result<(), AllocError>
    ensures { OnOk result (out.new.tokens ≡ out.old.tokens ++ flow path.now text.now (map stop_of stops.now)) }
{
    if stops.is_empty() {
        return Ok(());
    }
    begin_flow(out, text)?;
    put_stops(out, path, stops)?;
    put!(out; Marks("]}]}]"))
}

/// Appends the way that shows what fails: the run into a breach, and else a state that the notes allow.
#[tactic(auto, using(std::proofs::Common::append_assoc), unfolding(crate::specs::Sarif::flow_of))]
pub(super) fn put_way(
    out: &mut Out,
    answer: &AnswerShown,
    failure: &Failure,
) -> Result<(), AllocError>
    ensures { OnOk result (out.new.tokens ≡ out.old.tokens ++ flow_of answer.now failure.now) }
{
    let path = answer.application.as_str();
    if is_run(answer.answer) {
        let stops = stops_of_run(out.alloc, failure, &answer.steps)?;
        put_flow(out, path, run_words(answer.answer), &stops)
    } else {
        let stops = stops_of_notes(out.alloc, failure)?;
        let text = "A state that the notes allow, and what is wrong with it";
        put_flow(out, path, text, &stops)
    }
}

/// Whether the answer is a run.
fn is_run(kind: AnswerKind) -> bool
    ensures { result ≡ is_run kind }
{
    matches!(kind, AnswerKind::Breach | AnswerKind::Deadlock)
}

/// What a run is said to lead to.
fn run_words(kind: AnswerKind) -> &'static str
    ensures { result.now ≡ run_words kind }
{
    match kind {
        AnswerKind::Deadlock => "A run from the start into the deadlock",
        _ => "A run from the start into the breach",
    }
}
