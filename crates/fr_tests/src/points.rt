// What is judged at a point or between two, as a report tells it.
ghost use Rattle.std.specs.Prelude.{◌<◌, length};
ghost use Rattle.fr_program.specs.Points.{points_of};
ghost use Rattle.fr_ends.specs.Fits.{CertificateFits};

use crate::table::Asked;
use fr_edge::{Own, own};
use fr_ends::{Certificate, guarded, near};
use fr_interfere::spoiler;
use fr_judge::Part;
use fr_notes::{implies, together};
use fr_program::{App, Point, Side};
use std::alloc::Global;

/// The rules, from rule 1 on.
const RULES: [&str; 12] = [
    "two actors at the writing end of a buffer",
    "two actors at the reading end of a buffer",
    "mutex given by an actor that does not hold it",
    "call not allowed in a critical section",
    "call not allowed while the scheduler is suspended",
    "call not allowed in an interrupt",
    "handle is not live",
    "object deleted in use or created while live",
    "call does not suit this kind of semaphore",
    "depth is already zero",
    "actor ends in the wrong way",
    "value out of its declared range",
];

fn point_text(alloc: Global, app: &App, point: Point) -> Option<String> {
    let number = app.number(point)?;
    let actor = app.actors().get(point.actor.0)?;
    let side = match point.side {
        Side::Before => "before",
        Side::Inside => "inside",
    };
    format!(in alloc; "point {number} ({} {} {side})", actor.name, point.pc).ok()
}

fn part_text(alloc: Global, app: &App, part: Part) -> Option<String> {
    match part {
        Part::Entry => String::from_str(alloc, "entry").ok(),
        Part::Rule(rule) => {
            let number = rule.number();
            let text = RULES.get(usize::from(number).checked_sub(1)?)?;
            format!(in alloc; "rule {number}: {text}").ok()
        }
        Part::Guard(end) => {
            let buffer = app.objects().get(end.buffer.0)?;
            format!(in alloc; "guard {} {}", buffer.name, end.end.text()).ok()
        }
        Part::Goes(point) => {
            format!(in alloc; "goes to {}", point_text(alloc, app, point)?).ok()
        }
        Part::Near(point) => format!(in alloc; "near {}", point_text(alloc, app, point)?).ok(),
        Part::Spoiled(point) => {
            format!(in alloc; "spoiled by {}", point_text(alloc, app, point)?).ok()
        }
    }
}

/// The part that fails at the first point, of the kind that is asked about, if one does.
fn failing(
    asked: Asked,
    app: &App,
    certificate: &Certificate,
    one: usize,
    other: usize,
) -> Option<Part>
    requires one { one < length (points_of app.now) }
    requires other { other < length (points_of app.now) }
    requires fits { CertificateFits app.now certificate.now }
{
    let notes = &certificate.notes;
    match asked {
        Asked::Own => match own(app, notes, one)? {
            Own::Entry => Some(Part::Entry),
            Own::Rule(rule) => Some(Part::Rule(rule)),
            Own::Goes(point) => Some(Part::Goes(point)),
        },
        Asked::Guarded => Some(Part::Guard(guarded(app, certificate, one)?)),
        Asked::Near if !near(app, notes, one, other) => Some(Part::Near(app.point(other))),
        Asked::Spoiler => {
            let first = spoiler(app, notes, one)?;
            // A number that is none of a point would be told as what no table expects.
            if first >= app.points() {
                return Some(Part::Entry);
            }
            Some(Part::Spoiled(app.point(first)))
        }
        _ => None,
    }
}

/// Whether both actors can have the notes of these points at once; None where they are one.
fn can_meet(app: &App, certificate: &Certificate, one: usize, other: usize) -> Option<bool>
    requires one { one < length (points_of app.now) }
    requires other { other < length (points_of app.now) }
    requires fits { CertificateFits app.now certificate.now }
{
    let notes = &certificate.notes;
    let (actor, other_actor) = (app.point(one).actor, app.point(other).actor);
    let count = app.actors().len();
    if actor.0 >= count || other_actor.0 >= count || actor.0 == other_actor.0 {
        return None;
    }
    let (note, other_note) = (notes.at(app, one), notes.at(app, other));
    Some(together(app, actor, note, other_actor, other_note))
}

/// Two numbers, or one twice.
fn numbers_in(text: &str, are_two: bool) -> Option<(usize, usize)> {
    match text.split_once(' ') {
        Some((one, other)) if are_two => Some((one.parse().ok()?, other.parse().ok()?)),
        None if !are_two => {
            let one = text.parse().ok()?;
            Some((one, one))
        }
        _ => None,
    }
}

fn yes_or_no(alloc: Global, answer: bool) -> Option<String> {
    String::from_str(alloc, if answer { "yes" } else { "no" }).ok()
}

/// The answer to what is asked about the points with these numbers: yes or no, and what fails where something does. None
/// where the case has a wrong form.
pub fn point_answer(
    alloc: Global,
    asked: Asked,
    app: &App,
    certificate: &Certificate,
    numbers: &str,
) -> Option<String>
    requires fits { CertificateFits app.now certificate.now }
{
    let are_two = matches!(asked, Asked::Near | Asked::Implies | Asked::Together);
    let (one, other) = numbers_in(numbers, are_two)?;
    if one >= app.points() || other >= app.points() {
        return None;
    }
    let notes = &certificate.notes;
    match asked {
        Asked::Implies => yes_or_no(alloc, implies(notes.at(app, one), notes.at(app, other))),
        Asked::Together => yes_or_no(alloc, can_meet(app, certificate, one, other)?),
        Asked::Own | Asked::Guarded | Asked::Near | Asked::Spoiler => {
            let Some(part) = failing(asked, app, certificate, one, other) else {
                return yes_or_no(alloc, true);
            };
            let at = point_text(alloc, app, app.point(one))?;
            let why = part_text(alloc, app, part)?;
            format!(in alloc; "no: {at}: {why}").ok()
        }
        _ => None,
    }
}
