// The way to a value of a certificate's text, with the names of points.
use crate::lines::Lines;
use crate::shown::Start;
use fr_cert::Step;
use fr_program::App;
use serde_json::Value;

/// The key of a step to the value at a key.
fn key_of(step: &Step) -> Option<&str> {
    match step {
        Step::Key(key) => Some(key.as_str()),
        Step::At(_) => None,
    }
}

/// The last key on the way, and no text where there is none.
pub(crate) fn last_key(steps: &[Step]) -> &str {
    steps.iter().filter_map(key_of).last().unwrap_or("")
}

/// The first key inside an end or a note, and no text where there is none.
pub(crate) fn inner_key(steps: &[Step]) -> &str {
    steps.iter().filter_map(key_of).nth(1).unwrap_or("")
}

/// The value to which the steps lead.
pub(crate) fn value_at<'a>(tree: &'a Value, steps: &[Step]) -> Option<&'a Value> {
    let mut value = tree;
    for step in steps {
        value = match step {
            Step::Key(key) => value.get(key.as_str())?,
            Step::At(index) => value.get(*index)?,
        };
    }
    Some(value)
}

/// Appends the actor, the line and the side of the point with this number, if there is one.
fn push_point(out: &mut Lines, app: &App, number: usize) {
    if number < app.points() {
        let point = app.point(number);
        if let Some(actor) = app.actors().get(point.actor.0) {
            write!(out, " ({} {} {})", actor.name, point.pc, point.side.text());
        }
    }
}

/// Appends the steps with a `/` between two, and behind the number of a note its point.
pub(crate) fn push_path(out: &mut Lines, app: &App, steps: &[Step]) {
    let is_in_notes = steps.first().and_then(key_of) == Some("notes");
    for (index, step) in steps.iter().enumerate() {
        if index > 0 {
            write!(out, "/");
        }
        match step {
            Step::Key(key) => write!(out, "{}", Start(key.as_str())),
            Step::At(number) => {
                write!(out, "{number}");
                if index == 1 && is_in_notes {
                    push_point(out, app, *number);
                }
            }
        }
    }
}
