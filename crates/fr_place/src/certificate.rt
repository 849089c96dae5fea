// The place of a certificate's refusal.
use crate::keys::{has_keys, is_after_another, keys_in, row_in, row_of};
use crate::lines::Lines;
use crate::misfit::{push_end, push_note};
use crate::nearness::push_nearest;
use crate::position::push_position;
use crate::shown::Quoted;
use crate::steps::{inner_key, last_key, push_path, value_at};
use fr_cert::{CertFault, MOST_CERTIFICATE_BYTES, Path, Step};
use fr_escape::Location;
use fr_program::App;
use fr_reader::Key;
use serde_json::Value;
use std::alloc::{AllocError, Global};

/// Appends where the text is no JSON.
fn push_json(out: &mut Lines, bytes: &[u8], error: &serde_json::Error) {
    if error.is_memory() {
        return out.refuse();
    }
    let fault = if error.is_eof() {
        "the text ends too soon"
    } else {
        "no JSON"
    };
    push_position(out, bytes, (error.line(), error.column()), fault);
}

/// Appends a value: a text, a number or a word as it is written, else what it is.
pub(crate) fn push_json_value(out: &mut Lines, value: &Value) {
    match value {
        Value::String(text) => write!(out, "{}", Quoted(text.as_str())),
        Value::Array(list) => write!(out, "a list of {}", list.len()),
        Value::Object(_) => write!(out, "an object"),
        _ => out.printed(value),
    }
}

/// What has to be where the steps lead.
fn wanted_at(steps: &[Step]) -> &'static str {
    match steps.split_last() {
        None => "an object",
        Some((Step::Key(key), before)) => match row_in(last_key(before), key.as_str()) {
            Some(row) => row.wanted,
            None if inner_key(steps) == "range" => "a list of two numbers",
            None => "a whole number",
        },
        Some((Step::At(_), before)) if matches!(before.last(), Some(Step::At(_))) => "an object",
        Some((Step::At(_), _)) if inner_key(steps).is_empty() =>
            "an object, and for a note \"never\" too, or in version 2 a list",
        Some((Step::At(_), _)) => "",
    }
}

/// Appends the value to which the steps lead, and what has to be there.
fn push_value_at(out: &mut Lines, tree: &Value, steps: &[Step]) {
    match value_at(tree, steps) {
        Some(value) => {
            write!(out, ": ");
            push_json_value(out, value);
        }
        None => write!(out, ": missing"),
    }
    match wanted_at(steps) {
        "" => out.end(),
        wanted => out.say(format_args!("; wanted: {wanted}")),
    }
}

/// Appends why the value isn't one that a certificate has there.
fn push_shape(out: &mut Lines, tree: &Value, steps: &[Step]) {
    let Some((Step::Key(key), before)) = steps.split_last() else {
        return push_value_at(out, tree, steps);
    };
    let around = last_key(before);
    match (row_in(around, key.as_str()), value_at(tree, before)) {
        (None, _) if has_keys(around) => {
            write!(out, ": no such key here");
            push_nearest(out, key.as_str(), keys_in(out.alloc, around));
        }
        (Some(row), Some(guard)) if is_after_another(row, guard) => {
            out.say(": a guard has either sole, or mutex, or turn and values");
        }
        _ => push_value_at(out, tree, steps),
    }
}

/// The names of the application's variables, objects or actors, in order, for the key of their list in its text.
fn names_at(alloc: Global, app: &App, list: Key) -> Result<Vec<&str>, AllocError> {
    let (variables, objects, actors) = (app.variables(), app.objects(), app.actors());
    match list {
        Key::Variable => variables.iter().map(|it| it.name.as_str()).collect(alloc),
        Key::Object => objects.iter().map(|it| it.name.as_str()).collect(alloc),
        _ => actors.iter().map(|it| it.name.as_str()).collect(alloc),
    }
}

/// Appends that nothing of the sort has the name.
fn push_unknown(out: &mut Lines, app: &App, steps: &[Step], name: &str) {
    write!(out, ": {}", Quoted(name));
    match row_of(last_key(steps)).and_then(|row| row.named) {
        Some(list) => {
            write!(out, " is the name of no {}", list.text());
            push_nearest(out, name, names_at(out.alloc, app, list));
        }
        None => out.end(),
    }
}

/// Appends why the note or the end to which the steps lead, or the value in it, isn't one of this application.
fn push_misfit(out: &mut Lines, app: &App, tree: &Value, steps: &[Step], is_note: bool) {
    let Some(value) = value_at(tree, steps) else {
        return out.end();
    };
    write!(out, ": ");
    if let Some(row) = row_of(inner_key(steps)) {
        push_json_value(out, value);
        out.say(row.reason);
    } else if is_note {
        out.say("can't be true of this application");
        push_note(out, app, value);
    } else {
        out.say("the guard doesn't fit the application");
        push_end(out, app, value);
    }
}

/// Appends how many alternatives there are.
fn push_alternatives(out: &mut Lines, tree: &Value, steps: &[Step]) {
    if let Some(Value::Array(list)) = value_at(tree, steps) {
        write!(out, ": {} alternatives; 1 to 4 are allowed", list.len());
    }
    out.end();
}

/// Appends the path, and what is wrong at its end.
fn push_path_fault(out: &mut Lines, app: &App, tree: &Value, path: &Path, fault: &CertFault) {
    let steps = path.steps();
    if steps.is_empty() {
        write!(out, "the whole text");
    }
    push_path(out, app, steps);
    match fault {
        CertFault::Shape(_) => push_shape(out, tree, steps),
        CertFault::UnknownName(_, name) => push_unknown(out, app, steps, name.as_str()),
        CertFault::Note(_) => push_misfit(out, app, tree, steps, true),
        CertFault::Guard(_) => push_misfit(out, app, tree, steps, false),
        CertFault::EndTwice(_) => out.say(": this end is listed before"),
        CertFault::Alternatives(_) => push_alternatives(out, tree, steps),
        _ => out.end(),
    }
}

/// Appends the version that the text has.
fn push_version(out: &mut Lines, tree: &Value) {
    if let Some(value) = tree.get("version") {
        write!(out, "version: ");
        push_json_value(out, value);
        out.say("; wanted: 1 or 2");
    }
}

/// Appends how many notes and how many points there are, and what to do.
fn push_point_count(out: &mut Lines, app: &App, tree: &Value) {
    if let Some(Value::Array(notes)) = tree.get("notes") {
        let (notes, points) = (notes.len(), app.points());
        out.say(format_args!("notes: {notes}; points of the application: {points}"));
        out.say("if the code has changed since, let prove write a new certificate");
    }
}

/// Appends the place of a fault that is present in this value.
fn push_fault(out: &mut Lines, app: &App, tree: &Value, fault: &CertFault) {
    match fault {
        CertFault::Memory | CertFault::TooLong | CertFault::Json => {}
        CertFault::Version => push_version(out, tree),
        CertFault::PointCount => push_point_count(out, app, tree),
        CertFault::Shape(path)
        | CertFault::UnknownName(path, _)
        | CertFault::Note(path)
        | CertFault::Guard(path)
        | CertFault::EndTwice(path)
        | CertFault::Alternatives(path) => push_path_fault(out, app, tree, path, fault),
    }
}

/// Appends the place of a fault that is present in these bytes.
fn push_place(out: &mut Lines, app: &App, bytes: &[u8], fault: &CertFault) {
    if matches!(fault, CertFault::TooLong) {
        return out.say(format_args!("the file has over {MOST_CERTIFICATE_BYTES} bytes"));
    }
    match Value::from_slice(out.alloc, bytes) {
        Ok(tree) => push_fault(out, app, &tree, fault),
        Err(error) => push_json(out, bytes, &error),
    }
}

/// Where the certificate's bytes are refused for this fault, in a few lines of plain words; none where there is nothing to say.
///
/// The fault is one that `read_cert` gave for these bytes and this application. For another one the lines say less, or nothing.
///
/// Its error is that an allocation was refused.
pub fn place_of_certificate(
    alloc: Global,
    app: &App,
    bytes: &[u8],
    fault: &CertFault,
) -> Result<Location, AllocError> {
    let mut out = Lines::new(alloc);
    push_place(&mut out, app, bytes, fault);
    out.place()
}
