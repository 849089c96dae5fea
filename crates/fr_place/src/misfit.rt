// Why a note or an end of a certificate can't be one of an application.
use crate::certificate::push_json_value;
use crate::lines::Lines;
use fr_program::{App, Kind};
use serde_json::Value;

/// The word for a kind, as an application's text has it.
pub(crate) fn kind_text(kind: Kind) -> &'static str {
    match kind {
        Kind::Queue { .. } => "queue",
        Kind::Binary => "binary",
        Kind::Counting { .. } => "counting",
        Kind::Mutex => "mutex",
        Kind::Recursive => "recursive",
        Kind::Stream { .. } => "stream",
        Kind::Message { .. } => "message",
    }
}

/// The kind of the object with this name.
fn kind_named(app: &App, name: &str) -> Option<Kind> {
    let mut objects = app.objects().iter();
    Some(objects.find(|object| object.name.as_str() == name)?.kind)
}

/// The number in a list at this place.
fn number_in(list: &Value, index: usize) -> Option<i128> {
    list.get(index)?.as_number()?.as_i128()
}

/// Appends the declared range of the variable with this name, where this one isn't inside it.
fn push_range(out: &mut Lines, app: &App, name: &str, range: &Value) {
    let mut variables = app.variables().iter();
    if let Some(lo) = number_in(range, 0)
        && let Some(hi) = number_in(range, 1)
        && let Some(variable) = variables.find(|variable| variable.name.as_str() == name)
        && (lo < i128::from(variable.lo) || i128::from(variable.hi) < hi)
    {
        let (least, most) = (variable.lo, variable.hi);
        out.say(format_args!("range of {name}: {lo} to {hi}; declared: {least} to {most}"));
    }
}

/// Appends why the object with this name can't be held so often. A plain mutex is held once.
fn push_count(out: &mut Lines, app: &App, name: &str, count: &Value) {
    let Some(kind) = kind_named(app, name) else {
        return;
    };
    let count = count.as_u64().unwrap_or(0);
    match kind {
        Kind::Mutex | Kind::Recursive if count == 0 => {
            out.say(format_args!("held {name}: 0; leave it out"));
        }
        Kind::Mutex if count > 1 => {
            out.say(format_args!("held {name}: {count}; a plain mutex is held once"));
        }
        Kind::Mutex | Kind::Recursive => {}
        _ => {
            let kind = kind_text(kind);
            out.say(format_args!("held {name}: it has the kind {kind}, which isn't held"));
        }
    }
}

/// Whether the list at the key `live` has the name.
fn is_live(note: &Value, name: &Value) -> bool {
    let live = note.get("live").and_then(Value::as_array);
    live.is_some_and(|live| live.iter().any(|other| other.as_str() == name.as_str()))
}

/// How often the object with this name is held.
fn held<'a>(note: &'a Value, name: &Value) -> Option<&'a Value> {
    note.get("held")?.get(name.as_str()?)
}

/// Appends each range that isn't inside the declared one, each object that can't be held so often, and each that is dead and live, or
/// dead and held.
pub(crate) fn push_note(out: &mut Lines, app: &App, note: &Value) {
    if let Some(Value::Object(ranges)) = note.get("range") {
        for (name, range) in ranges {
            push_range(out, app, name.as_str(), range);
        }
    }
    if let Some(Value::Object(counts)) = note.get("held") {
        for (name, count) in counts {
            push_count(out, app, name.as_str(), count);
        }
    }
    if let Some(Value::Array(dead)) = note.get("dead") {
        for name in dead {
            if is_live(note, name) || held(note, name).is_some() {
                write!(out, "dead, and live or held: ");
                push_json_value(out, name);
                out.end();
            }
        }
    }
}

/// Appends the kind of the object that a value names, where it is none of these two, and returns whether it did.
fn push_kind(out: &mut Lines, app: &App, named: Option<&Value>, one: &str, other: &str) -> bool {
    if let Some(name) = named.and_then(Value::as_str)
        && let Some(kind) = kind_named(app, name)
    {
        let kind = kind_text(kind);
        if kind != one && kind != other {
            out.say(format_args!("{name} has the kind {kind}; wanted: {one} or {other}"));
            return true;
        }
    }
    false
}

/// Appends why an end of a buffer has a guard that doesn't fit.
pub(crate) fn push_end(out: &mut Lines, app: &App, end: &Value) {
    let guard = end.get("guard");
    let mutex = guard.and_then(|guard| guard.get("mutex"));
    let values = guard.and_then(|guard| guard.get("values"));
    if !push_kind(out, app, end.get("buffer"), "stream", "message")
        && !push_kind(out, app, mutex, "mutex", "recursive")
        && values.is_some()
    {
        out.say("two actors have one value");
    }
}
