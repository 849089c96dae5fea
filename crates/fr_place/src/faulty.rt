// What is wrong with a table of an application's text.
use crate::lines::Lines;
use crate::nearness::push_nearest;
use crate::shown::Quoted;
use crate::table::{LISTS, name_of, push_table, push_value, value_in};
use fr_code::entries_at;
use fr_reader::{Key, TableName};
use std::alloc::{AllocError, Global};
use toml::{Table, Value};

/// The kinds of objects, as the text has them, each with its keys.
static KINDS: [(&str, &[&str]); 7] = [
    ("queue", &["name", "kind", "live", "size", "lo", "hi"]),
    ("binary", &["name", "kind", "live"]),
    ("counting", &["name", "kind", "live", "size", "first"]),
    ("mutex", &["name", "kind", "live"]),
    ("recursive", &["name", "kind", "live"]),
    ("stream", &["name", "kind", "live", "size"]),
    ("message", &["name", "kind", "live", "size"]),
];

/// The keys that an object has that gives itself this kind.
fn keys_of_kind(kind: Option<&Value>) -> &'static [&'static str] {
    let kind = kind.and_then(Value::as_str);
    for (other, keys) in &KINDS {
        if Some(*other) == kind {
            return keys;
        }
    }
    &[]
}

/// The keys that a table with this name has.
fn keys_of(whole: &Table, name: TableName) -> &'static [&'static str] {
    match name {
        TableName::Whole => &["variable", "object", "actor"],
        TableName::Variable(_) => &["name", "lo", "hi", "init", "owner"],
        TableName::Object(_) => keys_of_kind(value_in(whole, name, Key::Kind)),
        TableName::Actor(_) => &["name", "kind", "code"],
    }
}

/// What has to be at the key of a table.
fn wanted_at(name: TableName, key: Key) -> &'static str {
    match (key, name) {
        (Key::Variable | Key::Object | Key::Actor, TableName::Whole) => "a list of tables",
        (Key::Variable | Key::Object | Key::Actor, _) => "a table",
        (Key::Name, _) => "a name in quotes",
        (Key::Lo | Key::Hi | Key::Init | Key::Size | Key::First, _) => "a whole number",
        (Key::Owner, _) => "an actor's name",
        (Key::Kind, TableName::Actor(_)) => "task or interrupt",
        (Key::Kind, _) => "a kind of object",
        (Key::Live, _) => "true or false",
        (Key::Code, _) => "a list of lines in quotes",
    }
}

/// The names in the tables of the list at this key.
pub(crate) fn names_at(alloc: Global, whole: &Table, list: Key) -> Result<Vec<&str>, AllocError> {
    let tables = entries_at(whole, list).iter();
    tables.filter_map(name_of).collect(alloc)
}

/// Appends the nearest of the words of which one has to be at the key of a table, if there are such words, and ends
/// the line.
fn push_nearest_word(out: &mut Lines, whole: &Table, name: TableName, key: Key, word: &str) {
    let alloc = out.alloc;
    match (key, name) {
        (Key::Owner, _) => push_nearest(out, word, names_at(alloc, whole, Key::Actor)),
        (Key::Kind, TableName::Actor(_)) => {
            push_nearest(out, word, Vec::from_slice(alloc, &["task", "interrupt"]));
        }
        (Key::Kind, _) => push_nearest(out, word, KINDS.iter().map(|row| row.0).collect(alloc)),
        _ => out.end(),
    }
}

/// Appends that the table lacks the key.
pub(crate) fn push_missing(out: &mut Lines, whole: &Table, name: TableName, key: Key) {
    push_table(out, whole, name);
    let (key, wanted) = (key.text(), wanted_at(name, key));
    out.say(format_args!(": {key} is missing; it is {wanted}"));
}

/// Appends the value at the key of a table, or the entry of code that is no text.
fn push_found(out: &mut Lines, key: Key, value: &Value) {
    if matches!(key, Key::Code)
        && let Value::Array(code) = value
        && let Some(index) = code.iter().position(|line| line.as_str().is_none())
        && let Some(line) = code.get(index)
    {
        write!(out, ": entry {index} of code is ");
        return push_value(out, line);
    }
    write!(out, ": {} = ", key.text());
    push_value(out, value);
}

/// Appends that the table has a wrong value at the key, and what it has to be.
pub(crate) fn push_wrong_type(out: &mut Lines, whole: &Table, name: TableName, key: Key) {
    push_table(out, whole, name);
    let wanted = wanted_at(name, key);
    let Some(value) = value_in(whole, name, key) else {
        return out.say(format_args!(": it has to be {wanted}"));
    };
    push_found(out, key, value);
    write!(out, "; it has to be {wanted}");
    push_nearest_word(out, whole, name, key, value.as_str().unwrap_or(""));
}

/// Appends that the table has a key that is none there.
pub(crate) fn push_unknown_key(out: &mut Lines, whole: &Table, name: TableName, key: &str) {
    push_table(out, whole, name);
    write!(out, ": {} is none of its keys", Quoted(key));
    let keys = keys_of(whole, name);
    push_nearest(out, key, Vec::from_slice(out.alloc, keys));
    write!(out, "its keys: ");
    for (index, key) in keys.iter().enumerate() {
        write!(out, "{}{key}", if index > 0 { ", " } else { "" });
    }
    out.end();
}

/// Appends each table that has the name.
pub(crate) fn push_named(out: &mut Lines, whole: &Table, name: &str) {
    for list in LISTS {
        for (index, table) in entries_at(whole, list).iter().enumerate() {
            if name_of(table) == Some(name) {
                let (list, name) = (list.text(), Quoted(name));
                out.say(format_args!("{list} {index} has the name {name}"));
            }
        }
    }
}
