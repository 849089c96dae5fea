// The tables of an application's text.
use crate::lines::Lines;
use crate::shown::Quoted;
use fr_code::{code_of, entries_at};
use fr_reader::{Key, TableName};
use toml::{Table, Value};

/// The lists of an application's text.
pub(crate) const LISTS: [Key; 3] = [Key::Variable, Key::Object, Key::Actor];

/// The text at this key.
pub(crate) fn text_at(table: &Value, key: Key) -> Option<&str> {
    table.get(key.text())?.as_str()
}

/// The number at this key.
pub(crate) fn number_at(table: &Value, key: Key) -> Option<i64> {
    table.get(key.text())?.as_integer()
}

/// The name that a table gives itself.
pub(crate) fn name_of(table: &Value) -> Option<&str> {
    text_at(table, Key::Name)
}

/// The table in the list at this key that gives itself this name.
pub(crate) fn table_named<'a>(whole: &'a Table, list: Key, name: &str) -> Option<&'a Value> {
    let mut tables = entries_at(whole, list).iter();
    tables.find(|table| name_of(table) == Some(name))
}

/// The text of the line with this number of an actor's code.
pub(crate) fn line_at(actor: &Value, index: usize) -> Option<&str> {
    code_of(actor).get(index)?.as_str()
}

/// The list that has the table, and its place there.
fn entry_of(name: TableName) -> Option<(Key, usize)> {
    match name {
        TableName::Whole => None,
        TableName::Variable(index) => Some((Key::Variable, index)),
        TableName::Object(index) => Some((Key::Object, index)),
        TableName::Actor(index) => Some((Key::Actor, index)),
    }
}

/// The value at the key of the table with this name.
pub(crate) fn value_in(whole: &Table, name: TableName, key: Key) -> Option<&Value> {
    match entry_of(name) {
        None => whole.get(key.text()),
        Some((list, index)) => entries_at(whole, list).get(index)?.get(key.text()),
    }
}

/// Appends the name of a table: its list, its place there from 0, and the name that it gives itself.
pub(crate) fn push_entry(out: &mut Lines, whole: &Table, list: Key, index: usize) {
    write!(out, "{} {index} ", list.text());
    match entries_at(whole, list).get(index).and_then(name_of) {
        Some(name) => write!(out, "{}", Quoted(name)),
        None => write!(out, "(counted from 0)"),
    }
}

/// The same of the table with this name, which may be the whole text.
pub(crate) fn push_table(out: &mut Lines, whole: &Table, name: TableName) {
    match entry_of(name) {
        Some((list, index)) => push_entry(out, whole, list, index),
        None => write!(out, "the file"),
    }
}

/// Appends a value: a text, a number or a truth value as it is written, else what it is.
pub(crate) fn push_value(out: &mut Lines, value: &Value) {
    match value {
        Value::String(text) => write!(out, "{}", Quoted(text.as_str())),
        Value::Array(_) => write!(out, "a list"),
        Value::Table(_) => write!(out, "a table"),
        _ => out.printed(value),
    }
}
