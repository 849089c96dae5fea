// The tables of an application's text that have code.
use fr_reader::Key;
use toml::{Table, Value};

/// The entries of the list at this key, none where there is no list.
pub fn entries_at(whole: &Table, key: Key) -> &[Value] {
    match whole.get(key.text()) {
        Some(Value::Array(list)) => list.as_slice(),
        _ => &[],
    }
}

/// The lines of the code in an actor's table, none where the value is no table.
pub fn code_of(actor: &Value) -> &[Value] {
    match actor.as_table() {
        Some(table) => entries_at(table, Key::Code),
        None => &[],
    }
}
