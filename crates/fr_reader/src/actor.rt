// Actors, as their tables have them.
ghost use Rattle.std.specs.Prelude.{◌≡◌, Some, IfOk, IfErr, IfSome, IfNone, map};
ghost use Rattle.toml.specs.Data.{string, array};
ghost use Rattle.toml.specs.View.{view, table_view, array_view};
ghost use Rattle.fr_reader.specs.Keys.{field, actor_word};
ghost use Rattle.fr_reader.specs.Texts.{IsActor, IsTableOf, IsText, Each};
ghost use Rattle.fr_reader.specs.Faults.{InTable, InKind, InActor, InLine, InEntry, InEntryAt, InEach, Standing};
ghost use Rattle.fr_reader.specs.Views.{actor_text, line_text};

use crate::fault::ReadFault;
use crate::key::{Key, TableKind, TableName};
use crate::table::{found_at, known_keys, text_at};
use fr_program::ActorKind;
use std::alloc::Global;
use toml::value::Array;
use toml::{Table, Value};

/// An actor as its table has it: its code is texts still.
#[derive(Drop)]
pub(crate) struct ActorText<'a> {
    pub name: &'a str,
    pub kind: ActorKind,
    pub lines: Vec<&'a str>,
}

/// The kind of actor that the word means.
fn kind_of_word(word: &str) -> Option<ActorKind>
    ensures some { IfSome result (λ kind. word.now ≡ actor_word kind) }
    ensures none { IfNone result ((kind : ActorKind) → word.now ≡ actor_word kind → ⊥) }
{
    match word {
        "task" => Some(ActorKind::Task),
        "interrupt" => Some(ActorKind::Interrupt),
        _ => None,
    }
}

/// The kind of actor that the table gives.
fn kind_at(table: &Table, name: TableName) -> Result<ActorKind, ReadFault>
    ensures ok { IfOk result (λ kind. field Key.Kind (table_view table.now) ≡ Some (string (actor_word kind))) }
    ensures err { IfErr result (Standing (InKind actor_word name (table_view table.now))) }
{
    let Some(value) = found_at(table, Key::Kind) else {
        return Err(ReadFault::Missing(name, Key::Kind));
    };
    let Some(word) = value.as_str() else {
        return Err(ReadFault::WrongType(name, Key::Kind));
    };
    match kind_of_word(word) {
        Some(kind) => Ok(kind),
        None => Err(ReadFault::WrongType(name, Key::Kind)),
    }
}

/// The array of lines that the table gives.
fn code_at(table: &Table, name: TableName) -> Result<&Array, ReadFault>
    ensures ok { IfOk result (λ a. field Key.Code (table_view table.now) ≡ Some (array (array_view a.now))) }
    ensures err { IfErr result (Standing (InTable TableKind.Actor name (table_view table.now))) }
{
    let Some(value) = found_at(table, Key::Code) else {
        return Err(ReadFault::Missing(name, Key::Code));
    };
    match value.as_array() {
        Some(array) => Ok(array),
        None => Err(ReadFault::WrongType(name, Key::Code)),
    }
}

/// The text of a line.
fn line_of(value: &Value, name: TableName) -> Result<&str, ReadFault>
    ensures ok { IfOk result (λ line. IsText (view value.now) (line_text line)) }
    ensures err { IfErr result (Standing (InLine name (view value.now))) }
{
    match value.as_str() {
        Some(line) => Ok(line),
        None => Err(ReadFault::WrongType(name, Key::Code)),
    }
}

/// The texts that an array has, in its order.
fn lines_of(alloc: Global, array: &Array, name: TableName) -> Result<Vec<&str>, ReadFault>
    ensures ok { IfOk result (λ lines. Each IsText (array_view array.now) (map line_text lines.items)) }
    ensures err { IfErr result (Standing (InEach (λ i. InLine name) (array_view array.now))) }
{
    let mut lines = Vec::new(alloc);
    for value in array {
        lines.push(line_of(value, name)?)?;
    }
    Ok(lines)
}

/// The actor that the table means.
fn actor_of(alloc: Global, table: &Table, name: TableName) -> Result<ActorText<'_>, ReadFault>
    ensures ok { IfOk result (λ a. IsActor (table_view table.now) (actor_text a)) }
    ensures err { IfErr result (Standing (InActor name (table_view table.now))) }
{
    known_keys(alloc, table, TableKind::Actor, name)?;
    Ok(ActorText {
        name: text_at(table, TableKind::Actor, name, Key::Name)?,
        kind: kind_at(table, name)?,
        lines: lines_of(alloc, code_at(table, name)?, name)?,
    })
}

/// The actor in an entry of the array of actors.
fn entry_of(alloc: Global, value: &Value, name: TableName) -> Result<ActorText<'_>, ReadFault>
    ensures ok { IfOk result (λ a. IsTableOf IsActor (view value.now) (actor_text a)) }
    ensures err { IfErr result (Standing (InEntry Key.Actor name (InActor name) (view value.now))) }
{
    match value.as_table() {
        Some(table) => actor_of(alloc, table, name),
        None => Err(ReadFault::WrongType(name, Key::Actor)),
    }
}

/// The actors that an array means, in its order.
pub(crate) fn actors_of(alloc: Global, array: &Array) -> Result<Vec<ActorText<'_>>, ReadFault>
    ensures ok { IfOk result (λ xs. Each (IsTableOf IsActor) (array_view array.now) (map actor_text xs.items)) }
    ensures err { IfErr result (Standing (InEach (InEntryAt Key.Actor TableName.Actor InActor) (array_view array.now))) }
{
    let mut actors = Vec::new(alloc);
    for (index, value) in array.iter().enumerate() {
        actors.push(entry_of(alloc, value, TableName::Actor(index))?)?;
    }
    Ok(actors)
}
