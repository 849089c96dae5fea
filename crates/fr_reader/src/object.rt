// Objects, as their tables have them.
ghost use Rattle.std.specs.Prelude.{◌≡◌, Some, IfOk, IfErr, map, IfSome, IfNone};
ghost use Rattle.toml.specs.Data.{string};
ghost use Rattle.toml.specs.View.{view, table_view, array_view};
ghost use Rattle.fr_reader.specs.Keys.{field, kind_word, kind_named};
ghost use Rattle.fr_reader.specs.Texts.{IsObject, HasKind, IsTableOf, Each};
ghost use Rattle.fr_reader.specs.Faults.{InTable, InKind, InObject, InEntry, InEntryAt, InEach, Standing};
ghost use Rattle.fr_reader.specs.Views.{object_text};

use crate::fault::ReadFault;
use crate::key::{Key, ObjectKind, TableKind, TableName};
use crate::table::{found_at, integer_at, known_keys, live_at, text_at};
use fr_program::Kind;
use std::alloc::Global;
use toml::value::Array;
use toml::{Table, Value};

/// An object as its table has it.
#[derive(Drop)]
pub(crate) struct ObjectText<'a> {
    pub name: &'a str,
    pub kind: Kind,
    pub live: bool,
}

/// The kind of object that the word means.
fn kind_of_word(word: &str) -> Option<ObjectKind>
    ensures some { IfSome result (λ kind. word.now ≡ kind_word kind) }
    ensures none { IfNone result ((kind : ObjectKind) → word.now ≡ kind_word kind → ⊥) }
{
    match word {
        "queue" => Some(ObjectKind::Queue),
        "binary" => Some(ObjectKind::Binary),
        "counting" => Some(ObjectKind::Counting),
        "mutex" => Some(ObjectKind::Mutex),
        "recursive" => Some(ObjectKind::Recursive),
        "stream" => Some(ObjectKind::Stream),
        "message" => Some(ObjectKind::Message),
        _ => None,
    }
}

/// The kind of object that the table gives.
fn kind_at(table: &Table, name: TableName) -> Result<ObjectKind, ReadFault>
    ensures ok { IfOk result (λ kind. field Key.Kind (table_view table.now) ≡ Some (string (kind_word kind))) }
    ensures err { IfErr result (Standing (InKind kind_word name (table_view table.now))) }
{
    let Some(value) = found_at(table, Key::Kind) else {
        return Err(ReadFault::Missing(name, Key::Kind));
    };
    let Some(word) = value.as_str() else {
        return Err(ReadFault::WrongType(name, Key::Kind));
    };
    match kind_of_word(word) {
        Some(kind) => Ok(kind),
        None => Err(ReadFault::WrongType(name, Key::Kind)),
    }
}

/// The kind with the keys that only it has.
fn kind_of(table: &Table, kind: ObjectKind, name: TableName) -> Result<Kind, ReadFault>
    ensures named { IfOk result (λ k. kind_named k ≡ kind) }
    ensures ok { IfOk result (HasKind (table_view table.now)) }
    ensures err { IfErr result (Standing (InTable (TableKind.Object kind) name (table_view table.now))) }
{
    let table_kind = TableKind::Object(kind);
    match kind {
        ObjectKind::Queue => Ok(Kind::Queue {
            size: integer_at(table, table_kind, name, Key::Size)?,
            lo: integer_at(table, table_kind, name, Key::Lo)?,
            hi: integer_at(table, table_kind, name, Key::Hi)?,
        }),
        ObjectKind::Binary => Ok(Kind::Binary),
        ObjectKind::Counting => Ok(Kind::Counting {
            size: integer_at(table, table_kind, name, Key::Size)?,
            first: integer_at(table, table_kind, name, Key::First)?,
        }),
        ObjectKind::Mutex => Ok(Kind::Mutex),
        ObjectKind::Recursive => Ok(Kind::Recursive),
        ObjectKind::Stream => Ok(Kind::Stream {
            size: integer_at(table, table_kind, name, Key::Size)?,
        }),
        ObjectKind::Message => Ok(Kind::Message {
            size: integer_at(table, table_kind, name, Key::Size)?,
        }),
    }
}

/// The object that the table means, where its kind is this one.
fn object_of(
    alloc: Global,
    table: &Table,
    kind: ObjectKind,
    name: TableName,
) -> Result<ObjectText<'_>, ReadFault>
    requires { field Key.Kind (table_view table.now) ≡ Some (string (kind_word kind)) }
    ensures ok { IfOk result (λ o. IsObject (table_view table.now) (object_text o)) }
    ensures err { IfErr result (Standing (InTable (TableKind.Object kind) name (table_view table.now))) }
{
    let table_kind = TableKind::Object(kind);
    known_keys(alloc, table, table_kind, name)?;
    Ok(ObjectText {
        name: text_at(table, table_kind, name, Key::Name)?,
        kind: kind_of(table, kind, name)?,
        live: live_at(table, table_kind, name)?,
    })
}

/// The object in an entry of the array of objects.
fn entry_of(alloc: Global, value: &Value, name: TableName) -> Result<ObjectText<'_>, ReadFault>
    ensures ok { IfOk result (λ o. IsTableOf IsObject (view value.now) (object_text o)) }
    ensures err { IfErr result (Standing (InEntry Key.Object name (InObject name) (view value.now))) }
{
    match value.as_table() {
        Some(table) => object_of(alloc, table, kind_at(table, name)?, name),
        None => Err(ReadFault::WrongType(name, Key::Object)),
    }
}

/// The objects that an array means, in its order.
pub(crate) fn objects_of(alloc: Global, array: &Array) -> Result<Vec<ObjectText<'_>>, ReadFault>
    ensures ok { IfOk result (λ os. Each (IsTableOf IsObject) (array_view array.now) (map object_text os.items)) }
    ensures err { IfErr result (Standing (InEach (InEntryAt Key.Object TableName.Object InObject) (array_view array.now))) }
{
    let mut objects = Vec::new(alloc);
    for (index, value) in array.iter().enumerate() {
        objects.push(entry_of(alloc, value, TableName::Object(index))?)?;
    }
    Ok(objects)
}
