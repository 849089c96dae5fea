// What is at a key of a table.
ghost use Rattle.std.specs.Prelude.{◌≡◌, Some, OnOk, option_map, IfOk, IfErr};
ghost use Rattle.toml.specs.Data.{string, integer, boolean};
ghost use Rattle.toml.specs.View.{view, table_view};
ghost use Rattle.fr_reader.specs.Keys.{field, IsKeyOf, IsRequired, IsNumberKey, IsTextKey};
ghost use Rattle.fr_reader.specs.Faults.{InTable, Standing};
ghost use Rattle.fr_reader.specs.Texts.{AreKnown};

use crate::fault::ReadFault;
use crate::key::{self, Key, TableKind, TableName};
use std::alloc::Global;
use toml::{Table, Value};

/// What the table holds at the key.
pub(crate) fn found_at(table: &Table, key: Key) -> Option<&Value>
    ensures { option_map (λ v. view v.now) result ≡ field key (table_view table.now) }
{
    table.get(key.text())
}

/// The number at a key that a table of this kind has to have.
pub(crate) fn integer_at(
    table: &Table,
    kind: TableKind,
    name: TableName,
    key: Key,
) -> Result<i64, ReadFault>
    requires known { IsKeyOf kind key }
    requires required { IsRequired key }
    requires number { IsNumberKey key }
    ensures ok { IfOk result (λ n. field key (table_view table.now) ≡ Some (integer n)) }
    ensures err { IfErr result (Standing (InTable kind name (table_view table.now))) }
{
    let Some(value) = found_at(table, key) else {
        return Err(ReadFault::Missing(name, key));
    };
    match value.as_integer() {
        Some(n) => Ok(n),
        None => Err(ReadFault::WrongType(name, key)),
    }
}

/// The text at a key that a table of this kind has to have.
pub(crate) fn text_at(
    table: &Table,
    kind: TableKind,
    name: TableName,
    key: Key,
) -> Result<&str, ReadFault>
    requires known { IsKeyOf kind key }
    requires required { IsRequired key }
    requires text { IsTextKey key }
    ensures ok { IfOk result (λ s. field key (table_view table.now) ≡ Some (string s.now)) }
    ensures err { IfErr result (Standing (InTable kind name (table_view table.now))) }
{
    let Some(value) = found_at(table, key) else {
        return Err(ReadFault::Missing(name, key));
    };
    match value.as_str() {
        Some(text) => Ok(text),
        None => Err(ReadFault::WrongType(name, key)),
    }
}

/// The truth value at the key `live`.
pub(crate) fn live_at(table: &Table, kind: TableKind, name: TableName) -> Result<bool, ReadFault>
    requires { IsKeyOf kind Key.Live }
    ensures ok { IfOk result (λ b. field Key.Live (table_view table.now) ≡ Some (boolean b)) }
    ensures err { IfErr result (Standing (InTable kind name (table_view table.now))) }
{
    let Some(value) = found_at(table, Key::Live) else {
        return Err(ReadFault::Missing(name, Key::Live));
    };
    match value.as_bool() {
        Some(live) => Ok(live),
        None => Err(ReadFault::WrongType(name, Key::Live)),
    }
}

/// No key of the table is unknown there.
pub(crate) fn known_keys(
    alloc: Global,
    table: &Table,
    kind: TableKind,
    name: TableName,
) -> Result<(), ReadFault>
    ensures ok { OnOk result (AreKnown kind (table_view table.now)) }
    ensures err { IfErr result (Standing (InTable kind name (table_view table.now))) }
{
    for text in table.keys() {
        if !key::is_key_of(kind, text.as_str()) {
            return Err(ReadFault::UnknownKey(name, String::from_str(alloc, text.as_str())?));
        }
    }
    Ok(())
}
