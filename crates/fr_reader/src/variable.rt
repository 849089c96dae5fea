// Variables, as their tables have them.
ghost use Rattle.std.specs.Prelude.{◌≡◌, Some, option_map, option_copied, IfOk, IfErr, map};
ghost use Rattle.toml.specs.Data.{string};
ghost use Rattle.toml.specs.View.{view, table_view, array_view};
ghost use Rattle.fr_reader.specs.Keys.{field};
ghost use Rattle.fr_reader.specs.Texts.{IsVariable, IsTableOf, Each};
ghost use Rattle.fr_reader.specs.Faults.{InTable, InVariable, InEntry, InEntryAt, InEach, Standing};
ghost use Rattle.fr_reader.specs.Views.{variable_text};

use crate::fault::ReadFault;
use crate::key::{Key, TableKind, TableName};
use crate::table::{found_at, integer_at, known_keys, text_at};
use std::alloc::Global;
use toml::value::Array;
use toml::{Table, Value};

/// A variable as its table has it: its owner is a text still.
#[derive(Drop)]
pub(crate) struct VariableText<'a> {
    pub name: &'a str,
    pub lo: i64,
    pub hi: i64,
    pub init: i64,
    pub owner: Option<&'a str>,
}

/// The owner that the table gives, if it has one.
fn owner_at(table: &Table, name: TableName) -> Result<Option<&str>, ReadFault>
    ensures ok { IfOk result (λ o. field Key.Owner (table_view table.now) ≡ option_map string (option_copied o)) }
    ensures err { IfErr result (Standing (InTable TableKind.Variable name (table_view table.now))) }
{
    let Some(value) = found_at(table, Key::Owner) else {
        return Ok(None);
    };
    match value.as_str() {
        Some(text) => Ok(Some(text)),
        None => Err(ReadFault::WrongType(name, Key::Owner)),
    }
}

/// The variable that the table means.
fn variable_of(alloc: Global, table: &Table, name: TableName) -> Result<VariableText<'_>, ReadFault>
    ensures ok { IfOk result (λ v. IsVariable (table_view table.now) (variable_text v)) }
    ensures err { IfErr result (Standing (InVariable name (table_view table.now))) }
{
    known_keys(alloc, table, TableKind::Variable, name)?;
    Ok(VariableText {
        name: text_at(table, TableKind::Variable, name, Key::Name)?,
        lo: integer_at(table, TableKind::Variable, name, Key::Lo)?,
        hi: integer_at(table, TableKind::Variable, name, Key::Hi)?,
        init: integer_at(table, TableKind::Variable, name, Key::Init)?,
        owner: owner_at(table, name)?,
    })
}

/// The variable in an entry of the array of variables.
fn entry_of(alloc: Global, value: &Value, name: TableName) -> Result<VariableText<'_>, ReadFault>
    ensures ok { IfOk result (λ v. IsTableOf IsVariable (view value.now) (variable_text v)) }
    ensures err { IfErr result (Standing (InEntry Key.Variable name (InVariable name) (view value.now))) }
{
    match value.as_table() {
        Some(table) => variable_of(alloc, table, name),
        None => Err(ReadFault::WrongType(name, Key::Variable)),
    }
}

/// The variables that an array means, in its order.
pub(crate) fn variables_of(alloc: Global, array: &Array) -> Result<Vec<VariableText<'_>>, ReadFault>
    ensures ok { IfOk result (λ vs. Each (IsTableOf IsVariable) (array_view array.now) (map variable_text vs.items)) }
    ensures err { IfErr result (Standing (InEach (InEntryAt Key.Variable TableName.Variable InVariable) (array_view array.now))) }
{
    let mut variables = Vec::new(alloc);
    for (index, value) in array.iter().enumerate() {
        variables.push(entry_of(alloc, value, TableName::Variable(index))?)?;
    }
    Ok(variables)
}
