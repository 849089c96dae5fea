// The whole table of an application's text: its three lists.
ghost use Rattle.std.specs.Prelude.{◌≡◌, Some, None, IfOk, IfErr, map, option_map};
ghost use Rattle.toml.specs.Data.{array};
ghost use Rattle.toml.specs.View.{table_view, array_view};
ghost use Rattle.fr_reader.specs.Keys.{field, IsKeyOf, IsListKey};
ghost use Rattle.fr_reader.specs.Texts.{IsVariable, IsObject, IsActor, IsTableOf, EachAt, AreTexts};
ghost use Rattle.fr_reader.specs.Faults.{InTable, InEntry, InVariable, InObject, InActor, InEachAt, InApplication, Standing};
ghost use Rattle.fr_reader.specs.Views.{variable_text, object_text, actor_text, texts_view};

use crate::actor::{self, ActorText};
use crate::fault::ReadFault;
use crate::key::{Key, TableKind, TableName};
use crate::object::{self, ObjectText};
use crate::table::{found_at, known_keys};
use crate::variable::{self, VariableText};
use std::alloc::Global;
use toml::Table;
use toml::value::Array;

/// What the tables of an application say, before names are asked for and lines are read.
#[derive(Drop)]
pub(crate) struct Texts<'a> {
    pub variables: Vec<VariableText<'a>>,
    pub objects: Vec<ObjectText<'a>>,
    pub actors: Vec<ActorText<'a>>,
}

/// The array at the key of a list, if the key is there.
fn array_at(table: &Table, key: Key) -> Result<Option<&Array>, ReadFault>
    requires known { IsKeyOf TableKind.Application key }
    requires list { IsListKey key }
    ensures ok { IfOk result (λ o. option_map (λ a. array (array_view a.now)) o ≡ field key (table_view table.now)) }
    ensures err { IfErr result (Standing (InTable TableKind.Application TableName.Whole (table_view table.now))) }
{
    let Some(value) = found_at(table, key) else {
        return Ok(None);
    };
    match value.as_array() {
        Some(array) => Ok(Some(array)),
        None => Err(ReadFault::WrongType(TableName::Whole, key)),
    }
}

/// The variables that the table gives; none where it has no such key.
fn variables_at(alloc: Global, table: &Table) -> Result<Vec<VariableText<'_>>, ReadFault>
    ensures ok { IfOk result (λ vs. EachAt (IsTableOf IsVariable) (field Key.Variable (table_view table.now)) (map variable_text vs.items)) }
    ensures err { IfErr result (Standing (InApplication (table_view table.now))) }
{
    match array_at(table, Key::Variable)? {
        Some(array) => variable::variables_of(alloc, array),
        None => Ok(Vec::new(alloc)),
    }
}

/// The objects that the table gives; none where it has no such key.
fn objects_at(alloc: Global, table: &Table) -> Result<Vec<ObjectText<'_>>, ReadFault>
    ensures ok { IfOk result (λ os. EachAt (IsTableOf IsObject) (field Key.Object (table_view table.now)) (map object_text os.items)) }
    ensures err { IfErr result (Standing (InApplication (table_view table.now))) }
{
    match array_at(table, Key::Object)? {
        Some(array) => object::objects_of(alloc, array),
        None => Ok(Vec::new(alloc)),
    }
}

/// The actors that the table gives; none where it has no such key.
fn actors_at(alloc: Global, table: &Table) -> Result<Vec<ActorText<'_>>, ReadFault>
    ensures ok { IfOk result (λ xs. EachAt (IsTableOf IsActor) (field Key.Actor (table_view table.now)) (map actor_text xs.items)) }
    ensures err { IfErr result (Standing (InApplication (table_view table.now))) }
{
    match array_at(table, Key::Actor)? {
        Some(array) => actor::actors_of(alloc, array),
        None => Ok(Vec::new(alloc)),
    }
}

/// The texts that the table of the whole text means.
pub(crate) fn texts_of(alloc: Global, table: &Table) -> Result<Texts<'_>, ReadFault>
    ensures ok { IfOk result (λ texts. AreTexts (table_view table.now) (texts_view texts)) }
    ensures err { IfErr result (Standing (InApplication (table_view table.now))) }
{
    known_keys(alloc, table, TableKind::Application, TableName::Whole)?;
    Ok(Texts {
        variables: variables_at(alloc, table)?,
        objects: objects_at(alloc, table)?,
        actors: actors_at(alloc, table)?,
    })
}
