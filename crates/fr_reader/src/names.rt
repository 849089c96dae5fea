// Names: what a name is, and that each one is given once among variables, objects and actors.
ghost use Rattle.std.specs.Prelude.{◌≡◌, ◌++◌, OnOk, IfOk, IfErr, map};
ghost use Rattle.fr_reader.specs.Meaning.{AreNames, lists_in};
ghost use Rattle.fr_reader.specs.Faults.{Standing};
ghost use Rattle.fr_reader.specs.Stands.{InNames};
ghost use Rattle.fr_reader.specs.Views.{line_text, texts_view};

use crate::actor::ActorText;
use crate::fault::ReadFault;
use crate::object::ObjectText;
use crate::texts::Texts;
use crate::variable::VariableText;
use fr_program::is_name;
use indexmap::IndexSet;
use std::alloc::{AllocError, Global};

/// The names of an application's three lists.
#[derive(Drop)]
pub(crate) struct NameLists<'a> {
    pub variables: Vec<&'a str>,
    pub objects: Vec<&'a str>,
    pub actors: Vec<&'a str>,
}

/// The names of the variables, in order.
fn variable_names<'a>(alloc: Global, texts: &[VariableText<'a>]) -> Result<Vec<&'a str>, AllocError>
    ensures { IfOk result (λ names. names.items ≡ map (λ v. v.name) texts.now) }
{
    texts.iter().map(|v| v.name).collect(alloc)
}

/// The names of the objects, in order.
fn object_names<'a>(alloc: Global, texts: &[ObjectText<'a>]) -> Result<Vec<&'a str>, AllocError>
    ensures { IfOk result (λ names. names.items ≡ map (λ o. o.name) texts.now) }
{
    texts.iter().map(|o| o.name).collect(alloc)
}

/// The names of the actors, in order.
fn actor_names<'a>(alloc: Global, texts: &[ActorText<'a>]) -> Result<Vec<&'a str>, AllocError>
    ensures { IfOk result (λ names. names.items ≡ map (λ a. a.name) texts.now) }
{
    texts.iter().map(|a| a.name).collect(alloc)
}

/// The names in the texts, as three lists.
pub(crate) fn names_of<'a>(alloc: Global, texts: &Texts<'a>) -> Result<NameLists<'a>, AllocError>
    ensures variables { IfOk result (λ lists. map line_text lists.variables.items ≡ (lists_in (texts_view texts.now)).variables) }
    ensures objects { IfOk result (λ lists. map line_text lists.objects.items ≡ (lists_in (texts_view texts.now)).objects) }
    ensures actors { IfOk result (λ lists. map line_text lists.actors.items ≡ (lists_in (texts_view texts.now)).actors) }
{
    Ok(NameLists {
        variables: variable_names(alloc, &texts.variables)?,
        objects: object_names(alloc, &texts.objects)?,
        actors: actor_names(alloc, &texts.actors)?,
    })
}

/// The names of the three lists together.
fn all_names<'a>(alloc: Global, lists: &NameLists<'a>) -> Result<Vec<&'a str>, AllocError>
    ensures { IfOk result (λ all. all.items ≡ lists.now.variables.items ++ (lists.now.objects.items ++ lists.now.actors.items)) }
{
    let mut all = Vec::new(alloc);
    all.extend_from_slice(&lists.variables)?;
    all.extend_from_slice(&lists.objects)?;
    all.extend_from_slice(&lists.actors)?;
    Ok(all)
}

/// Finds a text that is no name, or a name that is given twice.
fn check_each(alloc: Global, names: &[&str]) -> Result<(), ReadFault>
    ensures ok { OnOk result (AreNames (map line_text names.now)) }
    ensures err { IfErr result (Standing (InNames (map line_text names.now))) }
{
    let mut seen = IndexSet::new(alloc);
    for name in names {
        if !is_name(name) {
            return Err(ReadFault::BadName(String::from_str(alloc, name)?));
        }
        let (_, is_new) = seen.insert_full(*name)?;
        if !is_new {
            return Err(ReadFault::Twice(String::from_str(alloc, name)?));
        }
    }
    Ok(())
}

/// Finds a text in a name's place that is none, or a name that is given twice among the three lists.
pub(crate) fn check_names(alloc: Global, lists: &NameLists) -> Result<(), ReadFault>
    ensures ok { OnOk result (AreNames (map line_text lists.now.variables.items ++ (map line_text lists.now.objects.items ++ map line_text lists.now.actors.items))) }
    ensures err { IfErr result (Standing (InNames (map line_text lists.now.variables.items ++ (map line_text lists.now.objects.items ++ map line_text lists.now.actors.items)))) }
{
    let all = all_names(alloc, lists)?;
    check_each(alloc, &all)
}
