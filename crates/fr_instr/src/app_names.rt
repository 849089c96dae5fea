// The names with which the lines of an application are written.
ghost use Rattle.std.specs.Prelude.{◌≡◌, IfOk, map, string_bytes};
ghost use Rattle.fr_instr.specs.AppNames.{names_in};
ghost use Rattle.fr_instr.specs.Views.{texts};

use crate::names::Names;
use fr_program::{Actor, App, Object, Variable};
use std::alloc::{AllocError, Global};

/// The names of the variables, in order.
fn variable_names<'a>(alloc: Global, variables: &'a [Variable]) -> Result<Vec<&'a str>, AllocError>
    ensures { IfOk result (λ names. texts names.items ≡ map (λ v. string_bytes v.name) variables.now) }
{
    let mut names = Vec::new(alloc);
    for variable in variables {
        names.push(variable.name.as_str())?;
    }
    Ok(names)
}

/// The names of the objects, in order.
fn object_names<'a>(alloc: Global, objects: &'a [Object]) -> Result<Vec<&'a str>, AllocError>
    ensures { IfOk result (λ names. texts names.items ≡ map (λ o. string_bytes o.name) objects.now) }
{
    let mut names = Vec::new(alloc);
    for object in objects {
        names.push(object.name.as_str())?;
    }
    Ok(names)
}

/// The names of the actors, in order.
fn actor_names<'a>(alloc: Global, actors: &'a [Actor]) -> Result<Vec<&'a str>, AllocError>
    ensures { IfOk result (λ names. texts names.items ≡ map (λ a. string_bytes a.name) actors.now) }
{
    let mut names = Vec::new(alloc);
    for actor in actors {
        names.push(actor.name.as_str())?;
    }
    Ok(names)
}

/// The names of the application's variables, objects and actors, each at its number.
///
/// Its error is that an allocation was refused.
pub fn names_of(alloc: Global, app: &App) -> Result<Names, AllocError>
    ensures { IfOk result (λ names. names ≡ names_in app.now) }
{
    app.recall_faultless();
    let variables = variable_names(alloc, app.variables())?;
    let objects = object_names(alloc, app.objects())?;
    let actors = actor_names(alloc, app.actors())?;
    Names::build(alloc, &variables, &objects, &actors)
}
