// The names of an application's variables. A name in two places of the source becomes one of its actor's own.

use crate::kernel::{is_reserved, kernel_named};
use crate::program::{Owner, Program, Variable};
use crate::texts::{Word, filled};
use std::alloc::{AllocError, Global};

/// The most characters of a name.
const LONGEST_NAME: usize = 32;

/// The most numbers that are tried after a name. Fewer names are taken.
const MOST_TRIES: usize = 1000;

/// How many variables of the application have a name: all of them, or those of the actor with this number.
fn count_of_variables(program: &Program, name: &str, actor: Option<usize>) -> usize {
    let mut count = 0usize;
    for place in &program.written {
        let variable = program.variable(*place);
        let is_counted = match (actor, variable.owner) {
            (None, _) => true,
            (Some(number), Owner::Actor(owner)) => number == owner,
            _ => false,
        };
        if is_counted && program.text(variable.name) == name {
            count = count.saturating_add(1);
        }
    }
    count
}

/// How many variables, objects and actors of the application have a name.
fn count_of(program: &Program, name: &str) -> usize {
    let mut count = count_of_variables(program, name, None);
    for object in &program.objects {
        count = count.saturating_add(usize::from(program.text(object.name) == name));
    }
    for actor in &program.actors {
        count = count.saturating_add(usize::from(program.text(actor.name) == name));
    }
    count
}

/// The name of an actor's own variable: the actor's, and its own after it.
fn own_name(
    alloc: Global,
    program: &Program,
    variable: Variable,
    number: usize,
) -> Result<String, AllocError> {
    let (actor, name) = (program.actor_name(number), program.text(variable.name));
    match variable.function {
        Some(function) if count_of_variables(program, name, Some(number)) > 1 => {
            let function = Word::Text(program.text(function));
            let words = &[Word::Text(actor), function, Word::Text(name)];
            filled(alloc, "%_%_%", words)
        }
        _ => filled(alloc, "%_%", &[Word::Text(actor), Word::Text(name)]),
    }
}

/// Whether one of some names is this text.
fn is_name_among(names: &[String], text: &str) -> bool {
    for name in names {
        if name.as_str() == text {
            return true;
        }
    }
    false
}

/// A name for an actor's own variable: it is short, no word of the notation or of the kernel, and no other name.
fn free_name(
    alloc: Global,
    program: &Program,
    names: &[String],
    variable: Variable,
    number: usize,
) -> Result<String, AllocError> {
    let mut text = own_name(alloc, program, variable, number)?;
    let name = program.text(variable.name);
    let short = name.get(..28).unwrap_or(name);
    for number in 2..MOST_TRIES {
        let is_free = text.len() <= LONGEST_NAME
            && !is_reserved(text.as_str())
            && kernel_named(text.as_str()).is_none()
            && count_of(program, text.as_str()) == 0
            && !is_name_among(names, text.as_str());
        if is_free {
            break;
        }
        text = filled(alloc, "%_%", &[Word::Text(short), Word::Count(number)])?;
    }
    Ok(text)
}

/// The name of each variable in the source, by its place.
fn names_in_source(alloc: Global, program: &Program) -> Result<Vec<String>, AllocError> {
    let mut names = Vec::new(alloc);
    for variable in &program.variables {
        names.push(String::from_str(alloc, program.text(variable.name))?)?;
    }
    Ok(names)
}

/// The name of each variable in the application, by its place.
pub(crate) fn names_of(alloc: Global, program: &Program) -> Result<Vec<String>, AllocError> {
    let mut names = names_in_source(alloc, program)?;
    rename(alloc, program, &mut names)?;
    Ok(names)
}

/// Gives each actor's own variable a name that no other has.
fn rename(alloc: Global, program: &Program, names: &mut [String]) -> Result<(), AllocError> {
    for place in &program.written {
        let variable = program.variable(*place);
        let Owner::Actor(number) = variable.owner else {
            continue;
        };
        if count_of(program, program.text(variable.name)) > 1 {
            let text = free_name(alloc, program, names, variable, number)?;
            if let Some(slot) = names.get_mut(*place) {
                *slot = text;
            }
        }
    }
    Ok(())
}
