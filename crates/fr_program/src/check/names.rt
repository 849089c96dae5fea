// Names: what may be one, and that each is given once. There are at most 160, so each pair is compared.
ghost use Rattle.std.specs.Prelude.{◌≡◌, ◌≢◌, ◌≤◌, ◌<◌, ◌↔◌, ◌||◌, IsTrue, All, AllPairs, Contains, IfOk, IfErr, map, length, slice_index, take, drop};
ghost use Rattle.fr_program.specs.Limits.{IsName, names_of, is_letter, is_digit, reserved};
ghost use Rattle.fr_program.specs.ListFault.{HasOwner, IsWord};
ghost use Rattle.fr_program.specs.View.{variable_of, program_of};

use crate::fault::BuildFault;
use crate::parts::{Parts, Variable};
use std::alloc::Global;

/// The most bytes that a name has.
const LONGEST_NAME: usize = 32;

/// The names of variables, objects and actors together.
pub fn names_of(alloc: Global, parts: &Parts) -> Result<Vec<&str>, BuildFault>
    ensures ok { IfOk result (λ names. map (λ n. n.now) names.items ≡ names_of (program_of parts.now)) }
    ensures err { IfErr result (λ f. f ≡ BuildFault.Memory) }
{
    let variables = parts
        .variables
        .iter()
        .map(|variable| variable.name.as_str());
    let objects = parts.objects.iter().map(|object| object.name.as_str());
    let actors = parts.actors.iter().map(|actor| actor.name.as_str());
    Ok(variables.chain(objects.chain(actors)).collect(alloc)?)
}

/// Whether each of these is a name.
pub fn are_names(names: &[&str]) -> bool
    ensures { IsTrue result ↔ All (λ n. IsName n.now) names.now }
{
    names.iter().all(|name| is_name(name))
}

/// Whether a variable, an object or an actor can have this name: 1 to 32 ASCII letters, digits and
/// underscores, with no digit first, and none of the words that lines of code have for themselves
/// (`set`, `if`, `goto`, `pick`, `return`, `else`, `NULL`, `portMAX_DELAY`). This project's profile.
pub fn is_name(name: &str) -> bool
    ensures { IsTrue result ↔ IsName name.now }
{
    is_word(name.as_bytes()) && !is_reserved(name)
}

/// Whether these are 1 to 32 letters, digits and underscores, with no digit first.
fn is_word(name: &[u8]) -> bool
    ensures { IsTrue result ↔ IsWord name.now }
{
    has_length(name) && name.iter().all(|byte| is_word_byte(*byte)) && !starts_with_digit(name)
}

/// Whether these are as many bytes as a name can have.
fn has_length(name: &[u8]) -> bool
    ensures { IsTrue result ↔ (1 ≤ length name.now) × (length name.now ≤ 32) }
{
    1 <= name.len() && name.len() <= LONGEST_NAME
}

/// Whether the byte is an ASCII letter, a digit or an underscore.
fn is_word_byte(byte: u8) -> bool
    ensures { result ≡ (is_letter byte || is_digit byte) }
{
    byte.is_ascii_alphanumeric() || byte == b'_'
}

/// Whether the first byte is a digit.
fn starts_with_digit(name: &[u8]) -> bool
    ensures { result ≡ is_digit (slice_index name.now 0) }
{
    match name.first() {
        Some(byte) => byte.is_ascii_digit(),
        None => false,
    }
}

/// Whether lines of code have this word for themselves.
fn is_reserved(name: &str) -> bool
    ensures { IsTrue result ↔ Contains reserved name.now }
{
    is_line_word(name) || is_end_word(name)
}

/// Whether this is one of the first four of those words.
fn is_line_word(name: &str) -> bool
    ensures { IsTrue result ↔ Contains (take 4 reserved) name.now }
{
    name == "set" || name == "if" || name == "goto" || name == "pick"
}

/// Whether this is one of the other four of those words.
fn is_end_word(name: &str) -> bool
    ensures { IsTrue result ↔ Contains (drop 4 reserved) name.now }
{
    name == "return" || name == "else" || name == "NULL" || name == "portMAX_DELAY"
}

/// Whether no name is given twice.
pub fn are_distinct(names: &[&str]) -> bool
    ensures { IsTrue result ↔ AllPairs (λ x y. x.now ≢ y.now) names.now }
{
    for (k, name) in names.iter().enumerate() {
        if !differs_from_each(name, &names[k + 1..]) {
            return false;
        }
    }
    true
}

/// Whether the name is none of the others.
fn differs_from_each(name: &str, names: &[&str]) -> bool
    ensures { IsTrue result ↔ All (λ other. name.now ≢ other.now) names.now }
{
    names.iter().all(|other| *other != name)
}

/// Whether each variable's owner, where it has one, is one of so many actors.
pub fn are_owners_there(variables: &[Variable], actors: usize) -> bool
    ensures { IsTrue result ↔ All (λ v. HasOwner actors (variable_of v)) variables.now }
{
    variables.iter().all(|variable| match variable.owner {
        Some(owner) => owner.0 < actors,
        None => true,
    })
}
