// The place of an application's refusal.
use crate::build::push_build;
use crate::faulty::{push_missing, push_named, push_unknown_key, push_wrong_type};
use crate::line::push_line;
use crate::lines::Lines;
use crate::position::{position_at, push_position};
use crate::shown::Start;
use crate::table::{line_at, table_named};
use fr_escape::Location;
use fr_instr::LineFault;
use fr_reader::{Key, MOST_APPLICATION_BYTES, ReadFault, names_in};
use std::alloc::{AllocError, Global};
use toml::Table;

/// Appends where the text is no TOML.
fn push_toml(out: &mut Lines, bytes: &[u8], error: &toml::de::Error) {
    match error.span() {
        Some(span) => push_position(out, bytes, position_at(bytes, span.start), error.message()),
        None => out.refuse(),
    }
}

/// Appends a line that can't be read, with its place.
fn push_bad_line(out: &mut Lines, whole: &Table, actor: &str, index: usize) {
    let found = table_named(whole, Key::Actor, actor);
    let Some(line) = found.and_then(|table| line_at(table, index)) else {
        return;
    };
    out.say(format_args!("{} {index}:", Start(actor)));
    match names_in(out.alloc, whole) {
        Ok(names) => push_line(out, whole, &names, line),
        Err(error) if error.is_memory() => out.refuse(),
        Err(_) => out.say(Start(line)),
    }
}

/// Appends the place of a fault that is present in this table.
fn push_fault(out: &mut Lines, whole: &Table, fault: &ReadFault) {
    match fault {
        ReadFault::Memory | ReadFault::TooLong | ReadFault::Toml => {}
        ReadFault::Missing(name, key) => push_missing(out, whole, *name, *key),
        ReadFault::WrongType(name, key) => push_wrong_type(out, whole, *name, *key),
        ReadFault::UnknownKey(name, key) => push_unknown_key(out, whole, *name, key.as_str()),
        ReadFault::Twice(name) => push_named(out, whole, name.as_str()),
        ReadFault::BadName(name) => {
            push_named(out, whole, name.as_str());
            out.say(
                "a name has 1 to 32 letters, digits and underscores, no digit first, and is no word of the lines",
            );
        }
        ReadFault::Line { actor, index, .. } => push_bad_line(out, whole, actor.as_str(), *index),
        ReadFault::Build(fault) => push_build(out, whole, *fault),
    }
}

/// Whether the fault is a word that is the name of nothing: of no key, kind, owner, variable, object or call. Its place shows
/// the nearest name.
pub fn is_unknown_word(fault: &ReadFault) -> bool {
    match fault {
        ReadFault::UnknownKey(..) | ReadFault::WrongType(_, Key::Kind | Key::Owner) => true,
        ReadFault::Line { fault, .. } => matches!(
            fault,
            LineFault::UnknownName | LineFault::UnknownCall
        ),
        _ => false,
    }
}

/// Appends the place of a fault that is present in these bytes.
fn push_place(out: &mut Lines, bytes: &[u8], fault: &ReadFault) {
    if matches!(fault, ReadFault::TooLong) {
        return out.say(format_args!("the file has over {MOST_APPLICATION_BYTES} bytes"));
    }
    match toml::table_from_slice(out.alloc, bytes) {
        Ok(table) => push_fault(out, &table, fault),
        Err(error) => push_toml(out, bytes, &error),
    }
}

/// Where the application's bytes are refused for this fault, in a few lines of plain words; none where there is nothing to say.
///
/// The fault is one that `read_app` gave for these bytes. For another one the lines say less, or nothing.
///
/// Its error is that an allocation was refused.
pub fn place_of_app(alloc: Global, text: &[u8], fault: &ReadFault) -> Result<Location, AllocError> {
    let mut out = Lines::new(alloc);
    push_place(&mut out, text, fault);
    out.place()
}
