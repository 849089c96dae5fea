// What is written for certificates, or why they are refused and where, and the lists of an application's index.
use crate::alike::is_read_again;
use fr_cert::{CertFault, Path, read_cert, write_cert};
use fr_interfere::Index;
use fr_program::{App, ObjId, VarId};
use std::alloc::Global;

/// Where the fault is, if it says so.
fn place_of(fault: &CertFault) -> Option<&Path> {
    match fault {
        CertFault::Shape(path)
        | CertFault::UnknownName(path, _)
        | CertFault::Note(path)
        | CertFault::Guard(path)
        | CertFault::EndTwice(path)
        | CertFault::Alternatives(path) => Some(path),
        _ => None,
    }
}

/// The fault, and where it is, from the root on, if it says so.
fn fault_text(alloc: Global, fault: &CertFault) -> Option<String> {
    match place_of(fault) {
        Some(path) => format!(in alloc; "{fault} at /{path}").ok(),
        None => format!(in alloc; "{fault}").ok(),
    }
}

/// What is written for the certificate in this text, or the fault by which it is refused. None where what is written isn't read as
/// the same.
pub fn written(alloc: Global, app: &App, text: &str) -> Option<String> {
    match &read_cert(alloc, app, text.as_bytes()) {
        Ok(certificate) => {
            if !is_read_again(alloc, app, certificate)? {
                return None;
            }
            write_cert(alloc, app, certificate).ok()
        }
        Err(fault) => fault_text(alloc, fault),
    }
}

/// The list of the index with this name: `leavers`, or `writers` or `lives` with the number of a variable or an object.
fn list_named<'a>(index: &'a Index, name: &str) -> Option<&'a [usize]> {
    if name == "leavers" {
        return Some(index.leavers());
    }
    let (list, number) = name.split_once(' ')?;
    let number = number.parse::<usize>().ok()?;
    match list {
        "writers" => Some(index.writers(VarId(number))),
        "lives" => Some(index.lives(ObjId(number))),
        _ => None,
    }
}

/// The numbers, one after the other, or `none`.
fn numbers_text(alloc: Global, numbers: &[usize]) -> Option<String> {
    let mut text = String::from_str(alloc, if numbers.is_empty() { "none" } else { "" }).ok()?;
    for number in numbers {
        let between = if text.is_empty() { "" } else { " " };
        write!(text, "{between}{number}").ok()?;
    }
    Some(text)
}

/// The numbers of the list that is named, one after the other, or `none`.
pub fn list_text(alloc: Global, app: &App, name: &str) -> Option<String> {
    let index = Index::build(alloc, app).ok()?;
    match list_named(&index, name) {
        Some(numbers) => numbers_text(alloc, numbers),
        None => None,
    }
}
