// Why a source is refused, and where.

use crate::texts::{Word, clipped, filled};
use std::alloc::{AllocError, AllocFailed, Global};

/// A place in the source: its line and its column, from 1. A column is a character.
#[derive(Clone, Copy)]
pub(crate) struct Spot {
    pub(crate) line: usize,
    pub(crate) column: usize,
}

/// Why a source is refused.
#[derive(Drop)]
pub(crate) enum Fault {
    /// What is wrong, and where.
    Wrong(Spot, String),
    /// An allocation was refused.
    Memory,
}

impl From<AllocError> for Fault {
    fn from(_refused: AllocError) -> Fault {
        Fault::Memory
    }
}

impl<T: Drop> From<AllocFailed<T>> for Fault {
    fn from(_refused: AllocFailed<T>) -> Fault {
        Fault::Memory
    }
}

/// The fault of a fixed text at a place.
pub(crate) fn wrong(alloc: Global, spot: Spot, text: &str) -> Fault {
    wrong_with(alloc, spot, text, &[])
}

/// The fault that a form says is at a place, with its words. None of them is a piece of a source.
pub(crate) fn wrong_with(alloc: Global, spot: Spot, form: &str, words: &[Word<'_>]) -> Fault {
    match filled(alloc, form, words) {
        Ok(text) => Fault::Wrong(spot, text),
        Err(_) => Fault::Memory,
    }
}

/// The same with one or two texts as its words: the first one is cut where it is too long.
pub(crate) fn wrong_about(
    alloc: Global,
    spot: Spot,
    form: &str,
    first: &str,
    second: &str,
) -> Fault {
    wrong_with(
        alloc,
        spot,
        form,
        &[Word::Text(clipped(first)), Word::Text(second)],
    )
}
