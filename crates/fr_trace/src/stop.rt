// Why a line isn't read.
ghost use Rattle.std.specs.Prelude.{◌≡◌};
ghost use Rattle.fr_trace.specs.declared.stop.Stop.TheVariants.{Memory};

use crate::no_trace::{TraceFault, Unlisted};
use std::alloc::{AllocError, AllocFailed};

/// Why a line isn't read.
#[derive(Clone, Copy)]
pub enum Stop<'a> {
    /// An allocation was refused.
    Memory,
    /// It has something that the application doesn't list.
    NotListed(Unlisted<'a>),
    /// It has this fault, after so many of its tokens.
    Wrong(TraceFault, usize),
}

impl<'a> From<AllocError> for Stop<'a> {
    ghost from_gives = { λ _ stop. stop ≡ Memory };

    fn from(_refused: AllocError) -> Stop<'a> {
        Stop::Memory
    }
}

impl<'a, T: Drop> From<AllocFailed<T>> for Stop<'a> {
    ghost from_gives = { λ _ stop. stop ≡ Memory };

    fn from(_refused: AllocFailed<T>) -> Stop<'a> {
        Stop::Memory
    }
}
