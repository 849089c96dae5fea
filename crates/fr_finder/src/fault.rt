// Why no certificate is found.
ghost use Rattle.fr_finder.specs.declared.fault.FindFault.TheVariants.{Memory};
ghost use Rattle.std.specs.Prelude.{◌≡◌};

use std::alloc::AllocError;
use thiserror::Error;

/// Why no certificate is found.
#[derive(Clone, Copy, Debug, PartialEq, Eq, Error)]
pub enum FindFault {
    /// An allocation was refused.
    #[error("0 Memory")]
    Memory,
    /// The number of rounds is not 1 to 64.
    #[error("1 Rounds")]
    Rounds,
    /// No round in that number is the same as the one before it.
    #[error("2 NotStable")]
    NotStable,
}

impl From<AllocError> for FindFault {
    ghost from_gives = { λ _ e. e ≡ Memory };

    fn from(_refused: AllocError) -> FindFault {
        FindFault::Memory
    }
}
