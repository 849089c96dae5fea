// Why a text is no application.
ghost use Rattle.std.specs.Prelude.{◌≡◌, Some};
ghost use Rattle.fr_reader.specs.declared.fault.ReadFault.TheVariants.{Memory};

use crate::key::{Key, TableName};
use fr_instr::LineFault;
use fr_program::BuildFault;
use std::alloc::{AllocError, AllocFailed};
use std::error::Error;
use std::fmt;

/// Why a text is no application. Its text is the number and the name that a refusal's line shows, and for a line and
/// for the parts what that fault's line shows; the tables, keys and names of faults 3 to 7 are not shown.
#[derive(Debug, Drop)]
pub enum ReadFault {
    /// An allocation was refused.
    Memory,
    /// The text has over 1,048,576 bytes.
    TooLong,
    /// The bytes are not UTF-8, or no TOML text.
    Toml,
    /// This table lacks a key that it has to have.
    Missing(TableName, Key),
    /// What this table has at the key is of another type, is an unknown word at `kind`, or is no
    /// actor's name at `owner`. Where the entry of a list is no table, the key is that of the list.
    WrongType(TableName, Key),
    /// This table has a key that is none of its keys.
    UnknownKey(TableName, String),
    /// A name is given more than once among variables, objects and actors.
    Twice(String),
    /// A name is none: it has 1 to 32 ASCII letters, digits and underscores, with no digit first,
    /// and is not `set`, `if`, `goto`, `pick`, `return`, `else`, `NULL` or `portMAX_DELAY`.
    BadName(String),
    /// A line of an actor's code has a fault: the actor's name, the line's place from 0, and the
    /// fault. Lines are read where none of the faults above is present.
    Line {
        actor: String,
        index: usize,
        fault: LineFault,
    },
    /// What the text says is no application; this is asked where none of the faults above is present.
    Build(BuildFault),
}

impl ReadFault {
    ghost use Rattle.fr_reader.specs.Faults.{is_memory};

    /// Whether an allocation was refused, here or in the fault of a line or of the parts.
    pub fn is_memory(&self) -> bool
        ensures { result ≡ is_memory self.now }
    {
        match self {
            ReadFault::Memory => true,
            ReadFault::Line { fault, .. } => *fault == LineFault::Memory,
            ReadFault::Build(fault) => *fault == BuildFault::Memory,
            _ => false,
        }
    }
}

impl fmt::Display for ReadFault {
    ghost use Rattle.fr_reader.specs.FaultText.{fault_text};

    ghost output = { λ fault. Some (fault_text fault) };

    fn fmt<W: fmt::Write>(&self, f: &mut fmt::Formatter<W>) -> fmt::Result {
        match self {
            ReadFault::Memory => f.write_str("0 Memory"),
            ReadFault::TooLong => f.write_str("1 TooLong"),
            ReadFault::Toml => f.write_str("2 Toml"),
            ReadFault::Missing(..) => f.write_str("3 Missing"),
            ReadFault::WrongType(..) => f.write_str("4 WrongType"),
            ReadFault::UnknownKey(..) => f.write_str("5 UnknownKey"),
            ReadFault::Twice(_) => f.write_str("6 Twice"),
            ReadFault::BadName(_) => f.write_str("7 BadName"),
            ReadFault::Line {
                actor,
                index,
                fault,
            } => write!(f, "8 Line: {actor} {index}: {fault}"),
            ReadFault::Build(fault) => write!(f, "9 Build: {fault}"),
        }
    }
}

impl Error for ReadFault {}

impl From<AllocError> for ReadFault {
    ghost from_gives = { λ _ e. e ≡ Memory };

    fn from(_refused: AllocError) -> ReadFault {
        ReadFault::Memory
    }
}

impl<T: Drop> From<AllocFailed<T>> for ReadFault {
    ghost from_gives = { λ _ e. e ≡ Memory };

    fn from(_refused: AllocFailed<T>) -> ReadFault {
        ReadFault::Memory
    }
}
