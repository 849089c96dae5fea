// Why bytes are no certificate for an application.
ghost use Rattle.std.specs.Prelude.{◌≡◌, Some};
ghost use Rattle.fr_cert.specs.declared.fault.CertFault.TheVariants.{Memory};

use crate::path::Path;
use std::alloc::{AllocError, AllocFailed};
use std::error::Error;
use std::fmt;

/// Why bytes are no certificate for an application. Its text is the number and the name that a
/// refusal's line shows.
#[derive(Debug, Drop)]
pub enum CertFault {
    /// An allocation was refused.
    Memory,
    /// Over 16,777,216 bytes.
    TooLong,
    /// No JSON text: not UTF-8, cut short, with trailing text, or nested over 127 deep.
    Json,
    /// A key or a value that a certificate doesn't have there, or one that is missing.
    Shape(Path),
    /// The version is another integer than 1 and 2.
    Version,
    /// There isn't one note for each point.
    PointCount,
    /// A name that the application doesn't have, and where it is.
    UnknownName(Path, String),
    /// A depth or a count that is not 0 to 255, a range with its lower end above the upper one, a name
    /// that is twice in one list, or a note that can't be one of the application.
    Note(Path),
    /// A guard of what is no stream or message buffer, of what is no mutex, or a turn with two equal
    /// values or one past 64 bits.
    Guard(Path),
    /// An end that is listed before.
    EndTwice(Path),
    /// A list of no alternative, or of more than four.
    Alternatives(Path),
}

impl CertFault {
    ghost use Rattle.fr_cert.specs.FaultText.{text_of};
    ghost use Rattle.fr_cert.specs.Faults.{is_memory};

    /// The number and the name, as a refusal's line shows them.
    pub fn text(&self) -> &'static str
        ensures { result.now ≡ text_of self.now }
    {
        match self {
            CertFault::Memory => "0 Memory",
            CertFault::TooLong => "1 TooLong",
            CertFault::Json => "2 Json",
            CertFault::Shape(_) => "3 Shape",
            CertFault::Version => "4 Version",
            CertFault::PointCount => "5 PointCount",
            CertFault::UnknownName(..) => "6 UnknownName",
            CertFault::Note(_) => "7 Note",
            CertFault::Guard(_) => "8 Guard",
            CertFault::EndTwice(_) => "9 EndTwice",
            CertFault::Alternatives(_) => "10 Alternatives",
        }
    }

    /// Whether an allocation was refused.
    pub fn is_memory(&self) -> bool
        ensures { result ≡ is_memory self.now }
    {
        matches!(self, CertFault::Memory)
    }
}

impl fmt::Display for CertFault {
    ghost use Rattle.fr_cert.specs.FaultText.{text_of};

    ghost output = { λ f. Some (text_of f) };

    fn fmt<W: fmt::Write>(&self, f: &mut fmt::Formatter<W>) -> fmt::Result {
        f.write_str(self.text())
    }
}

impl Error for CertFault {}

impl From<AllocError> for CertFault {
    ghost from_gives = { λ _ e. e ≡ Memory };

    fn from(_refused: AllocError) -> CertFault {
        CertFault::Memory
    }
}

impl<T: Drop> From<AllocFailed<T>> for CertFault {
    ghost from_gives = { λ _ e. e ≡ Memory };

    fn from(_refused: AllocFailed<T>) -> CertFault {
        CertFault::Memory
    }
}
