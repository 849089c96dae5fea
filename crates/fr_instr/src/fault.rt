// Why a text is no line.
ghost use Rattle.std.specs.Prelude.{◌≡◌, Some, Ok, Err, IfOk, IfErr};
ghost use Rattle.fr_instr.specs.declared.fault.LineFault.TheVariants.{Memory};

use std::alloc::{AllocError, AllocFailed};
use std::error::Error;
use std::fmt;

/// Why a text is no line. Its text is the number and the name that a refusal's line shows.
#[derive(Clone, Copy, Debug, PartialEq, Eq)]
pub enum LineFault {
    /// An allocation was refused.
    Memory,
    /// The tokens have no line's shape, a number is written in place of a word or a word in place
    /// of a number, or an `else` or a `v =` is written at a call that has none.
    Syntax,
    /// A word in an operand's, an object's or a variable's place that names no such thing.
    UnknownName,
    /// A word in the place of a call that is none of the calls.
    UnknownCall,
    /// A call with a wrong number of arguments.
    ArgCount,
    /// A number with a leading zero, `-0`, or one that is out of the limits of its place.
    BadNumber,
}

/// Why a text is no line, and where.
#[derive(Clone, Copy, Debug, PartialEq, Eq)]
pub struct LineFaultAt {
    pub fault: LineFault,
    /// Where in the text the token at fault begins, in bytes. It is the text's end where the line ends too soon, and 0 where
    /// an allocation was refused.
    pub at: usize,
}

/// Why tokens are no line, and how many of them are left where the fault is, the one at fault among them.
#[derive(Clone, Copy)]
pub(crate) struct TokenFault {
    pub fault: LineFault,
    pub left: usize,
}

/// What is read, or its fault at a token with which so many are left.
pub(crate) fn at<T>(left: usize, read: Result<T, LineFault>) -> Result<T, TokenFault>
    ensures ok { IfOk result (λ x. read ≡ Ok x) }
    ensures err { IfErr result (λ f. read ≡ Err f.fault) }
{
    match read {
        Ok(x) => Ok(x),
        Err(fault) => Err(fault.at(left)),
    }
}

impl LineFault {
    ghost use Rattle.fr_instr.specs.FaultText.{text_of};

    /// The fault at a token with which so many are left.
    pub(crate) fn at(self, left: usize) -> TokenFault
        ensures { result.fault ≡ self }
    {
        TokenFault { fault: self, left }
    }

    /// The number and the name, as a refusal's line shows them.
    pub fn text(self) -> &'static str
        ensures { result.now ≡ text_of self }
    {
        match self {
            LineFault::Memory => "0 Memory",
            LineFault::Syntax => "1 Syntax",
            LineFault::UnknownName => "2 UnknownName",
            LineFault::UnknownCall => "3 UnknownCall",
            LineFault::ArgCount => "4 ArgCount",
            LineFault::BadNumber => "5 BadNumber",
        }
    }
}

impl fmt::Display for LineFault {
    ghost use Rattle.fr_instr.specs.FaultText.{text_of};

    ghost output = { λ f. Some (text_of f) };

    fn fmt<W: fmt::Write>(&self, f: &mut fmt::Formatter<W>) -> fmt::Result {
        f.write_str(self.text())
    }
}

impl Error for LineFault {}

impl From<AllocError> for LineFault {
    ghost from_gives = { λ _ e. e ≡ Memory };

    fn from(_refused: AllocError) -> LineFault {
        LineFault::Memory
    }
}

impl<T: Drop> From<AllocFailed<T>> for LineFault {
    ghost from_gives = { λ _ e. e ≡ Memory };

    fn from(_refused: AllocFailed<T>) -> LineFault {
        LineFault::Memory
    }
}

impl From<AllocError> for LineFaultAt {
    ghost from_gives = { λ _ e. (e.fault ≡ Memory) × (e.at ≡ 0) };

    fn from(_refused: AllocError) -> LineFaultAt {
        LineFaultAt {
            fault: LineFault::Memory,
            at: 0,
        }
    }
}
