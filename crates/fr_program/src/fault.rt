// Why parts are no application.
ghost use Rattle.std.specs.Prelude.{◌≡◌, Some};
ghost use Rattle.fr_program.specs.declared.fault.BuildFault.TheVariants.{Memory};

use crate::ids::ActorId;
use std::alloc::{AllocError, AllocFailed};
use std::error::Error;
use std::fmt;

/// A line of an actor's code.
#[derive(Clone, Copy, Debug, PartialEq, Eq)]
pub struct CodeLine {
    pub actor: ActorId,
    /// The instruction's place in the actor's code, from 0.
    pub pc: usize,
}

/// Why parts are no application, and where: the line of code, or the actor, that the fault is
/// about. Its text is the number and the name that a refusal's line shows.
#[derive(Clone, Copy, Debug, PartialEq, Eq)]
pub enum BuildFault {
    /// An allocation was refused.
    Memory,
    /// Over 32 actors, 64 variables, 64 objects or 512 instructions of an actor.
    TooMany,
    /// A lower bound above its upper one, an initial value outside its range, or a size, first
    /// count, length, block time or delay out of its limits: at a line of code, or with none where
    /// a variable or an object is declared so.
    BadRange(Option<CodeLine>),
    /// A target past the end of the code.
    BadTarget(CodeLine),
    /// Code that is empty, or whose last instruction can go on to a next one.
    FallsOff(ActorId),
    /// An instruction names shared variables more than once.
    TwoShared(CodeLine),
    /// An instruction names another actor's variable.
    NotOwner(CodeLine),
    /// A call on an object of another kind.
    KindMismatch(CodeLine),
    /// A task makes a call that is for interrupts.
    FromIsrInTask(CodeLine),
    /// A variable's range lacks a part of what a `pick`, a result or a received value can be.
    ResultRange(CodeLine),
    /// One variable is both operands of a `set` or an `if`, or both operands of `*` are variables.
    Operands(CodeLine),
    /// A number that names nothing, at a line of code; or with none, a name that is none or is
    /// given twice, or an owner that is no actor.
    Names(Option<CodeLine>),
}

impl BuildFault {
    ghost use Rattle.fr_program.specs.FaultText.{text_of};

    /// The number and the name, as a refusal's line shows them.
    pub fn text(self) -> &'static str
        ensures { result.now ≡ text_of self }
    {
        match self {
            BuildFault::Memory => "0 Memory",
            BuildFault::TooMany => "1 TooMany",
            BuildFault::BadRange(_) => "2 BadRange",
            BuildFault::BadTarget(_) => "3 BadTarget",
            BuildFault::FallsOff(_) => "4 FallsOff",
            BuildFault::TwoShared(_) => "5 TwoShared",
            BuildFault::NotOwner(_) => "6 NotOwner",
            BuildFault::KindMismatch(_) => "7 KindMismatch",
            BuildFault::FromIsrInTask(_) => "8 FromIsrInTask",
            BuildFault::ResultRange(_) => "9 ResultRange",
            BuildFault::Operands(_) => "10 Operands",
            BuildFault::Names(_) => "11 Names",
        }
    }
}

impl fmt::Display for BuildFault {
    ghost use Rattle.fr_program.specs.FaultText.{text_of};

    ghost output = { λ f. Some (text_of f) };

    fn fmt<W: fmt::Write>(&self, f: &mut fmt::Formatter<W>) -> fmt::Result {
        f.write_str(self.text())
    }
}

impl Error for BuildFault {}

impl From<AllocError> for BuildFault {
    ghost from_gives = { λ _ e. e ≡ Memory };

    fn from(_refused: AllocError) -> BuildFault {
        BuildFault::Memory
    }
}

impl<T: Drop> From<AllocFailed<T>> for BuildFault {
    ghost from_gives = { λ _ e. e ≡ Memory };

    fn from(_refused: AllocFailed<T>) -> BuildFault {
        BuildFault::Memory
    }
}
