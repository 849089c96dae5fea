// Why the bytes are no trace of the application.
ghost use Rattle.std.specs.Prelude.{◌≡◌};
ghost use Rattle.fr_trace.specs.declared.no_trace.NoTrace.TheVariants.{Memory};

use std::alloc::AllocError;

/// What is wrong in a line.
#[derive(Clone, Copy, Debug, PartialEq, Eq)]
pub enum TraceFault {
    /// The first line isn't `fr_trace 1`.
    Version,
    /// The line is no event, no header and no `lost`.
    NoEvent,
    /// A number with a leading zero, `-0`, or one that has more than 64 bits.
    BadNumber,
    /// A word after `unseen` that is none of the calls.
    UnknownCall,
    /// An `unseen` after an event or a `lost`.
    LateHeader,
    /// A `set` of a variable that the application doesn't list, by an actor that it lists.
    UnknownVariable,
    /// A call with a wrong number of arguments.
    ArgCount,
    /// An argument that can't be in its place, as a word in the place of a length.
    BadArgument,
    /// A call begins that the header says is unseen.
    EnterUnseen,
    /// A call begins, but the actor is inside another one.
    EnterInCall,
    /// A call ends, but the actor is inside none, and nothing was lost before.
    ReturnOutside,
}

/// What the trace has that the application doesn't list. The words are those of the line.
#[derive(Clone, Copy)]
pub enum Unlisted<'a> {
    /// No actor has the name, and it touches this object, or sets this variable, which the application lists.
    Actor { touches: &'a [u8] },
    /// An actor of the application calls on an object of this name, and no object has it.
    Object { object: &'a [u8] },
    /// An actor of the application makes this call, for which there is no line of code.
    Call,
}

/// An event that the application doesn't list.
#[derive(Clone, Copy)]
pub struct NotListed<'a> {
    /// The number of its line in the text, from 1.
    pub line: usize,
    /// The actor's name.
    pub actor: &'a [u8],
    /// The line's text.
    pub text: &'a [u8],
    pub what: Unlisted<'a>,
}

/// Why the bytes are no trace of the application.
#[derive(Clone, Copy)]
pub enum NoTrace<'a> {
    /// An allocation was refused.
    Memory,
    /// They are over 67,108,864.
    TooLong,
    /// They aren't UTF-8.
    NotText,
    /// The line with this number, from 1, has the fault at this column, counted in bytes from 1.
    Faulty {
        line: usize,
        column: usize,
        fault: TraceFault,
    },
    /// They are a trace up to this event, which has something that the application doesn't list.
    NotListed(NotListed<'a>),
}

impl<'a> From<AllocError> for NoTrace<'a> {
    ghost from_gives = { λ _ fault. fault ≡ Memory };

    fn from(_refused: AllocError) -> NoTrace<'a> {
        NoTrace::Memory
    }
}
