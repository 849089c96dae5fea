// Instructions: the lines of an actor's code.
ghost use Rattle.std.specs.Prelude.{◌≡◌};

use crate::ids::{ObjId, VarId};

/// A number, or the value of a variable.
#[derive(Clone, Copy)]
pub enum Operand {
    Number(i64),
    Variable(VarId),
}

impl Operand {
    ghost use Rattle.fr_program.specs.Uses.{operand_variables, option_list};

    /// The variable that the operand is, if it is one.
    pub fn variable(self) -> Option<VarId>
        ensures { option_list result ≡ operand_variables self }
    {
        match self {
            Operand::Variable(x) => Some(x),
            Operand::Number(_) => None,
        }
    }
}

/// What a `set` computes of its two operands.
#[derive(Clone, Copy)]
pub enum Operator {
    Plus,
    Minus,
    Times,
}

/// How an `if` compares its two operands: `<`, `<=`, `>`, `>=`, `==`, `!=`.
#[derive(Clone, Copy)]
pub enum Comparison {
    Less,
    AtMost,
    Greater,
    AtLeast,
    Equal,
    NotEqual,
}

/// How long a task's call may wait: a number of ticks, or `portMAX_DELAY`, which is without limit.
#[derive(Clone, Copy)]
pub enum BlockTime {
    Ticks(u32),
    MaxDelay,
}

/// The form of a call that has no block time: the one for tasks, or the one for interrupts.
#[derive(Clone, Copy, PartialEq, Eq)]
pub enum Form {
    Task,
    FromIsr,
}

/// When an object call answers: at once, since it has no block time; at once, in the form for
/// interrupts; or within its block time.
#[derive(Clone, Copy)]
pub enum Timing {
    Now,
    FromIsr,
    Waits(BlockTime),
}

impl Timing {
    ghost use Rattle.fr_program.specs.Uses.{is_timing_from_isr};

    /// Whether this is the form for interrupts.
    pub fn is_from_isr(self) -> bool
        ensures { result ≡ is_timing_from_isr self }
    {
        matches!(self, Timing::FromIsr)
    }
}

/// The form of a take or a give: the plain one, or the one for recursive mutexes.
#[derive(Clone, Copy, PartialEq, Eq)]
pub enum SemaphoreForm {
    Plain,
    Recursive,
}

/// Whether a buffer call is one for stream buffers or one for message buffers.
#[derive(Clone, Copy, PartialEq, Eq)]
pub enum BufferKind {
    Stream,
    Message,
}

/// What a create call makes.
#[derive(Clone, Copy, PartialEq, Eq)]
pub enum CreatedKind {
    Queue,
    Binary,
    Counting,
    Mutex,
    Recursive,
    Stream,
    Message,
}

/// What a delete call takes: `vSemaphoreDelete` is for semaphores and mutexes of every kind.
#[derive(Clone, Copy, PartialEq, Eq)]
pub enum DeletedKind {
    Queue,
    Semaphore,
    Stream,
    Message,
}

/// An end of a stream or message buffer: sends are at the writer's, receives at the reader's.
#[derive(Clone, Copy, PartialEq, Eq)]
pub enum End {
    Writer,
    Reader,
}

impl End {
    ghost use Rattle.fr_program.specs.Uses.{end_text};

    /// The end's name, as certificates and reports have it.
    pub fn text(self) -> &'static str
        ensures { result.now ≡ end_text self }
    {
        match self {
            End::Writer => "writer",
            End::Reader => "reader",
        }
    }
}

/// What an object call tries to do, which can fail.
#[derive(Clone, Copy)]
pub enum Attempt {
    QueueSend(Operand),
    QueueReceive(VarId),
    Take(SemaphoreForm),
    Give(SemaphoreForm),
    Reset(BufferKind),
}

/// What an object call does. Such a call has a begin and an end, and between them its actor is
/// inside it.
#[derive(Clone, Copy)]
pub enum Act {
    /// It works or fails; `or_else` is the instruction that follows a failure, where the line names
    /// one.
    Try {
        attempt: Attempt,
        or_else: Option<usize>,
    },
    /// It moves up to `length` bytes at an end of a buffer; `result` takes the number of bytes that
    /// were moved.
    Move {
        end: End,
        kind: BufferKind,
        length: u32,
        result: Option<VarId>,
    },
}

impl Attempt {
    ghost use Rattle.fr_program.specs.Uses.{received_by};

    /// The variable to which a call that works gives a value, if there is one.
    pub fn received(self) -> Option<VarId>
        ensures { result ≡ received_by self }
    {
        match self {
            Attempt::QueueReceive(into) => Some(into),
            _ => None,
        }
    }
}

impl Act {
    ghost use Rattle.fr_program.specs.Uses.{else_of, written_by};

    /// The instruction that follows a failure, where the line names one.
    pub fn else_target(self) -> Option<usize>
        ensures { result ≡ else_of self }
    {
        match self {
            Act::Try { or_else, .. } => or_else,
            Act::Move { .. } => None,
        }
    }

    /// The variable to which the end of the call gives a value, if there is one.
    pub fn written(self) -> Option<VarId>
        ensures { result ≡ written_by self }
    {
        match self {
            Act::Try { attempt, .. } => attempt.received(),
            Act::Move { result, .. } => result,
        }
    }
}

/// A call on an object. Which act goes with which timing is a limit of applications: gives and resets
/// have no block time and all other acts have one; resets and the forms for recursive mutexes aren't
/// for interrupts.
#[derive(Clone, Copy)]
pub struct ObjectCall {
    pub object: ObjId,
    pub timing: Timing,
    pub act: Act,
}

/// A kernel call.
#[derive(Clone, Copy)]
pub enum Call {
    EnterCritical(Form),
    ExitCritical(Form),
    SuspendAll,
    ResumeAll,
    Yield,
    Delay(u32),
    /// `vTaskDelete(NULL)`: the task ends.
    DeleteSelf,
    Create {
        kind: CreatedKind,
        object: ObjId,
        or_else: Option<usize>,
    },
    Delete {
        kind: DeletedKind,
        object: ObjId,
    },
    /// An object call: the one kind of call that has two steps.
    On(ObjectCall),
}

impl Call {
    ghost use Rattle.fr_program.specs.Uses.{is_from_isr, object_of_call};

    /// Whether the call's name ends in FromISR or _FROM_ISR.
    pub fn is_from_isr(self) -> bool
        ensures { result ≡ is_from_isr self }
    {
        match self {
            Call::EnterCritical(form) | Call::ExitCritical(form) => matches!(form, Form::FromIsr),
            Call::On(call) => call.timing.is_from_isr(),
            _ => false,
        }
    }

    /// The object that the call names, if it names one.
    pub fn object(self) -> Option<ObjId>
        ensures { result ≡ object_of_call self }
    {
        match self {
            Call::Create { object, .. } | Call::Delete { object, .. } => Some(object),
            Call::On(call) => Some(call.object),
            _ => None,
        }
    }
}

/// One line of an actor's code. A target is an instruction's place in that code, from 0.
#[derive(Clone, Copy)]
pub enum Instr {
    Set {
        target: VarId,
        left: Operand,
        operator: Operator,
        right: Operand,
    },
    If {
        left: Operand,
        comparison: Comparison,
        right: Operand,
        target: usize,
    },
    Goto {
        target: usize,
    },
    Pick {
        target: VarId,
        lo: i64,
        hi: i64,
    },
    Call(Call),
    Return,
}
