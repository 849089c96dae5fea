// A step in words.
use fr_program::{Act, Attempt, BufferKind, Call, End, Instr, Side};
use std::alloc::{AllocError, Global};

/// What a call tries, in a word.
fn attempt_name(attempt: Attempt) -> &'static str {
    match attempt {
        Attempt::QueueSend(_) => "send",
        Attempt::QueueReceive(_) => "receive",
        Attempt::Take(_) => "take",
        Attempt::Give(_) => "give",
        Attempt::Reset(_) => "reset",
    }
}

/// How many bytes a call on a buffer moved.
fn moved_text(
    alloc: Global,
    end: End,
    kind: BufferKind,
    choice: i64,
) -> Result<String, AllocError> {
    let verb = match end {
        End::Writer => "sent",
        End::Reader => "received",
    };
    match (choice, kind) {
        (0, _) => format!(in alloc; "nothing is {verb}"),
        (1, BufferKind::Stream) => format!(in alloc; "1 byte is {verb}"),
        (_, BufferKind::Stream) => format!(in alloc; "{choice} bytes are {verb}"),
        (1, BufferKind::Message) => format!(in alloc; "a message of 1 byte is {verb}"),
        (_, BufferKind::Message) => format!(in alloc; "a message of {choice} bytes is {verb}"),
    }
}

/// That what is tried works or fails, in words.
fn works_text(alloc: Global, what: &str, choice: i64) -> Result<String, AllocError> {
    let how = if choice == 0 { "fails" } else { "works" };
    format!(in alloc; "the {what} {how}")
}

/// What a step by this choice does, where it is a call that can do one thing or another; otherwise no text. Its error is that an allocation
/// was refused. The words are this project's own.
pub fn outcome_text(
    alloc: Global,
    side: Side,
    instr: &Instr,
    choice: i64,
) -> Result<String, AllocError> {
    match (side, instr) {
        (Side::Before, Instr::Call(Call::On(_))) => String::from_str(alloc, "the call begins"),
        (_, Instr::Call(Call::Create { .. })) => works_text(alloc, "create", choice),
        (_, Instr::Call(Call::On(call))) => match call.act {
            Act::Try { attempt, .. } => works_text(alloc, attempt_name(attempt), choice),
            Act::Move { end, kind, .. } => moved_text(alloc, end, kind, choice),
        },
        _ => Ok(String::new(alloc)),
    }
}
