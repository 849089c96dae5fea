// What a call is made of: what it is, and what its line gives.
ghost use Rattle.std.specs.Prelude.{◌≡◌};
ghost use Rattle.fr_instr.specs.Calls.{timing_made, act_made, made, when_of, deed_of, verb_of, time_of, act_given, given_of};

use crate::call::{Deed, Verb, When};
use fr_program::{Act, Attempt, BlockTime, Call, ObjId, ObjectCall, Operand, Timing, VarId};

/// What a line gives to its call: one thing for each kind of place, and what is written beside the
/// call.
#[derive(Clone, Copy)]
pub struct Given {
    pub object: ObjId,
    pub operand: Operand,
    pub variable: VarId,
    pub bytes: u32,
    pub time: BlockTime,
    pub ticks: u32,
    pub or_else: Option<usize>,
    pub into: Option<VarId>,
}

/// What a line without arguments gives. A call that has no place of a kind leaves that field so.
pub(crate) const NOTHING: Given = Given {
    object: ObjId(0),
    operand: Operand::Number(0),
    variable: VarId(0),
    bytes: 0,
    time: BlockTime::MaxDelay,
    ticks: 0,
    or_else: None,
    into: None,
};

/// The timing of an object call that answers then, with the block time that is given.
fn timing_made(when: When, given: Given) -> Timing
    ensures { result ≡ timing_made when given }
{
    match when {
        When::Now => Timing::Now,
        When::FromIsr => Timing::FromIsr,
        When::Waits => Timing::Waits(given.time),
    }
}

/// The act of an object call that does this, with the arguments that are given.
fn act_made(deed: Deed, given: Given) -> Act
    ensures { result ≡ act_made deed given }
{
    let attempt = match deed {
        Deed::QueueSend => Attempt::QueueSend(given.operand),
        Deed::QueueReceive => Attempt::QueueReceive(given.variable),
        Deed::Take(form) => Attempt::Take(form),
        Deed::Give(form) => Attempt::Give(form),
        Deed::Reset(kind) => Attempt::Reset(kind),
        Deed::Move(end, kind) => {
            return Act::Move {
                end,
                kind,
                length: given.bytes,
                result: given.into,
            };
        }
    };
    Act::Try {
        attempt,
        or_else: given.or_else,
    }
}

/// The call that is this, with what its line gives.
pub(crate) fn made(verb: Verb, given: Given) -> Call
    ensures { result ≡ made verb given }
{
    let object = given.object;
    match verb {
        Verb::Enter(form) => Call::EnterCritical(form),
        Verb::Exit(form) => Call::ExitCritical(form),
        Verb::SuspendAll => Call::SuspendAll,
        Verb::ResumeAll => Call::ResumeAll,
        Verb::Yield => Call::Yield,
        Verb::Delay => Call::Delay(given.ticks),
        Verb::DeleteSelf => Call::DeleteSelf,
        Verb::Create(kind) => Call::Create {
            kind,
            object,
            or_else: given.or_else,
        },
        Verb::Delete(kind) => Call::Delete { kind, object },
        Verb::On(when, deed) => Call::On(ObjectCall {
            object,
            timing: timing_made(when, given),
            act: act_made(deed, given),
        }),
    }
}

/// The same, with this target of a failure and this variable for the answer beside it.
pub(crate) fn made_beside(
    verb: Verb,
    given: Given,
    or_else: Option<usize>,
    into: Option<VarId>,
) -> Call
    ensures { result ≡ made verb (record given { or_else = or_else; into = into }) }
{
    made(
        verb,
        Given {
            or_else,
            into,
            ..given
        },
    )
}

/// When a call with this timing answers.
fn when_of(timing: Timing) -> When
    ensures { result ≡ when_of timing }
{
    match timing {
        Timing::Now => When::Now,
        Timing::FromIsr => When::FromIsr,
        Timing::Waits(_) => When::Waits,
    }
}

/// What an object call with this act does.
fn deed_of(act: Act) -> Deed
    ensures { result ≡ deed_of act }
{
    match act {
        Act::Move { end, kind, .. } => Deed::Move(end, kind),
        Act::Try { attempt, .. } => match attempt {
            Attempt::QueueSend(_) => Deed::QueueSend,
            Attempt::QueueReceive(_) => Deed::QueueReceive,
            Attempt::Take(form) => Deed::Take(form),
            Attempt::Give(form) => Deed::Give(form),
            Attempt::Reset(kind) => Deed::Reset(kind),
        },
    }
}

/// What the call is.
pub fn verb_of(call: Call) -> Verb
    ensures { result ≡ verb_of call }
{
    match call {
        Call::EnterCritical(form) => Verb::Enter(form),
        Call::ExitCritical(form) => Verb::Exit(form),
        Call::SuspendAll => Verb::SuspendAll,
        Call::ResumeAll => Verb::ResumeAll,
        Call::Yield => Verb::Yield,
        Call::Delay(_) => Verb::Delay,
        Call::DeleteSelf => Verb::DeleteSelf,
        Call::Create { kind, .. } => Verb::Create(kind),
        Call::Delete { kind, .. } => Verb::Delete(kind),
        Call::On(call) => Verb::On(when_of(call.timing), deed_of(call.act)),
    }
}

/// The block time of a call that has one, and any for one that has none.
fn time_of(timing: Timing) -> BlockTime
    ensures { result ≡ time_of timing }
{
    match timing {
        Timing::Waits(time) => time,
        _ => NOTHING.time,
    }
}

/// What the line of an object call gives, but for its object and its block time.
fn act_given(act: Act) -> Given
    ensures { result ≡ act_given act }
{
    match act {
        Act::Move { length, result, .. } => Given {
            bytes: length,
            into: result,
            ..NOTHING
        },
        Act::Try { attempt, or_else } => match attempt {
            Attempt::QueueSend(operand) => Given {
                operand,
                or_else,
                ..NOTHING
            },
            Attempt::QueueReceive(variable) => Given {
                variable,
                or_else,
                ..NOTHING
            },
            _ => Given { or_else, ..NOTHING },
        },
    }
}

/// What the line of the call gives.
pub fn given_of(call: Call) -> Given
    ensures { result ≡ given_of call }
{
    match call {
        Call::Delay(ticks) => Given { ticks, ..NOTHING },
        Call::Create {
            object,
            or_else,
            ..
        } => Given {
            object,
            or_else,
            ..NOTHING
        },
        Call::Delete { object, .. } => Given { object, ..NOTHING },
        Call::On(call) => Given {
            object: call.object,
            time: time_of(call.timing),
            ..act_given(call.act)
        },
        _ => NOTHING,
    }
}
