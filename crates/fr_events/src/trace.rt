// A recorded trace: its events, as values of the application.
use crate::recorded::Recorded;
use crate::seen_call::SeenCall;
use fr_instr::Verb;
use fr_program::{ActorId, VarId};

/// What happens at an event. The actor records it itself, between one line of its code and the next.
#[derive(Clone, Copy)]
pub enum Happening {
    /// `ACTOR enter CALL(ARGS)`: it begins this kernel call. The effect of the call is later.
    Enter(SeenCall),
    /// `ACTOR return [RESULT [VALUE]]`: the call that it began last has ended. The effect of the call was before.
    Return {
        /// 1 or 0 of a call that works or fails, or the number of bytes; `Unknown` where it is `?` or isn't there.
        result: Recorded<i64>,
        /// The value that a queue receive got; `Unknown` where it is `?` or isn't there.
        value: Recorded<i64>,
    },
    /// `ACTOR set VARIABLE NUMBER`: it has just written this number to the variable. An actor with one such event for
    /// a variable has one for each of its writes of that variable.
    Set {
        variable: VarId,
        number: i64,
    },
    /// `ACTOR begin`: its handler begins. An actor with such an event, or with an `End`, has both for each run of its
    /// handler.
    Begin,
    /// `ACTOR end`: its handler has ended.
    End,
}

/// An event of an actor that the application lists.
#[derive(Clone, Copy)]
pub struct Event {
    pub actor: ActorId,
    /// The number of its line in the trace's text, from 1.
    pub line: usize,
    pub what: Happening,
}

/// What a recorded trace says.
///
/// In `events` the calls of each actor are one after another: a `Return` ends the call of the `Enter` before it, and no
/// call begins inside another. At the end of the trace an actor may be inside a call. At each `lost` this begins anew,
/// and a return whose enter is lost isn't among the events.
#[derive(Drop)]
pub struct Trace {
    /// The events, in the order of the text, which is that in which they were recorded.
    pub events: Vec<Event>,
    /// The calls that the header names: no event shows them, and the actors may have made them at any time. No `Enter`
    /// among the events is of such a call.
    pub unseen: Vec<Verb>,
    /// For each `lost`, in order, how many of the events are before it.
    pub lost: Vec<usize>,
    /// How many events of actors that aren't listed were left out: they touch nothing that the application lists.
    pub ignored: usize,
}
