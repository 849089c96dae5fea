// A kernel call as a trace shows it.
ghost use Rattle.std.specs.Prelude.{◌≡◌, ◌↔◌, IsTrue, pos};
ghost use Rattle.fr_events.specs.Fits.{Agrees, Fits, IsSo, IsTime};

use crate::recorded::Recorded;
use fr_instr::{Given, Verb, given_of, verb_of};
use fr_program::{BlockTime, Call, ObjId};

/// A block time as a trace shows it: `portMAX_DELAY`, or any number of 64 bits with a sign. A number that no line of
/// code can have, as -1, is read too: no call of the code fits it.
#[derive(Clone, Copy)]
pub enum SeenTime {
    Ticks(i64),
    MaxDelay,
}

/// A kernel call as the event at its begin shows it.
///
/// A part for which the call has no argument is `Unknown`, as one that is spelled `?`: `value`, `length` and `time` in
/// a `xSemaphoreGive(m)`, and all but `verb` in a `taskYIELD()`. The variable of a queue receive is no part: the trace
/// has the value that came at the return.
#[derive(Clone, Copy)]
pub struct SeenCall {
    /// Which call it is. Each name of a call has its own verb.
    pub verb: Verb,
    /// The object on which it works.
    pub object: Recorded<ObjId>,
    /// The value that a queue send puts in. `fits` doesn't look at it.
    pub value: Recorded<i64>,
    /// The number of bytes of a buffer's send or receive.
    pub length: Recorded<i64>,
    /// The block time.
    pub time: Recorded<SeenTime>,
    /// The number of ticks of a `vTaskDelay`.
    pub ticks: Recorded<i64>,
}

/// Whether the trace allows this object.
fn is_object(seen: Recorded<ObjId>, object: ObjId) -> bool
    ensures { IsTrue result ↔ IsSo seen object }
{
    match seen {
        Recorded::Unknown => true,
        Recorded::Known(known) => known == object,
    }
}

/// Whether the trace allows this number.
fn is_number(seen: Recorded<i64>, number: u32) -> bool
    ensures { IsTrue result ↔ IsSo seen (pos number) }
{
    match seen {
        Recorded::Unknown => true,
        Recorded::Known(known) => known == i64::from(number),
    }
}

/// Whether the trace allows this block time.
fn is_time(seen: Recorded<SeenTime>, time: BlockTime) -> bool
    ensures { IsTrue result ↔ IsTime seen time }
{
    match (seen, time) {
        (Recorded::Unknown, _) => true,
        (Recorded::Known(SeenTime::MaxDelay), BlockTime::MaxDelay) => true,
        (Recorded::Known(SeenTime::Ticks(known)), BlockTime::Ticks(ticks)) => {
            known == i64::from(ticks)
        }
        _ => false,
    }
}

/// Whether these are one name of a call.
pub fn is_same(one: Verb, other: Verb) -> bool
    ensures { IsTrue result ↔ one ≡ other }
{
    one == other
}

/// Whether the trace allows what the line of a call gives: the object and the numbers are the same, where they are
/// recorded.
fn agrees(given: Given, seen: &SeenCall) -> bool
    ensures { IsTrue result ↔ Agrees given seen.now }
{
    if !is_object(seen.object, given.object) {
        return false;
    }
    if !is_number(seen.length, given.bytes) {
        return false;
    }
    if !is_time(seen.time, given.time) {
        return false;
    }
    is_number(seen.ticks, given.ticks)
}

/// Whether the call of the code fits the call that the trace shows: the name is the same, and the object and the
/// numbers are the same where they are recorded. The value that a queue send puts in, the variable of a receive, the
/// target of an `else` and the variable of a result aren't looked at.
pub fn fits(call: &Call, seen: &SeenCall) -> bool
    ensures { IsTrue result ↔ Fits call.now seen.now }
{
    is_same(verb_of(*call), seen.verb) && agrees(given_of(*call), seen)
}
