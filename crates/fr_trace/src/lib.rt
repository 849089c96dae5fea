// A recorded trace of firmware: the text that the recorder writes, format 1, and the events that it means for an
// application (`fr_events`). Below is `fr_instr`, whose tokens and whose table of calls it is read by. `read_trace`
// reads the bytes, and its contract says what they mean (specs/Means.antt) and where they mean nothing; `one_meaning`
// and `no_meaning` are the laws of both.
#![tactic(auto)]

mod args;
mod effect;
mod no_trace;
mod progress;
mod reading;
mod said;
mod stop;

pub use no_trace::{NoTrace, NotListed, TraceFault, Unlisted};
pub use reading::{MOST_TRACE_BYTES, no_meaning, one_meaning, read_trace};
