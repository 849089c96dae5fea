// The events of a recorded trace of firmware, as values of the application, and whether a call of the code is one that an event shows
// (`fits`). `fr_trace` reads them from a text; who follows a trace needs no more than these.
#![tactic(auto)]

mod recorded;
mod seen_call;
mod trace;

pub use recorded::Recorded;
pub use seen_call::{SeenCall, SeenTime, fits, is_same};
pub use trace::{Event, Happening, Trace};
