// Running an application that has passed: a machine that is polled, actor by actor, and a run with a thread for each
// actor. Its trace is proved: it replays from the start, each entry a true step or a true "blocked". Below it are the
// states and steps of fr_calls, and what passed (fr_judge).
#![tactic(auto)]

mod choice;
mod fault;
mod lock;
mod machine;
mod rest;
mod threads;
mod trace;
mod turn;

pub use fault::RunFault;
pub use machine::{MOST_POLLS, Machine};
pub use threads::run;
pub use trace::{Entry, Trace};
