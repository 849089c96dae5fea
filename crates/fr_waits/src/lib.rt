// Waits: which actors wait for one another over mutexes, and what a deadlock is. The definitions are in specs/Waits.antt.
// `waits_for` gives whom an actor waits for; `deadlock_from` and `deadlock_in` find a cycle of waits. The laws are
// functions that do nothing: no actor of a cycle has a step, and a cycle stays one while its mutexes live.
#![tactic(auto)]

mod cycle;
mod laws;
mod wait;
mod waiting;

pub use cycle::{deadlock_from, deadlock_in};
pub use laws::{a_cycle_is_for_good, nobody_in_a_cycle_moves};
pub use wait::Wait;
pub use waiting::{Awaited, waits_for};
