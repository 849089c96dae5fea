// Worked cases of points, states, steps, rules and notes, as theorems: they tie the definitions to cases that can be read. Each is a
// function that does nothing: it is there for its contract. Nothing else stands on this crate, so that its proofs hold up no other.
#![tactic(auto)]

mod calls;
mod notes;
mod points;

pub use calls::{breaches_as_worked, states_as_worked, steps_as_worked};
pub use notes::{notes_as_worked, parts_as_worked};
pub use points::points_as_worked;
