// Runs that explain a recorded trace: what it means that one does (specs/Explains.antt), and whether these steps do. A search for
// such a run (fr_follower) is believed only after `explains`, and what is printed of the answer (fr_trail) needs no search. What is
// proved of all such runs are functions that do nothing: each is there for its contract.
#![tactic(auto)]

mod breach;
mod effect;
mod explain;
mod followed;
mod gate;
mod item;
mod laws;
mod outcome;
mod sign;

pub use breach::stopped_by;
pub use effect::{GateChange, is_owned};
pub use explain::{actor_count, agrees, breach_after, explains, sight_of};
pub use followed::Followed;
pub use gate::Gate;
pub use item::Item;
pub use laws::{a_beginning_is_explained, the_first_that_fails_is_one};
pub use outcome::{can_end, can_send, has_begin, side_of_end};
pub use sign::{Sight, Sign, signs_of};
