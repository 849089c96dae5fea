// Notes: what is said of an actor and of the state at each point. A note is a list of alternatives, of which one
// holds. The other crates take from here when a note holds of an actor, when two notes hold in one state, and what a
// step makes of an alternative.
#![tactic(auto)]

mod alternatives;
mod before;
mod case;
mod change;
mod checks;
mod claim;
mod comparison;
mod construction;
mod fault;
mod fits;
mod holding;
mod implication;
mod inside;
mod kept;
mod known;
mod laws;
mod note;
mod notes;
mod pairs;
mod parts;
mod reckoning;
mod steps;
mod subject;

pub use alternatives::{Alts, AltsFault, MOST_ALTERNATIVES};
pub use case::{Case, Spot};
pub use change::Change;
pub use claim::Claim;
pub use fault::{NoteFault, NotesFault};
pub use holding::Holding;
pub use implication::implies;
pub use inside::is_given_unheld;
pub use kept::{claim_after, keeps, new_range, other_after, spares};
pub use known::Known;
pub use laws::fitting_can_hold;
pub use note::{Alternative, Note, NoteParts};
pub use notes::Notes;
pub use pairs::{can_meet, some_meet, together};
pub use parts::{object_count, variable_count};
pub use steps::{change_by, condition_at};
pub use subject::Subject;
