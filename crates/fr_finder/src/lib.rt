// Certificates that are found: a guess of each point's note, round by round, and of each end's guard. What is found
// fits the application; whether it passes is for the judge to say.
#![tactic(auto)]

mod arrivals;
mod effect;
mod fault;
mod finding;
mod guards;
mod landing;
mod merging;
mod rounds;
mod spot;
mod start;

pub use arrivals::{empty_lists, points_before, target};
pub use fault::FindFault;
pub use finding::{find, is_rounds};
pub use guards::{all_ends, ends_of_most};
pub use landing::{left_to_mover, left_to_other};
pub use merging::{add, can_be_one, common_claims};
pub use start::claims_at_start;
