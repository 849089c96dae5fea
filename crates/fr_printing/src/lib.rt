// How the answer of a command is printed: as a text for a person, or in a form that machines read, with its warnings, and as a page where
// one is wanted (`page_of`). What is printed for a refusal goes to standard error.
#![tactic(auto)]

mod page;
mod printing;
mod ways;

pub use page::page_of;
pub use printing::{refuse, show_found, show_outputs_refused, warn};
pub use ways::PrintWays;
