// A list of applications, for `check --list`: a text file in which each line names an application, and behind a blank
// its certificate where it has one. `listed_in` reads the bytes of such a file, and its contract says exactly what they
// mean (specs/Means.antt) and which fault is present where they mean nothing; `one_meaning` and `no_meaning` are the laws
// of both. `path_beside` gives the path of a file that a list names. The crates above rely on `listed_in`'s contract.
#![tactic(auto)]

mod beside;
mod line;
mod listed;

pub use beside::path_beside;
pub use listed::{ListFault, Listed, MOST_LIST_BYTES, listed_in, no_meaning, one_meaning};
