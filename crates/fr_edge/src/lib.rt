// What a point owes by itself: its entry, the rules that are kept there, and where its steps go. Below it are notes
// and what a step makes of them (fr_notes), the rules and the step table (fr_rules) and applications (fr_program).
// The crate above, fr_judge, uses the contract of `own`, which names the first of a point's own obligations that
// fails.
#![tactic(auto)]

mod entry;
mod failure;
mod obligations;
mod rules;
mod steps;

pub use failure::Own;
pub use obligations::own;
