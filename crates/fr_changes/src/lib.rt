// A run of an application, step by step: where the actor of each step was before it, and what the step changed, in words. Pages
// (fr_lanes), reports for machines (fr_shown) and printed runs (fr_report) are made from an `ExplainedRun`, and no text is read again.
// That its places are those of one run from the start, state by state, is in the contract of `explain_steps`. Below it are the steps of
// an application (fr_states), its deadlocks (fr_waits), and names, places and states in words (fr_wording).
#![tactic(auto)]

mod changes;
mod run;

pub use changes::ExplainedStep;
pub use run::{ExplainedRun, explain_steps, waiting_actors};
