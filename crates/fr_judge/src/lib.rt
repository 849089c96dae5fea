// The verdict on an application and a certificate, and why a Yes can be believed.
//
// It uses the own obligations of a point (fr_edge), what other actors' steps do to it (fr_interfere) and the guards of
// buffers' ends (fr_ends). The laws here are functions that do nothing: each is there for its contract.
#![tactic(auto)]

mod approval;
mod deletion;
mod judging;
mod laws;
mod lists;
mod part;
mod verdict;
mod worked;

pub use approval::Passed;
pub use judging::Judging;
pub use laws::{
    a_step_keeps_notes, certified_is_safe, notes_exclude_breaches, only_owed_parts_fail,
    the_start_keeps_notes, the_verdict_is_one,
};
pub use lists::Lists;
pub use part::{Part, Verdict};
pub use verdict::{job, job_by, judge, judge_by};
pub use worked::verdicts_as_worked;
