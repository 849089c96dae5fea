// What is found out of an application's bytes: the verdict by a certificate (`judged_texts`), a run into a breach (`searched_text`), a run
// of what passed (`ran_texts`), a guess (`find_bytes`). What was found out is a `What` of fr_outcome, and a fault is a `CheckFault`.
// `why`, `waits` and `sources_for` are for what is found out by other means (fr_proving).
// `check_with`, `check_to`, `find_bytes`, `run_to` and `words_of` are the calls that work on bytes alone.
#![tactic(auto)]

mod check;
mod found;
mod judging;
mod refuting;
mod running;
mod ways;
mod words;

pub use check::{check_to, check_with};
pub use found::{Found, find_bytes};
pub use judging::{judged_texts, sources_for, waits, why};
pub use refuting::searched_text;
pub use running::{ran_texts, run_to};
pub use ways::Ways;
pub use words::{WordsFault, words_of};
