// What a person reads of a verdict, of a run and of a search: the report of a verdict (`report`), the lines of a trace (`trace_text`), and
// what a search found (`finding_line` and `run_lines`). The contracts say each to the letter, but for the lines that explain a step. Below
// it are verdicts (fr_judge), traces (fr_runner), what a search finds (fr_found), the steps of a run explained (fr_changes), and names,
// places and states in words (fr_wording).
#![tactic(auto)]

mod refuting;
mod text;
mod trace;
mod waits;

pub use refuting::{breach_text, finding_line, run_lines};
pub use text::{part_text, report, verdict_line};
pub use trace::trace_text;
pub use waits::{deadlock_text, order_line};
