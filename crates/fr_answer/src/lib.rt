// What answers a command. `run` is the one entry: from a request, by files, to what is printed, the files that are written and the exit
// status; its contract says what an exit status means. What a command finds out is an `Answer` of `fr_outcome`; its page (`page_of`) and
// what reports for machines show of it (`shown_of`) are made from that value alone. Files are a small trait (`Files`), so that a command can
// be run over files in memory.
#![tactic(auto)]

mod commands;
mod reading;
mod ways;

pub use commands::run;
pub use fr_findings::{Found, WordsFault, check_to, check_with, find_bytes, run_to, words_of};
pub use fr_inputs::Files;
pub use fr_outcome::{
    Answer, CheckFault, DONE, Judged, MACHINE, NO, REFUSED, Refusal, What, fault_line, status,
};
pub use fr_printing::page_of;
pub use fr_shown::shown_of;
