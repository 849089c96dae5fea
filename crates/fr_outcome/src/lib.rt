// What a command found out about an application, as a value: an `Answer`, with all that was read. It is a verdict (`Judged`), what a search
// found (`Searched`), or why there is neither (`Refusal`). Its kind, its exit status and its text for a person are `What::kind`,
// `What::status` and `What::text`; the line and the exit status of a fault are `fault_line` and `status`; texts and reports are written by
// `put` and `put_report`. The crates above find it out (fr_findings), show it as a page and in reports (fr_shown), and print it (fr_printing).
#![tactic(auto)]

mod answer;
mod app_text;
mod boxed;
mod exit;
mod fault;
mod judged;
mod print;

pub use answer::{Answer, Refusal, Searched, What, copied_lines, kind_of_judged};
pub use app_text::AppText;
pub use boxed::Boxed;
pub use exit::{DONE, MACHINE, NO, REFUSED};
pub use fault::{CheckFault, fault_line, status};
pub use judged::{Judged, Tried};
pub use print::{heading, put, put_report};
