// What is shown of an answer: the value itself with what is said beside it (`answer_to`), and what reports for machines show of it
// (`shown_of`).
#![tactic(auto)]

mod beside;
mod hidden;
mod shown;

pub use beside::answer_to;
pub use shown::shown_of;
