// From the bytes of an application and of its certificate to the verdict, by one thread, and the theorem about it.
//
// It reads by fr_reader and fr_cert, and judges by fr_judge. The laws here are functions that do nothing: each is there for
// its contract.
#![tactic(auto)]

mod laws;
mod text;

pub use laws::{the_answer_is_one, yes_is_safe};
pub use text::{JudgedApp, TextFault, judge_text, read_both};
