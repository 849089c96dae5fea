// What a person reads of a recorded trace: how far it was followed, and why no further. `answer_of` gives the kind of the answer with
// its line; its contract says how the line begins (specs/Answered.antt). The words of what explains an answer are presentation. The
// search for a run that explains the trace (fr_follower) isn't needed here: fr_traces reads, follows and answers.
#![tactic(auto)]

mod answer;
mod awaited;
mod coverage;
mod replay;
mod rows;
mod run_text;
mod texts;
mod times;
mod why;

pub use answer::{Asked, NoAnswer, TraceAnswer, answer_of, no_answer, unlisted_answer};
pub use coverage::Coverage;
pub use rows::TrailRow;
pub use times::as_asked;
