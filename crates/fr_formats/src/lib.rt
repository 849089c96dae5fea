// Reports that machines read. What a command answered for one application is an `AnswerShown`: a plain value, which
// fr_shown and fr_traces fill. `answers_text` writes answers as JSON, as SARIF 2.1.0 and as JUnit's XML. Its contract
// says to the letter what it writes: each of `specs/Json`, `specs/Sarif` and `specs/Junit` is the text of one form, and
// no text of an answer gets into a report unescaped. `greatest_status` is the exit status of a report. Below are the
// escapes (fr_escape), the forms' names (fr_request), and the rules that are named (fr_rules).
#![tactic(auto, using(std::proofs::Common::append_assoc))]

mod answer;
mod as_json;
mod format;
mod ident;
mod junit;
mod piece;
mod sarif;

pub use answer::{
    AnswerKind, AnswerShown, Command, Failure, PlaceShown, Source, SourceShown, StepShown,
    TraceShown, WarningKind, WarningShown, greatest_status,
};
pub use format::answers_text;
pub use ident::rule_name;
