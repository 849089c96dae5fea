// Where the lines of code are in the text of an application that isn't refused: each line as it stands there, with its line and column
// (`lines_of_code`, `places_of_code`), and the place in a source that the comment after it names (`sources_of_code`). All of it is for
// those who read an answer: no contract that a verdict rests on speaks of places.
#![tactic(auto)]

mod code;
mod source;
mod table;

pub use code::{CodePlace, lines_of_code, places_of_code};
pub use source::{CodeSource, places_in_source, source_texts, sources_of_code};
pub use table::{code_of, entries_at};
