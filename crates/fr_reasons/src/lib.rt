// Why a verdict is no: an `Explanation` of fr_wording (`explain`), a list of values, a line of text each, from which pages and reports for
// machines are made as well. What a page shows of a note is `note_told`. Below it are states that show why (fr_witness), and names, places
// and what is so in a state, in words (fr_wording). The crates above print what these give; contracts say nothing of the words.
#![tactic(auto)]

mod reason;

pub use reason::{explain, never_deleted, note_told};
