// Where a refusal is, in plain words: the text that follows the one line of a refusal. Given the bytes that were refused and
// the fault, the bytes are read again, and what is at the fault's place is told: line and column, table and key, a line of
// code with a mark below it, the path to a note with its point's name. Nothing is told that isn't known. The words are presentation;
// the contracts promise that nothing in a line steers a terminal (`Location` of fr_escape), and that `nearest` is exact.
#![tactic(auto)]

mod app;
mod build;
mod certificate;
mod faulty;
mod keys;
mod line;
mod lines;
mod misfit;
mod nearness;
mod position;
mod recipe;
mod shown;
mod steps;
mod swap;
mod table;

pub use app::{is_unknown_word, place_of_app};
pub use certificate::place_of_certificate;
pub use nearness::nearest;
pub use recipe::recipe_at;
pub use swap::{place_of_swapped, seem_swapped};
