// Lines of code: one line of an actor's code is read from its text and written as its text. The grammar is a
// definition in specs/, apart from the code. `Line` is an instruction of `fr_program`, the crate below; `fr_reader`
// above reads the lines of an application's file with `read_line`. `fr_trace` reads a recorded trace by the same tokens
// and the same table of calls.
#![tactic(auto)]

mod app_names;
mod call;
mod direct;
mod fault;
mod given;
mod meaning;
mod names;
mod number;
mod reading;
mod shape;
mod token;
mod writing;

pub use app_names::names_of;
pub use call::{Deed, Row, Slot, Tail, Verb, When, row_named, rows};
pub use fault::{LineFault, LineFaultAt};
pub use fr_program::Instr as Line;
pub use given::{Given, given_of, verb_of};
pub use names::Names;
pub use number::integer_of;
pub use reading::{read_line, read_line_at};
pub use shape::{head_behind, take_number, take_word};
pub use token::{Sign, Token, next_token, place_of, tokens};
pub use writing::write_line;
