// The words of the command line, by `clap`: `matched` reads them, and `asked` gives what they ask for, a `Request` (fr_request). Each command
// has a module with a table of its words, its help and its exit statuses, and `table` tells `clap` of them. Nothing is read or printed here:
// the program does that. Proved is what each field of a request is, by what was matched of the words (specs/Asked.antt). That the words match
// as the help says is tested.
#![tactic(auto)]

mod check;
mod command;
mod find;
mod follow;
mod found;
mod points;
mod prove;
mod refute;
mod run;
mod shared;
mod table;
mod translate;

pub use command::{asked, matched};
