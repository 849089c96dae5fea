// The work board: threads draw job numbers from it, each number once, and say what became of each; at the end it
// gives the least number that failed.
//
// It uses `atomic_table`, and `thiserror` for the messages of its faults. A board is one table of three atomic words,
// and each call on a pass is one step on one of them at most (`failed` is two). The layer above uses the contracts of
// `Board` and `Pass`, and never the words. The three words and the rule that each step keeps are told in
// `docs/BOARD.md`. A `Gate` is where whoever starts threads may hold one of them.
#![tactic(auto)]

mod board;
mod gate;
mod pass;
mod progress;
mod words;

pub use board::{Board, BoardFault, Tally, Unfinished};
pub use gate::{Gate, Open};
pub use pass::{Claim, Pass};
pub use progress::{Drawn, Outcome, Progress};
