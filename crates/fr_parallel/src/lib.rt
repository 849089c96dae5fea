// Workers that judge the points of an application between them: each draws numbers of points from one board, and
// judges what it draws.
//
// It uses `fr_worker`, which is one worker's turn, `fr_judge`, which judges the point that a No names (`Judging::part_at`),
// and `fr_board`, which hands out each number once and keeps the least that failed. The judging takes no lock and no
// memory; only `judge_with`, `judge_reading` and `judge_bytes` wait, for the threads that they start.
#![tactic(auto)]

mod bytes;
mod crew;
mod fault;
mod verdict;

pub use bytes::{BytesFault, Reading, judge_bytes, judge_reading};
pub use fault::ParFault;
pub use fr_board::{Gate, Open};
pub use fr_worker::work;
pub use verdict::{is_crew, judge_with};
