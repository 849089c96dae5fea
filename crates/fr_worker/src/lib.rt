// One worker's turn: it draws numbers of points from a board, and judges what it draws.
//
// It uses `fr_judge`, which judges one point (`Judging::part_at`), and `fr_board`, which hands out each number once and keeps
// the least that failed. A turn takes no lock and no memory.
#![tactic(auto)]

mod worker;

pub use worker::{work, work_by};
