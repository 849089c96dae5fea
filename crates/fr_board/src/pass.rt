// What a board hands out: passes, one for each thread, and claims, one for each number.
use crate::progress::Progress;
use atomic_table::Seat;
use std::marker::Model;

/// The right to say once what became of one number.
///
/// A claim belongs to the pass that drew it, and to any pass into which that one was joined. A claim that is dropped leaves its
/// number open, so that [`Board::finish`](crate::Board::finish) answers `Unfinished`.
#[derive(Drop)]
pub struct Claim {
    pub(crate) number: u64,
}

impl Model for Claim {
    ghost use Rattle.std.specs.Prelude.{ℕ};

    ghost Value = { ℕ };

    ghost view = { λ c. c.number };

    ghost inverse = { λ n. record { number = n } };
}

impl Claim {
    ghost use Rattle.std.specs.Prelude.{◌≡◌};

    /// The number that was drawn, below the number of jobs.
    pub fn number(&self) -> u64
        ensures { result ≡ self.now }
    {
        self.number
    }
}

/// One thread's part of a board.
///
/// It knows which numbers it drew and what became of each, its last look, whether it found that no number is left, and how many
/// first passes are joined in it. What a dropped pass has finished stays finished; what it has left open stays open for ever.
#[derive(Drop)]
pub struct Pass {
    pub(crate) seat: Seat<(), Progress>,
    pub(crate) is_dry: bool,
    pub(crate) look: u64,
}

impl Model for Pass {
    ghost use Rattle.std.specs.Prelude.{◌≡◌, ◌<◌, [], IsTrue, ◌↔◌};
    ghost use Rattle.fr_board.specs.Values.{PassValue};

    ghost Value = { PassValue };

    ghost view = { λ p. record { table = p.seat.table_id; progress = p.seat.me.0 } };

    ghost invariant = { λ p. (p.seat.me.1 ≡ []) × (0 < p.seat.me.0.weight) × (IsTrue p.is_dry ↔ (0 < p.seat.me.0.dry_marks)) × (p.look ≡ p.seat.me.0.look) };
}

impl Pass {
    ghost use Rattle.std.specs.Prelude.{◌≡◌};

    /// What the last look gave; the number of jobs before any look. After a join it is the smaller of both.
    pub fn seen(&self) -> u64
        ensures { result ≡ self.now.progress.look }
    {
        self.look
    }
}
