// Which of an actor's choices a word picks. There can be 2^64 of them, so they are counted in 128 bits.
ghost use Rattle.std.specs.Prelude.{◌≡◌, ◌≤ℤ◌, ◌+ℤ◌, ◌-ℤ◌, ◌<◌, ◌%◌, ◌^◌, pos, Some, length, slice_get, IfSome, IfNone, nat_abs};
ghost use Rattle.fr_calls.specs.declared.moves.Moves.TheVariants.{None as NoMove, Span};
ghost use Rattle.fr_calls.specs.Moves.{IsRising};
ghost use Rattle.fr_runner.specs.Listed.{listed};

use fr_calls::Moves;

/// How far `hi` is above `lo`.
fn distance(lo: i64, hi: i64) -> u128
    requires { lo ≤ℤ hi }
    ensures difference { result ≡ nat_abs (hi -ℤ lo) }
    ensures up { (lo +ℤ pos result) ≡ hi }
    ensures fits { result < 2 ^ 64 }
{
    (i128::from(hi) - i128::from(lo)) as u128
}

/// The number that is `by` above `lo`, which is at most `hi`.
fn shifted(lo: i64, by: u128, hi: i64) -> i64
    requires { (lo +ℤ pos by) ≤ℤ hi }
    ensures { result ≡ lo +ℤ pos by }
{
    (i128::from(lo) + by as i128) as i64
}

/// The number of a span that the word picks.
fn of_span(lo: i64, hi: i64, word: u64) -> i64
    requires { lo ≤ℤ hi }
    ensures { slice_get (listed (Span lo hi)) (word % length (listed (Span lo hi))) ≡ Some result }
{
    let at = u128::from(word) % (distance(lo, hi) + 1);
    shifted(lo, at, hi)
}

/// The choice that the word picks: of n choices in rising order the one numbered by the remainder of
/// the word divided by n. None where there is no choice.
pub(crate) fn chosen(moves: Moves, word: u64) -> Option<i64>
    requires { IsRising moves }
    ensures some { IfSome result (λ c. slice_get (listed moves) (word % length (listed moves)) ≡ Some c) }
    ensures none { IfNone result (moves ≡ NoMove) }
{
    match moves {
        Moves::None => None,
        Moves::Span { lo, hi } => Some(of_span(lo, hi, word)),
        Moves::Pair { a, b } => Some(if word % 2 == 0 { a } else { b }),
    }
}
