// How ranges grow.
ghost use Rattle.std.specs.Prelude.{◌≤ℤ◌};

use fr_program::Range;

/// How far an end of a range goes that has to move.
#[derive(Clone, Copy, PartialEq, Eq)]
pub enum Growth {
    /// As far as it has to.
    Exact,
    /// To the next threshold.
    Threshold,
    /// To the declared end.
    Whole,
}

/// The greatest threshold that is at most this number, and the number itself where there is none. The
/// thresholds need no order.
fn rest_below(thresholds: &[i128], number: i128) -> i128 {
    let (mut best, mut is_there) = (number, false);
    for rest in thresholds {
        if *rest <= number && (!is_there || best < *rest) {
            best = *rest;
            is_there = true;
        }
    }
    best
}

/// The least threshold that is at least this number, and the number itself where there is none.
fn rest_above(thresholds: &[i128], number: i128) -> i128 {
    let (mut best, mut is_there) = (number, false);
    for rest in thresholds {
        if number <= *rest && (!is_there || *rest < best) {
            best = *rest;
            is_there = true;
        }
    }
    best
}

/// The lower end, moved down at least to what is needed.
fn lower(lo: i128, needed: i128, declared: i128, thresholds: &[i128], growth: Growth) -> i128
    ensures { result ≤ℤ lo }
{
    if lo <= needed {
        return lo;
    }
    let end = match growth {
        Growth::Exact => needed,
        Growth::Threshold => rest_below(thresholds, needed),
        Growth::Whole => declared,
    };
    lo.min(end)
}

/// The upper end, moved up at least to what is needed.
fn upper(hi: i128, needed: i128, declared: i128, thresholds: &[i128], growth: Growth) -> i128
    ensures { hi ≤ℤ result }
{
    if needed <= hi {
        return hi;
    }
    let end = match growth {
        Growth::Exact => needed,
        Growth::Threshold => rest_above(thresholds, needed),
        Growth::Whole => declared,
    };
    hi.max(end)
}

/// The range, grown so that it has the other one's numbers too.
pub fn grown(
    range: Range,
    other: Range,
    declared: Range,
    thresholds: &[i128],
    growth: Growth,
) -> Range {
    let lo = lower(range.lo, other.lo, declared.lo, thresholds, growth);
    let hi = upper(range.hi, other.hi, declared.hi, thresholds, growth);
    Range { lo, hi }
}

/// Whether no number lies between the two ranges.
pub fn touch(one: Range, other: Range) -> bool {
    let (low, high) = (one.lo.max(other.lo), one.hi.min(other.hi));
    low <= high.saturating_add(1)
}
