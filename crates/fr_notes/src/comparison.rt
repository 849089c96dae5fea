// What a comparison that is true says of the ranges of its two sides.
ghost use Rattle.std.specs.Prelude.{◌≡◌, ◌≢◌, ◌≤ℤ◌, ◌<ℤ◌, ℤ, pos, not, IfSome, IfNone};
ghost use Rattle.std.specs.Int.{int_min, int_max};
ghost use Rattle.fr_program.specs.Spans.{IsIn, IsNarrow};
ghost use Rattle.fr_rules.specs.Step.{compare};
ghost use Rattle.fr_notes.specs.Comparison.{Compares, IsBelow, IsLeast, AreLeast, NoPair, IsWithout};

use fr_program::{Comparison, Range};

/// The comparison that is true where this one is false.
pub fn negated(comparison: Comparison) -> Comparison
    ensures { (x y : ℤ) → compare result x y ≡ not (compare comparison x y) }
{
    match comparison {
        Comparison::Less => Comparison::AtLeast,
        Comparison::AtMost => Comparison::Greater,
        Comparison::Greater => Comparison::AtMost,
        Comparison::AtLeast => Comparison::Less,
        Comparison::Equal => Comparison::NotEqual,
        Comparison::NotEqual => Comparison::Equal,
    }
}

/// What is left of both sides where the comparison is true of a number of the left range and one of
/// the right: the least ranges that have all such pairs. None where there is no such pair. Both
/// ranges have ends of 64 bits.
pub fn narrowed(comparison: Comparison, left: Range, right: Range) -> Option<(Range, Range)>
    requires left { IsNarrow left }
    requires right { IsNarrow right }
    ensures some { IfSome result (λ new. AreLeast (Compares comparison) left right new.0 new.1) }
    ensures none { IfNone result (NoPair (Compares comparison) left right) }
{
    match comparison {
        Comparison::Less => below(left, right, 1),
        Comparison::AtMost => below(left, right, 0),
        Comparison::Greater => exchanged(below(right, left, 1)),
        Comparison::AtLeast => exchanged(below(right, left, 0)),
        Comparison::Equal => same(left, right),
        Comparison::NotEqual => both_apart(left, right),
    }
}

/// The pair the other way round.
fn exchanged(pair: Option<(Range, Range)>) -> Option<(Range, Range)>
    ensures some { IfSome result (λ new. pair ≡ Some (record { 0 = new.1; 1 = new.0 })) }
    ensures none { IfNone result (pair ≡ None) }
{
    let (left, right) = pair?;
    Some((right, left))
}

/// Both ranges where a number of the first and `gap` more is at most one of the second.
fn below(low: Range, high: Range, gap: i128) -> Option<(Range, Range)>
    requires low { IsNarrow low }
    requires high { IsNarrow high }
    requires from { pos 0 ≤ℤ gap }
    requires to { gap ≤ℤ pos 1 }
    ensures some { IfSome result (λ new. AreLeast (IsBelow gap) low high new.0 new.1) }
    ensures none { IfNone result (NoPair (IsBelow gap) low high) }
{
    let left = up_to(low, high.hi - gap)?;
    let right = down_to(high, low.lo + gap)?;
    Some((left, right))
}

/// The numbers of the range that are at most this one.
fn up_to(range: Range, most: i128) -> Option<Range>
    ensures some { IfSome result (λ new. (new.lo ≡ range.lo) × (new.hi ≡ int_min range.hi most)) }
    ensures none { IfNone result (most <ℤ range.lo) }
{
    Range::new(range.lo, range.hi.min(most))
}

/// The numbers of the range that are at least this one.
fn down_to(range: Range, least: i128) -> Option<Range>
    ensures some { IfSome result (λ new. (new.lo ≡ int_max range.lo least) × (new.hi ≡ range.hi)) }
    ensures none { IfNone result (range.hi <ℤ least) }
{
    Range::new(range.lo.max(least), range.hi)
}

/// Both ranges where a number of the first is one of the second.
fn same(left: Range, right: Range) -> Option<(Range, Range)>
    ensures some { IfSome result (λ new. AreLeast ◌≡◌ left right new.0 new.1) }
    ensures none { IfNone result (NoPair ◌≡◌ left right) }
{
    let (lo, hi) = (left.lo.max(right.lo), left.hi.min(right.hi));
    if hi < lo {
        return None;
    }
    let both = Range { lo, hi };
    Some((both, both))
}

/// Both ranges where a number of the first is another than one of the second.
fn both_apart(left: Range, right: Range) -> Option<(Range, Range)>
    requires left { IsNarrow left }
    requires right { IsNarrow right }
    ensures some { IfSome result (λ new. AreLeast ◌≢◌ left right new.0 new.1) }
    ensures none { IfNone result (NoPair ◌≢◌ left right) }
{
    let new_left = apart(left, right)?;
    let new_right = apart(right, left)?;
    Some((new_left, new_right))
}

/// The first range without the second's number, where that has one number alone.
fn apart(range: Range, other: Range) -> Option<Range>
    requires { IsNarrow range }
    ensures some { IfSome result (λ new. IsLeast ◌≢◌ range other new) }
    ensures none { IfNone result (NoPair ◌≢◌ range other) }
{
    if other.lo != other.hi {
        return Some(range);
    }
    without(range, other)
}

/// The first range without the second's one number, where that is one of its ends.
fn without(range: Range, other: Range) -> Option<Range>
    requires narrow { IsNarrow range }
    requires one { other.lo ≡ other.hi }
    ensures some { IfSome result (λ new. IsWithout range other.lo new) }
    ensures none { IfNone result ((x : ℤ) → IsIn range x → x ≡ other.lo) }
{
    let lo = if range.lo == other.lo {
        range.lo + 1
    } else {
        range.lo
    };
    let hi = if range.hi == other.lo {
        range.hi - 1
    } else {
        range.hi
    };
    Range::new(lo, hi)
}
