// Ranges of whole numbers.
ghost use Rattle.std.specs.Prelude.{◌≡◌, ◌≤ℤ◌, ◌<ℤ◌, ◌+ℤ◌, ◌-ℤ◌, ◌↔◌, ℤ, pos, IsTrue, IfSome, IfNone};

/// The whole numbers from `lo` to `hi`, both of them included. There is at least one.
#[derive(Clone, Copy, PartialEq)]
pub struct Range {
    pub lo: i128,
    pub hi: i128,
    ghost ordered: { lo ≤ℤ hi },
}

impl Range {
    ghost use Rattle.std.specs.Int.{int_min, int_max};
    ghost use Rattle.fr_program.specs.Spans.{IsIn, IsNarrow, IsSpan, IsScaled};

    /// The numbers from `lo` to `hi`, or None where `lo` is above `hi`.
    pub fn new(lo: i128, hi: i128) -> Option<Range>
        ensures some { IfSome result (λ range. (range.lo ≡ lo) × (range.hi ≡ hi)) }
        ensures none { IfNone result (hi <ℤ lo) }
    {
        if lo <= hi {
            Some(Range { lo, hi })
        } else {
            None
        }
    }

    /// This number alone.
    pub fn only(number: i64) -> Range
        ensures lo { result.lo ≡ number }
        ensures hi { result.hi ≡ number }
    {
        let number = i128::from(number);
        Range {
            lo: number,
            hi: number,
        }
    }

    /// Whether the number is in the range.
    pub fn has(self, number: i64) -> bool
        ensures { IsTrue result ↔ IsIn self number }
    {
        let number = i128::from(number);
        self.lo <= number && number <= self.hi
    }

    /// Whether some number is in both ranges.
    pub fn meets(self, other: Range) -> bool
        ensures { IsTrue result ↔ (z : ℤ) × IsIn self z × IsIn other z }
    {
        self.meet(other).is_some()
    }

    /// The numbers that are in both ranges, or None where there is none.
    pub fn meet(self, other: Range) -> Option<Range>
        ensures some { IfSome result (λ both. (z : ℤ) → (IsIn both z ↔ (IsIn self z × IsIn other z))) }
        ensures none { IfNone result ((z : ℤ) → IsIn self z → IsIn other z → ⊥) }
    {
        Range::new(self.lo.max(other.lo), self.hi.min(other.hi))
    }

    /// The least range that has all numbers of both.
    pub fn hull(self, other: Range) -> Range
        ensures lo { result.lo ≡ int_min self.lo other.lo }
        ensures hi { result.hi ≡ int_max self.hi other.hi }
    {
        Range {
            lo: self.lo.min(other.lo),
            hi: self.hi.max(other.hi),
        }
    }

    /// Whether each number of this range is in the other one.
    pub fn within(self, other: Range) -> bool
        ensures { IsTrue result ↔ ((z : ℤ) → IsIn self z → IsIn other z) }
    {
        other.lo <= self.lo && self.hi <= other.hi
    }

    /// The exact span of the sums of a number of this range and one of the other. Both have ends
    /// of 64 bits.
    pub fn add(self, other: Range) -> Range
        requires narrow { IsNarrow self }
        requires other_narrow { IsNarrow other }
        ensures { IsSpan ◌+ℤ◌ self other result }
    {
        Range {
            lo: self.lo + other.lo,
            hi: self.hi + other.hi,
        }
    }

    /// The exact span of the differences: a number of this range less one of the other. Both have
    /// ends of 64 bits.
    pub fn sub(self, other: Range) -> Range
        requires narrow { IsNarrow self }
        requires other_narrow { IsNarrow other }
        ensures { IsSpan ◌-ℤ◌ self other result }
    {
        Range {
            lo: self.lo - other.hi,
            hi: self.hi - other.lo,
        }
    }

    /// The exact span of this range's numbers times `by`. The range has ends of 64 bits.
    pub fn scale(self, by: i64) -> Range
        requires { IsNarrow self }
        ensures { IsScaled by self result }
    {
        if by >= 0 {
            self.scale_up(by)
        } else {
            self.scale_down(by)
        }
    }

    /// The range of the products with this number, which isn't below 0.
    fn scale_up(self, by: i64) -> Range
        requires narrow { IsNarrow self }
        requires up { pos 0 ≤ℤ by }
        ensures { IsScaled by self result }
    {
        let by = i128::from(by);
        Range {
            lo: self.lo * by,
            hi: self.hi * by,
        }
    }

    /// The range of the products with this number, which isn't above 0.
    fn scale_down(self, by: i64) -> Range
        requires narrow { IsNarrow self }
        requires down { by ≤ℤ pos 0 }
        ensures { IsScaled by self result }
    {
        let by = i128::from(by);
        Range {
            lo: self.hi * by,
            hi: self.lo * by,
        }
    }
}
