// Numbers in lines: each has one text, and each place has its limits.
ghost use Rattle.std.specs.Prelude.{◌≡◌, ◌≢◌, ◌<◌, ◌+◌, ℕ, ℤ, FitsSigned, IfSome, IfNone, length, slice_index};
ghost use Rattle.std.specs.Fmt.{decimal, signed_decimal};
ghost use Rattle.std.specs.Int.{w64};
ghost use Rattle.fr_instr.specs.Numbers.{IsInteger, IsNatural, IsTarget, IsTicks, IsLength};

use fr_program::{MOST_SIZE, MOST_TICKS};
use itoa::Buffer;

/// The greatest target of a line.
const MOST_TARGET: u32 = 2_147_483_647;

/// The digit at this place of the text, as its number, if there is one.
fn digit_at(text: &[u8], place: usize) -> Option<u32>
    ensures { IfSome result (λ d. (place < length text.now) × (d < 10) × (slice_index text.now place ≡ 48 + d)) }
{
    match text.get(place) {
        Some(byte) if byte.is_ascii_digit() => Some(u32::from(*byte - b'0')),
        _ => None,
    }
}

/// The number that the text is, where it is one of up to 9 digits. Most numbers are: they are read without writing them again.
fn short_number(text: &[u8]) -> Option<u32>
    ensures { IfSome result (λ n. text.now ≡ decimal n) }
{
    let mut n = digit_at(text, 0)?;
    if n == 0 && text.len() > 1 {
        return None;
    }
    let mut i = 1;
    while let Some(digit) = digit_at(text, i) {
        if n > 99_999_999 {
            return None;
        }
        n = n * 10 + digit;
        i += 1;
    }
    if i == text.len() { Some(n) } else { None }
}

/// The number that the text is the one way to write.
fn number_of(text: &[u8]) -> Option<i64>
    ensures some { IfSome result (λ z. text.now ≡ signed_decimal z) }
    ensures none { IfNone result ((z : ℤ) → FitsSigned w64 z → text.now ≢ signed_decimal z) }
{
    if let Some(n) = short_number(text) {
        return Some(i64::from(n));
    }
    let Ok(digits) = std::str::from_utf8(text) else {
        return None;
    };
    let Ok(n) = digits.parse::<i64>() else {
        return None;
    };
    let mut buffer = Buffer::new();
    if buffer.format(n).as_bytes() == text {
        Some(n)
    } else {
        None
    }
}

/// The number that the text is, of 64 bits with a sign.
pub fn integer_of(text: &[u8]) -> Option<i64>
    ensures some { IfSome result (IsInteger text.now) }
    ensures none { IfNone result ((z : ℤ) → ¬ IsInteger text.now z) }
{
    number_of(text)
}

/// The number within these limits that the text is.
fn natural_of(text: &[u8], least: u32, most: u32) -> Option<u32>
    ensures some { IfSome result (IsNatural least most text.now) }
    ensures none { IfNone result ((n : ℕ) → ¬ IsNatural least most text.now n) }
{
    let Some(n) = number_of(text) else {
        return None;
    };
    if n < i64::from(least) {
        return None;
    }
    if i64::from(most) < n {
        return None;
    }
    Some(n as u32)
}

/// The instruction's number that the text is.
pub(crate) fn target_of(text: &[u8]) -> Option<usize>
    ensures some { IfSome result (IsTarget text.now) }
    ensures none { IfNone result ((k : ℕ) → ¬ IsTarget text.now k) }
{
    match natural_of(text, 0, MOST_TARGET) {
        Some(target) => Some(target as usize),
        None => None,
    }
}

/// The number of ticks that the text is.
pub(crate) fn ticks_of(text: &[u8]) -> Option<u32>
    ensures some { IfSome result (IsTicks text.now) }
    ensures none { IfNone result ((n : ℕ) → ¬ IsTicks text.now n) }
{
    natural_of(text, 0, MOST_TICKS)
}

/// The length that the text is.
pub(crate) fn length_of(text: &[u8]) -> Option<u32>
    ensures some { IfSome result (IsLength text.now) }
    ensures none { IfNone result ((n : ℕ) → ¬ IsLength text.now n) }
{
    natural_of(text, 1, MOST_SIZE)
}
