// Files that seem to be swapped.
use crate::lines::Lines;
use fr_escape::Location;
use std::alloc::{AllocError, Global};

/// The first byte that is no blank, and 0 where there is none.
fn first_byte(text: &[u8]) -> u8 {
    let mut bytes = text.iter().copied();
    bytes.find(|byte| !byte.is_ascii_whitespace()).unwrap_or(0)
}

/// Whether the two files seem to be swapped: the application's begins as a certificate does, with `{`, and the
/// certificate's as an application or a source does, with `[`, `#`, `/`, or a letter.
pub fn seem_swapped(app: &[u8], certificate: &[u8]) -> bool {
    let first = first_byte(certificate);
    first_byte(app) == b'{' && (matches!(first, b'[' | b'#' | b'/') || first.is_ascii_alphabetic())
}

/// What is said of two files that seem to be swapped. Its error is that an allocation was refused.
pub fn place_of_swapped(alloc: Global) -> Result<Location, AllocError> {
    let mut out = Lines::new(alloc);
    out.say("the two files seem to be swapped");
    out.place()
}
