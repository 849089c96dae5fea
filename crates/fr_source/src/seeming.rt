// Texts that look like sources.

use crate::kernel::{DECLARATIONS, is_among};

/// Whether a text that isn't TOML begins as a source does: with a comment of C, or with a declaration.
pub fn seems_a_source(text: &[u8]) -> bool {
    let text = str::from_utf8(text).unwrap_or("");
    let mut words = text
        .strip_prefix('\u{feff}')
        .unwrap_or(text)
        .split_whitespace();
    let (first, second) = (words.next().unwrap_or(""), words.next().unwrap_or("="));
    first.starts_with("//")
        || first.starts_with("/*")
        || (is_among(first, &DECLARATIONS) && !second.starts_with('='))
}
