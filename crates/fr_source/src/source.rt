// The text of a source: its lines, as comments and messages show them.

use crate::texts::Pieces;
use std::alloc::{AllocError, Global};

/// The most bytes of a line that a message or a comment looks at.
const LONGEST_LINE: usize = 240;

/// A source: the name of its file, its bytes, and where its lines begin.
#[derive(Drop)]
pub(crate) struct Source<'a> {
    pub(crate) file: &'a str,
    pub(crate) bytes: &'a [u8],
    starts: Vec<usize>,
}

impl<'a> Source<'a> {
    pub(crate) fn new(
        alloc: Global,
        file: &'a str,
        bytes: &'a [u8],
    ) -> Result<Source<'a>, AllocError> {
        let mut starts = vec![in alloc; 0usize]?;
        for (place, byte) in bytes.iter().enumerate() {
            if *byte == b'\n' {
                starts.push(place.saturating_add(1))?;
            }
        }
        Ok(Source {
            file,
            bytes,
            starts,
        })
    }

    /// What the line with this number, from 1, has of some bytes: its beginning, where it is long.
    pub(crate) fn line_of<'b>(&self, bytes: &'b [u8], number: usize) -> &'b [u8] {
        let start = self.starts.get(number.saturating_sub(1)).copied();
        let start = start.unwrap_or(0);
        let end = match self.starts.get(number) {
            Some(next) => next.saturating_sub(1),
            None => self.bytes.len(),
        };
        bytes
            .get(start..end.min(start.saturating_add(LONGEST_LINE)))
            .unwrap_or(&[])
    }

    /// The words of a line, without comments.
    pub(crate) fn excerpt(
        &self,
        alloc: Global,
        pieces: &Pieces,
        line: usize,
    ) -> Result<String, AllocError> {
        let mut shown = String::new(alloc);
        let mut has_gap = false;
        for byte in self.line_of(pieces.bytes(), line) {
            if byte.is_ascii_whitespace() {
                has_gap = !shown.is_empty();
                continue;
            }
            if has_gap {
                shown.push(' ')?;
            }
            has_gap = false;
            shown.push(char::from(*byte))?;
        }
        Ok(shown)
    }
}

/// Printable ASCII as it is, a blank for each tab, and a question mark for each other character.
pub(crate) fn plain(alloc: Global, bytes: &[u8]) -> Result<String, AllocError> {
    let mut shown = String::new(alloc);
    for byte in bytes {
        match *byte {
            b' '..=b'~' => shown.push(char::from(*byte))?,
            b'\t' => shown.push(' ')?,
            b'\r' | 0x80..=0xbf => {}
            _ => shown.push('?')?,
        }
    }
    Ok(shown)
}
