// What is printed of a source that is refused, or of a line of it that is left out.

use crate::fault::{Fault, Spot};
use crate::source::{Source, plain};
use crate::texts::{Word, filled, push_filled};
use fr_escape::push_plain;
use std::alloc::{AllocError, AllocFailed, Global};

/// A place in a source, and what is to be said of it. All texts are printable ASCII.
#[derive(Drop)]
pub struct Message {
    /// The line, from 1.
    pub line: usize,
    /// The column in characters, from 1.
    pub column: usize,
    /// What is wrong, and what was expected.
    pub text: String,
    /// The line of the source, up to 240 bytes, with a blank for each tab and a question mark for each character that isn't plain.
    pub shown: String,
    /// Blanks, and a `^` under the place. Empty where the place is beyond what is shown.
    pub mark: String,
}

/// Why a source isn't translated.
#[derive(Drop)]
pub enum Refused {
    /// What is wrong in it.
    Source(Message),
    /// An allocation was refused.
    Memory,
}

impl From<AllocError> for Refused {
    fn from(_refused: AllocError) -> Refused {
        Refused::Memory
    }
}

impl<T: Drop> From<AllocFailed<T>> for Refused {
    fn from(_refused: AllocFailed<T>) -> Refused {
        Refused::Memory
    }
}

/// The mark under a place of a line.
fn mark_under(alloc: Global, shown: &str, column: usize) -> Result<String, AllocError> {
    let before = column.saturating_sub(1);
    if before > shown.len() {
        return Ok(String::new(alloc));
    }
    filled(alloc, "%^", &[Word::Blanks(before)])
}

/// The message that a text is about a place.
pub(crate) fn message_at(
    alloc: Global,
    source: &Source<'_>,
    spot: Spot,
    text: String,
) -> Result<Message, AllocError> {
    let Spot { line, column } = spot;
    let shown = plain(alloc, source.line_of(source.bytes, line))?;
    let mark = mark_under(alloc, shown.as_str(), column)?;
    Ok(Message {
        line,
        column,
        text,
        shown,
        mark,
    })
}

/// Why a source with this fault isn't translated.
pub(crate) fn refused_by(alloc: Global, source: &Source<'_>, fault: Fault) -> Refused {
    match fault {
        Fault::Wrong(spot, text) => match message_at(alloc, source, spot, text) {
            Ok(message) => Refused::Source(message),
            Err(_) => Refused::Memory,
        },
        Fault::Memory => Refused::Memory,
    }
}

impl Message {
    /// The line to print: `FILE:LINE:COLUMN: text`. What could steer a terminal in the file's name is written as in a literal
    /// of Rust. Its error is that an allocation was refused.
    pub fn report(&self, alloc: Global, file: &str) -> Result<String, AllocError> {
        let mut report = String::new(alloc);
        push_plain(&mut report, file)?;
        let words = &[
            Word::Count(self.line),
            Word::Count(self.column),
            Word::Text(self.text.as_str()),
        ];
        push_filled(alloc, &mut report, ":%:%: %", words)?;
        Ok(report)
    }

    /// The lines to print below that: the line of the source with its number, and the mark under the place. Its error is that an allocation
    /// was refused.
    pub fn excerpt(&self, alloc: Global) -> Result<[String; 2], AllocError> {
        let shown = self.shown.as_str();
        let before = match self.line {
            0..=9 => 2,
            10..=99 => 1,
            _ => 0,
        };
        let words = &[
            Word::Blanks(before),
            Word::Count(self.line),
            Word::Text(shown),
        ];
        let numbered = filled(alloc, "%% | %", words)?;
        let width = numbered.len().saturating_sub(shown.len()).saturating_sub(3);
        let words = &[Word::Blanks(width), Word::Text(self.mark.as_str())];
        Ok([numbered, filled(alloc, "% | %", words)?])
    }
}
