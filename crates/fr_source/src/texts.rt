// Texts that are put together. A form is a text in which each `%` is the place of a word.

use std::alloc::{AllocError, Global};

/// A piece of the source, as a word or a name: its bytes from `start` up to `end`, without the last one.
#[derive(Clone, Copy)]
pub(crate) struct Span {
    pub(crate) start: usize,
    pub(crate) end: usize,
}

impl Span {
    /// No piece: its text is empty.
    pub(crate) const NONE: Span = Span { start: 0, end: 0 };

    /// The number of its bytes.
    pub(crate) fn length(self) -> usize {
        self.end.saturating_sub(self.start)
    }
}

/// The name of the variable of `configASSERT`, which no source writes.
pub(crate) const ASSERTION: &str = "assertion";

/// The source with blanks in place of its comments, and after it the name of the variable of `configASSERT`: what names and words
/// are pieces of.
#[derive(Drop)]
pub(crate) struct Pieces {
    bytes: Vec<u8>,
    /// The name that is after the source.
    pub(crate) assertion: Span,
}

impl Pieces {
    pub(crate) fn none(alloc: Global) -> Pieces {
        Pieces {
            bytes: Vec::new(alloc),
            assertion: Span::NONE,
        }
    }

    /// The pieces of a source with blanks in place of its comments.
    pub(crate) fn of(blank: Vec<u8>) -> Result<Pieces, AllocError> {
        let mut bytes = blank;
        let start = bytes.len();
        bytes.extend_from_slice(ASSERTION.as_bytes())?;
        let end = bytes.len();
        let assertion = Span { start, end };
        Ok(Pieces { bytes, assertion })
    }

    pub(crate) fn bytes(&self) -> &[u8] {
        &self.bytes
    }

    /// The text of a piece.
    pub(crate) fn text(&self, span: Span) -> &str {
        std::str::from_utf8(self.bytes_of(span)).unwrap_or("")
    }

    fn bytes_of(&self, span: Span) -> &[u8] {
        self.bytes.get(span.start..span.end).unwrap_or(&[])
    }

    /// Whether a piece has this text.
    pub(crate) fn is(&self, span: Span, text: &str) -> bool {
        span.length() == text.len() && self.bytes_of(span) == text.as_bytes()
    }

    /// Whether two pieces have the same text.
    pub(crate) fn are_alike(&self, one: Span, other: Span) -> bool {
        one.length() == other.length() && self.bytes_of(one) == self.bytes_of(other)
    }
}

/// What is filled into a form.
#[derive(Clone, Copy)]
pub(crate) enum Word<'a> {
    Text(&'a str),
    /// A piece of the source, cut where it is too long for a message.
    Piece(Span),
    Number(i64),
    Count(usize),
    /// So many blanks.
    Blanks(usize),
}

/// The most characters of a word that a message repeats.
const MOST_REPEATED: usize = 40;

/// The text, cut where it is too long for a message.
pub(crate) fn clipped(text: &str) -> &str {
    text.get(..MOST_REPEATED).unwrap_or(text)
}

/// Appends a word.
fn push_word(
    alloc: Global,
    whole: &mut String,
    pieces: &Pieces,
    word: Word<'_>,
) -> Result<(), AllocError> {
    let digits = match word {
        Word::Text(text) => return whole.push_str(text),
        Word::Piece(span) => return whole.push_str(clipped(pieces.text(span))),
        Word::Blanks(count) => {
            for _ in 0..count {
                whole.push(' ')?;
            }
            return Ok(());
        }
        Word::Number(number) => format!(in alloc; "{number}")?,
        Word::Count(count) => format!(in alloc; "{count}")?,
    };
    whole.push_str(digits.as_str())
}

/// Appends a form, with its words in their places, some of them pieces of a source.
pub(crate) fn push_pieces(
    alloc: Global,
    whole: &mut String,
    pieces: &Pieces,
    form: &str,
    words: &[Word<'_>],
) -> Result<(), AllocError> {
    let mut rest = words.iter();
    for character in form.chars() {
        if character != '%' {
            whole.push(character)?;
        } else if let Some(word) = rest.next() {
            push_word(alloc, whole, pieces, *word)?;
        }
    }
    Ok(())
}

/// Appends a form, with its words in their places. None of them is a piece of a source.
pub(crate) fn push_filled(
    alloc: Global,
    whole: &mut String,
    form: &str,
    words: &[Word<'_>],
) -> Result<(), AllocError> {
    push_pieces(alloc, whole, &Pieces::none(alloc), form, words)
}

/// A form, with its words in their places. None of them is a piece of a source.
pub(crate) fn filled(alloc: Global, form: &str, words: &[Word<'_>]) -> Result<String, AllocError> {
    let mut whole = String::new(alloc);
    push_filled(alloc, &mut whole, form, words)?;
    Ok(whole)
}
