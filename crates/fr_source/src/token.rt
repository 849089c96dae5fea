// The words, numbers and signs of a source, with their places.

use crate::fault::{Fault, Spot, wrong, wrong_about, wrong_with};
use crate::texts::{Span, Word};
use std::alloc::{AllocError, Global};

/// What a token is.
#[derive(Clone, Copy)]
pub(crate) enum Kind {
    Word,
    Number,
    Sign,
    End,
}

/// A word, a number or a sign of the source, or its end.
#[derive(Clone, Copy)]
pub(crate) struct Token {
    pub(crate) kind: Kind,
    pub(crate) span: Span,
    pub(crate) spot: Spot,
    /// The column from 0, where a tab counts to the next multiple of 8.
    pub(crate) indent: usize,
}

/// What a piece of the source is: space and comments are no tokens.
#[derive(Clone, Copy)]
enum Piece {
    Space,
    Comment,
    Token(Kind),
    Unended,
    Unknown,
}

/// The signs of two characters.
static PAIRS: [[u8; 2]; 12] = [
    *b"..", *b"++", *b"--", *b"-=", *b"+=", *b"*=", *b"==", *b"!=", *b"<=", *b">=", *b"&&", *b"||",
];

/// Where the scanner is in the source.
#[derive(Clone, Copy)]
struct Position {
    spot: Spot,
    indent: usize,
}

const START: Position = Position {
    spot: Spot { line: 1, column: 1 },
    indent: 0,
};

impl Position {
    /// The position after some text.
    fn past(self, text: &[u8]) -> Position {
        let Position { spot, mut indent } = self;
        let Spot {
            mut line,
            mut column,
        } = spot;
        for byte in text {
            (line, column, indent) = match *byte {
                b'\n' => (line.saturating_add(1), 1, 0),
                b'\t' => (
                    line,
                    column.saturating_add(1),
                    (indent / 8).saturating_add(1).saturating_mul(8),
                ),
                0x80..=0xbf => (line, column, indent),
                _ => (line, column.saturating_add(1), indent.saturating_add(1)),
            };
        }
        Position {
            spot: Spot { line, column },
            indent,
        }
    }
}

/// The bytes of a piece of the source.
#[derive(Clone, Copy)]
enum Class {
    Space,
    Line,
    Word,
    Digit,
    Hexadecimal,
}

impl Class {
    fn has(self, byte: u8) -> bool {
        match self {
            Class::Space => matches!(byte, b' ' | b'\t' | b'\r' | b'\n'),
            Class::Line => byte != b'\n',
            Class::Word => byte.is_ascii_alphanumeric() || byte == b'_',
            Class::Digit => byte.is_ascii_digit(),
            Class::Hexadecimal => byte.is_ascii_hexdigit(),
        }
    }

    /// The number of bytes of this class that the text begins with.
    fn length(self, text: &[u8]) -> usize {
        let mut length = 0usize;
        for byte in text {
            if !self.has(*byte) {
                break;
            }
            length = length.saturating_add(1);
        }
        length
    }
}

/// The length of the comment that the text begins with, if it ends.
fn comment_length(text: &[u8]) -> Option<usize> {
    for length in 4..=text.len() {
        if let Some([.., b'*', b'/']) = text.get(..length) {
            return Some(length);
        }
    }
    None
}

/// Why a comment that ends with `\` is refused.
const JOINED: &str =
    "this comment ends with '\\', so C reads the next line as part of it: leave the '\\' out";

/// The length of the number that the text begins with.
fn number_length(text: &[u8]) -> usize {
    let hexadecimal = text.starts_with(b"0x") || text.starts_with(b"0X");
    match text.get(2..) {
        Some(digits) if hexadecimal && Class::Hexadecimal.length(digits) > 0 => {
            Class::Hexadecimal.length(digits).saturating_add(2)
        }
        _ => Class::Digit.length(text),
    }
}

/// The length of the sign that the text begins with: 0 if it begins with none.
fn sign_length(text: &[u8], first: u8) -> usize {
    for pair in &PAIRS {
        if text.starts_with(pair) {
            return 2;
        }
    }
    usize::from(b"-+*/%=!<>(){}[];:,".contains(&first))
}

/// What the text begins with, and its length.
fn piece_of(text: &[u8], first: u8) -> (Piece, usize) {
    if Class::Space.has(first) {
        (Piece::Space, Class::Space.length(text))
    } else if text.starts_with(b"//") {
        (Piece::Comment, Class::Line.length(text))
    } else if text.starts_with(b"/*") {
        match comment_length(text) {
            Some(length) => (Piece::Comment, length),
            None => (Piece::Unended, 1),
        }
    } else if first.is_ascii_digit() {
        (Piece::Token(Kind::Number), number_length(text))
    } else if Class::Word.has(first) {
        (Piece::Token(Kind::Word), Class::Word.length(text))
    } else if text.starts_with(b"<<") || text.starts_with(b">>") || text.starts_with(b"->") {
        (Piece::Unknown, 2)
    } else {
        match sign_length(text, first) {
            0 => (Piece::Unknown, 1),
            length => (Piece::Token(Kind::Sign), length),
        }
    }
}

/// What to write in place of a sign that begins with this byte.
fn in_place_of(byte: u8) -> &'static str {
    match byte {
        b'&' =>
            ": leave out data pointers and '&woken', and write 'x' for '&x'; there are no bit operators, so write any(..) for a result",
        b'|' | b'^' | b'~' | b'<' | b'>' =>
            ": there are no bit operators, write any(..) or a variable for each bit",
        b'?' => ": write if and else",
        b'#' => ": write 'const N = 3;' for a #define, outside, and leave out each #include",
        b'"' | b'\'' => ": there are no texts, write a number or leave this out",
        b'-' => ": there are no fields, write a variable for each",
        b'.' => ": there are no fractions, and no fields: write a variable for each field",
        _ => "",
    }
}

/// Why a byte that begins no token is refused.
fn unknown_sign(alloc: Global, spot: Spot, text: &[u8]) -> Fault {
    let byte = text.first().copied().unwrap_or(0);
    let hint = in_place_of(byte);
    if byte.is_ascii_graphic() {
        let sign = std::str::from_utf8(text).unwrap_or("");
        wrong_about(alloc, spot, "the sign '%' means nothing here%", sign, hint)
    } else if byte.is_ascii() {
        let words = &[Word::Number(i64::from(byte))];
        wrong_with(alloc, spot, "the sign of code % means nothing here", words)
    } else {
        wrong(alloc, spot, "this isn't ASCII: only a comment may have it")
    }
}

/// Refuses numbers that C reads otherwise, and ones with a suffix or of another form.
fn check_number(alloc: Global, spot: Spot, text: &[u8], rest: &[u8]) -> Result<(), Fault> {
    let is_hexadecimal = rest.starts_with(b"x") || rest.starts_with(b"X");
    let why = if text == b"0".as_slice() && is_hexadecimal {
        "hexadecimal digits have to be after 0x, as in 0x1F"
    } else if Class::Word.length(rest) > 0 {
        "a number is decimal, or hexadecimal after 0x, and has no suffix"
    } else if text.len() > 1 && text.starts_with(b"0") && Class::Digit.length(text) == text.len() {
        "a number with a leading zero would be octal in C: write it without"
    } else {
        return Ok(());
    };
    Err(wrong(alloc, spot, why))
}

/// The tokens of a source, its end, and its bytes with blanks in place of comments.
#[derive(Drop)]
pub(crate) struct Scan {
    pub(crate) tokens: Vec<Token>,
    pub(crate) end: Token,
    pub(crate) blank: Vec<u8>,
}

/// Appends a comment, with a blank for each byte but the line breaks.
fn push_blanks(blank: &mut Vec<u8>, text: &[u8]) -> Result<(), AllocError> {
    for byte in text {
        blank.push(if *byte == b'\n' { b'\n' } else { b' ' })?;
    }
    Ok(())
}

impl Scan {
    /// Keeps a piece of the source. `after` is what is behind it.
    fn keep(
        &mut self,
        alloc: Global,
        piece: Piece,
        text: &[u8],
        after: &[u8],
        position: Position,
    ) -> Result<(), Fault> {
        let Position { spot, indent } = position;
        match piece {
            Piece::Comment if text.trim_ascii_end().ends_with(b"\\") => {
                return Err(wrong(alloc, spot, JOINED));
            }
            Piece::Comment => return Ok(push_blanks(&mut self.blank, text)?),
            Piece::Unended => return Err(wrong(alloc, spot, "this comment doesn't end")),
            Piece::Unknown => return Err(unknown_sign(alloc, spot, text)),
            Piece::Token(kind) => {
                if matches!(kind, Kind::Number) {
                    check_number(alloc, spot, text, after)?;
                }
                let start = self.blank.len();
                let end = start.saturating_add(text.len());
                self.tokens.push(Token {
                    kind,
                    span: Span { start, end },
                    spot,
                    indent,
                })?;
            }
            Piece::Space => {}
        }
        self.blank.extend_from_slice(text)?;
        Ok(())
    }

    /// Reads the pieces of a source.
    fn read(&mut self, alloc: Global, source: &[u8]) -> Result<(), Fault> {
        let mut rest = source;
        let mut position = START;
        for _ in 0..source.len() {
            let Some(first) = rest.first().copied() else {
                break;
            };
            let (piece, length) = piece_of(rest, first);
            let Some((text, after)) = rest.split_at_checked(length.max(1)) else {
                break;
            };
            self.keep(alloc, piece, text, after, position)?;
            position = position.past(text);
            rest = after;
        }
        let Position { spot, indent } = position;
        self.end.spot = spot;
        self.end.indent = indent;
        Ok(())
    }
}

/// The words, numbers and signs of a source.
pub(crate) fn scanned(alloc: Global, source: &[u8]) -> Result<Scan, Fault> {
    let Position { spot, indent } = START;
    let end = Token {
        kind: Kind::End,
        span: Span::NONE,
        spot,
        indent,
    };
    let mut scan = Scan {
        tokens: Vec::new(alloc),
        end,
        blank: Vec::new(alloc),
    };
    scan.read(alloc, source)?;
    Ok(scan)
}
