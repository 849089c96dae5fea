// Text of a file as a terminal may have it.
use std::fmt;

/// How many bytes of a text are shown.
const MOST_SHOWN: usize = 60;

/// Bytes, each that isn't printable ASCII by `\x` and its two digits.
#[derive(Clone, Copy)]
pub(crate) struct Shown<'a>(pub &'a [u8]);

impl fmt::Display for Shown<'_> {
    fn fmt<W: fmt::Write>(&self, f: &mut fmt::Formatter<W>) -> fmt::Result {
        for byte in self.0 {
            if (b' '..=b'~').contains(byte) {
                f.write_char(char::from(*byte))?;
            } else {
                write!(f, "\\x{byte:02x}")?;
            }
        }
        Ok(())
    }
}

/// The first bytes of a text, and two dots where there are more.
#[derive(Clone, Copy)]
pub(crate) struct Start<'a>(pub &'a str);

impl fmt::Display for Start<'_> {
    fn fmt<W: fmt::Write>(&self, f: &mut fmt::Formatter<W>) -> fmt::Result {
        let bytes = self.0.as_bytes();
        match bytes.get(..MOST_SHOWN) {
            Some(first) => write!(f, "{} ..", Shown(first)),
            None => write!(f, "{}", Shown(bytes)),
        }
    }
}

/// The same in quotes.
#[derive(Clone, Copy)]
pub(crate) struct Quoted<'a>(pub &'a str);

impl fmt::Display for Quoted<'_> {
    fn fmt<W: fmt::Write>(&self, f: &mut fmt::Formatter<W>) -> fmt::Result {
        write!(f, "\"{}\"", Start(self.0))
    }
}
