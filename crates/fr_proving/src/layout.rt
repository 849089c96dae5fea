// A certificate's text with each note on a line of its own.
use std::alloc::{AllocError, Global};

/// How deep the items of a certificate's two lists are: inside the object and inside a list.
const ITEMS: usize = 2;

/// A text that is laid out, and where in the certificate it has come to.
#[derive(Drop)]
struct Layout {
    text: String,
    /// How many objects and lists are open.
    depth: usize,
    /// Whether a name is open.
    quoted: bool,
    /// Whether a line ends here, unless a list does.
    breaks: bool,
}

impl Layout {
    /// Adds the next character of the certificate's text.
    fn add(&mut self, character: char) -> Result<(), AllocError> {
        if self.breaks && character != ']' {
            self.text.push('\n')?;
        }
        self.text.push(character)?;
        self.breaks = false;
        if character == '"' {
            self.quoted = !self.quoted;
        }
        if !self.quoted {
            self.pass(character);
        }
        Ok(())
    }

    /// Goes past a character outside names.
    fn pass(&mut self, character: char) {
        match character {
            '{' | '[' => {
                self.depth = self.depth.saturating_add(1);
                self.breaks = self.depth == ITEMS;
            }
            '}' | ']' => self.depth = self.depth.saturating_sub(1),
            ',' => self.breaks = self.depth <= ITEMS,
            _ => {}
        }
    }
}

/// The text of a certificate, which has no line ends, with each key, each end and each note on a line of
/// its own.
pub fn laid_out(alloc: Global, compact: &str) -> Result<String, AllocError> {
    let mut layout = Layout {
        text: String::new(alloc),
        depth: 0,
        quoted: false,
        breaks: false,
    };
    for character in compact.chars() {
        layout.add(character)?;
    }
    layout.text.push('\n')?;
    Ok(layout.text)
}
