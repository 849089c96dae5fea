// The lines of a place while they are written.
use crate::shown::Start;
use fr_escape::{Location, place_of_texts};
use std::alloc::{AllocError, Global};
use std::fmt::Display;
use std::mem::replace;

/// The lines that are done, and the one that is being written. Once an allocation was refused, they lack a part, and no place is
/// made of them.
#[derive(Drop)]
pub(crate) struct Lines {
    pub alloc: Global,
    done: Vec<String>,
    /// What the line that is being written has so far.
    open: String,
    is_refused: bool,
}

impl Lines {
    /// No line.
    pub(crate) fn new(alloc: Global) -> Lines {
        Lines {
            alloc,
            done: Vec::new(alloc),
            open: String::new(alloc),
            is_refused: false,
        }
    }

    /// Remembers that an allocation was refused.
    pub(crate) fn refuse(&mut self) {
        self.is_refused = true;
    }

    /// Writes a text. `write!` calls this.
    pub(crate) fn write_fmt<D: Display + Drop>(&mut self, text: D) {
        if self.open.write(text).is_err() {
            self.refuse();
        }
    }

    /// Writes a value as it is printed, and no more than is shown of a text.
    pub(crate) fn printed<D: Display + Drop>(&mut self, value: D) {
        match format!(in self.alloc; "{value}") {
            Ok(text) => write!(self, "{}", Start(text.as_str())),
            Err(_) => self.refuse(),
        }
    }

    /// How many bytes the line that is being written has so far.
    pub(crate) fn width(&self) -> usize {
        self.open.len()
    }

    /// Ends the line that is being written.
    pub(crate) fn end(&mut self) {
        let line = replace(&mut self.open, String::new(self.alloc));
        if self.done.push(line).is_err() {
            self.refuse();
        }
    }

    /// Writes the rest of a line, and ends it.
    pub(crate) fn say<D: Display + Drop>(&mut self, text: D) {
        self.write_fmt(text);
        self.end();
    }

    /// The lines that are done, as they are shown. Its error is that an allocation was refused, here or while they were written.
    pub(crate) fn place(&self) -> Result<Location, AllocError> {
        if self.is_refused {
            return Err(AllocError);
        }
        place_of_texts(self.alloc, &self.done)
    }
}
