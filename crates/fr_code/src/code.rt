// Where the lines of code are in an application's text.
use crate::source::{after_quotes, text_in};
use crate::table::{code_of, entries_at};
use fr_reader::Key;
use std::alloc::{AllocError, Global};
use toml::{Table, Value};
use toml_parser::text::skip_blank;
use toml_parser::{ParseError, quoted, starts_string};

/// Where a line of code stands in the application's text, without its quotes.
#[derive(Clone, Copy)]
pub struct CodePlace {
    /// The number of the line in the text, from 1.
    pub line: usize,
    /// The number of its first character in that line, from 1.
    pub column: usize,
    /// How many characters it has there.
    pub length: usize,
}

/// What is left of a document in which texts in quotes are looked for.
#[derive(Clone, Copy)]
struct Quotes<'a> {
    rest: &'a str,
    /// The line and the column of its first character, from 1.
    line: usize,
    column: usize,
}

/// Whether the byte begins a character, as UTF-8 writes it.
fn begins(byte: u8) -> bool {
    byte < 128 || byte >= 192
}

/// How many characters these bytes have.
fn characters(bytes: &[u8]) -> usize {
    let mut count = 0usize;
    for byte in bytes {
        if begins(*byte) {
            count = count.saturating_add(1);
        }
    }
    count
}

impl<'a> Quotes<'a> {
    /// Goes on to this end of what is left, and gives what it passed.
    fn go_to(&mut self, rest: &'a str) -> &'a [u8] {
        let whole = self.rest.as_bytes();
        let (passed, _) = whole.split_at(whole.len().saturating_sub(rest.len()));
        for byte in passed {
            if *byte == b'\n' {
                self.line = self.line.saturating_add(1);
                self.column = 1;
            } else if begins(*byte) {
                self.column = self.column.saturating_add(1);
            }
        }
        self.rest = rest;
        passed
    }

    /// Goes on to the next text in quotes, outside comments, and gives whether there is one.
    fn find(&mut self) -> bool {
        for _ in 0..self.rest.len() {
            self.go_to(skip_blank(self.rest, true));
            if starts_string(self.rest) {
                return true;
            }
            let mut characters = self.rest.chars();
            if characters.next().is_none() {
                return false;
            }
            self.go_to(characters.as_str());
        }
        false
    }

    /// The place of the next text in quotes, and whether it is this text; None where there is no other one.
    fn next(&mut self, alloc: Global, text: &str) -> Result<Option<(CodePlace, bool)>, AllocError> {
        if !self.find() || !starts_string(self.rest) {
            return Ok(None);
        }
        let (found, rest) = match quoted(alloc, self.rest) {
            Ok(read) => read,
            Err(ParseError::OutOfMemory) => return Err(AllocError),
            Err(_) => return Ok(None),
        };
        let opened = after_quotes(self.rest).unwrap_or("");
        let quotes = self.rest.len().saturating_sub(opened.len());
        let inside = opened.strip_prefix("\r\n").or(opened.strip_prefix("\n"));
        self.go_to(inside.unwrap_or(opened));
        let (line, column) = (self.line, self.column);
        let length = characters(self.go_to(rest)).saturating_sub(quotes);
        let place = CodePlace {
            line,
            column,
            length,
        };
        Ok(Some((place, found.as_str() == text)))
    }

    /// The place of the next text in quotes that is this one.
    fn place_of(&mut self, alloc: Global, text: &str) -> Result<Option<CodePlace>, AllocError> {
        for _ in 0..self.rest.len() {
            match self.next(alloc, text)? {
                Some((place, true)) => return Ok(Some(place)),
                Some((_, false)) => {}
                None => return Ok(None),
            }
        }
        Ok(None)
    }
}

/// The places of the lines of one actor's code, from which on the next actor's are looked for.
fn places_of_actor(
    alloc: Global,
    quotes: &mut Quotes,
    actor: &Value,
) -> Result<Vec<CodePlace>, AllocError> {
    let mut places = Vec::new(alloc);
    for line in code_of(actor) {
        if let Some(place) = quotes.place_of(alloc, line.as_str().unwrap_or(""))? {
            places.push(place)?;
        }
    }
    Ok(places)
}

/// The same of each actor in the table of this text.
fn places_in(alloc: Global, text: &str, whole: &Table) -> Result<Vec<Vec<CodePlace>>, AllocError> {
    let mut quotes = Quotes {
        rest: text,
        line: 1,
        column: 1,
    };
    let mut places = Vec::new(alloc);
    for actor in entries_at(whole, Key::Actor) {
        places.push(places_of_actor(alloc, &mut quotes, actor)?)?;
    }
    Ok(places)
}

/// The lines of one actor's code.
fn lines_of_actor(alloc: Global, actor: &Value) -> Result<Vec<String>, AllocError> {
    let mut lines = Vec::new(alloc);
    for line in code_of(actor) {
        lines.push(String::from_str(alloc, line.as_str().unwrap_or(""))?)?;
    }
    Ok(lines)
}

/// The same of each actor in this table.
fn lines_in(alloc: Global, whole: &Table) -> Result<Vec<Vec<String>>, AllocError> {
    let mut lines = Vec::new(alloc);
    for actor in entries_at(whole, Key::Actor) {
        lines.push(lines_of_actor(alloc, actor)?)?;
    }
    Ok(lines)
}

/// Where the lines of code stand in the text of an application that isn't refused: for each actor, in order, the
/// place of each line. Of a text that isn't TOML there are none.
///
/// No other text in quotes of an application is a line of code, since names and kinds aren't. So the first one that
/// is the same, from the line before on, is the line.
///
/// Its error is that an allocation was refused.
pub fn places_of_code(alloc: Global, bytes: &[u8]) -> Result<Vec<Vec<CodePlace>>, AllocError> {
    match toml::table_from_slice(alloc, bytes) {
        Ok(table) => places_in(alloc, text_in(bytes), &table),
        Err(error) if error.is_memory() => Err(AllocError),
        Err(_) => Ok(Vec::new(alloc)),
    }
}

/// The lines of code as they stand in the text of an application that isn't refused: for each actor, in order, each of its lines. Of a text
/// that isn't TOML there are none.
///
/// Its error is that an allocation was refused.
pub fn lines_of_code(alloc: Global, bytes: &[u8]) -> Result<Vec<Vec<String>>, AllocError> {
    match toml::table_from_slice(alloc, bytes) {
        Ok(table) => lines_in(alloc, &table),
        Err(error) if error.is_memory() => Err(AllocError),
        Err(_) => Ok(Vec::new(alloc)),
    }
}
