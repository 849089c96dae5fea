// Where the lines of code of a translated application come from: the comments after them that name a place in the source.
ghost use Rattle.std.specs.Prelude.{◌≡◌, IfOk, length, map, vec_len};

use crate::code::{CodePlace, places_of_code};
use std::alloc::{AllocError, Global};
use std::fmt;

/// The line of a source from which a line of code was translated.
#[derive(Drop)]
pub struct CodeSource {
    /// The source's file, as the comment names it.
    pub file: String,
    /// The number of the line in it, from 1.
    pub line: usize,
    /// The lines that call the function that the line is of, the innermost first, as ` from 21 from 30`; no text where it
    /// is of no function.
    pub callers: String,
}

impl fmt::Display for CodeSource {
    ghost use Rattle.std.specs.Prelude.{◌++◌, Some, codes, decimal, string_bytes};

    ghost output = { λ source. Some (string_bytes source.file ++ codes ":" ++ decimal source.line ++ string_bytes source.callers) };

    fn fmt<W: fmt::Write>(&self, f: &mut fmt::Formatter<W>) -> fmt::Result {
        let (file, line, callers) = (self.file.as_str(), self.line, self.callers.as_str());
        write!(f, "{file}:{line}{callers}")
    }
}

/// What a comment names, where it stands.
#[derive(Clone, Copy)]
struct Named<'a> {
    file: &'a str,
    line: usize,
    callers: &'a str,
}

/// How far a text is read.
#[derive(Drop)]
struct Reading<'a> {
    lines: Vec<&'a str>,
    /// The number of the line that is read, from 1, and 0 before the first.
    line: usize,
    /// The number of the character that is read next, from 1.
    column: usize,
    /// What is left of the line from there on.
    rest: &'a str,
}

/// The text in these bytes, without a byte order mark before it; an empty one where they aren't UTF-8.
pub(crate) fn text_in(bytes: &[u8]) -> &str {
    let text = str::from_utf8(bytes).unwrap_or("");
    text.strip_prefix('\u{feff}').unwrap_or(text)
}

/// What follows so many characters; None where there are fewer.
fn after_characters(text: &str, count: usize) -> Option<&str> {
    let mut characters = text.chars();
    for _ in 0..count {
        characters.next()?;
    }
    Some(characters.as_str())
}

/// Whether the character is a blank between words.
fn is_blank(character: char) -> bool {
    character == ' ' || character == '\t'
}

/// The text without the blanks at its front.
fn after_blanks(text: &str) -> &str {
    text.trim_start_matches(|character: char| is_blank(character))
}

/// What follows the quotes at the front of the text.
pub(crate) fn after_quotes(text: &str) -> Option<&str> {
    for quotes in ["\"\"\"", "'''", "\"", "'"] {
        if let Some(after) = text.strip_prefix(quotes) {
            return Some(after);
        }
    }
    None
}

/// The comment that follows a line of code, from its closing quotes on, and maybe a comma.
fn comment_after(text: &str) -> Option<&str> {
    let after = after_blanks(after_quotes(text)?);
    let after = after_blanks(after.strip_prefix(',').unwrap_or(after));
    after.strip_prefix('#')
}

/// The digits at the front of the text, and what follows them; None where there is no digit.
fn split_digits(text: &str) -> Option<(&str, &str)> {
    let rest = text.trim_start_matches(|character: char| character.is_ascii_digit());
    let (digits, rest) = text.split_at_checked(text.len().saturating_sub(rest.len()))?;
    if digits.is_empty() {
        return None;
    }
    Some((digits, rest))
}

/// What follows one caller at the front of the text.
fn after_caller(text: &str) -> Option<&str> {
    match split_digits(text.strip_prefix(" from ")?) {
        Some((_, rest)) => Some(rest),
        None => None,
    }
}

/// The callers at the front of the text, and what follows them.
fn split_callers(text: &str) -> Option<(&str, &str)> {
    let mut rest = text;
    for _ in 0..text.len() {
        let Some(after) = after_caller(rest) else {
            break;
        };
        rest = after;
    }
    text.split_at_checked(text.len().saturating_sub(rest.len()))
}

/// The number of a line and its callers, with which the text ends, or an excerpt follows.
fn line_in(text: &str) -> Option<(usize, &str)> {
    let (digits, rest) = split_digits(text)?;
    let (callers, end) = split_callers(rest)?;
    let line = digits.parse::<usize>().ok()?;
    (end.is_empty() || end.starts_with(": ")).then_some((line, callers))
}

/// The place at the front of the text: the name of a file, a colon and a line.
fn place_in(text: &str) -> Option<Named<'_>> {
    for (at, character) in text.char_indices() {
        if character.is_control() {
            return None;
        }
        let (file, rest) = text.split_at_checked(at)?;
        if let Some(after) = rest.strip_prefix(':')
            && let Some((line, callers)) = line_in(after)
        {
            return Some(Named {
                file,
                line,
                callers,
            });
        }
    }
    None
}

/// What the comment names, if it has the form of those of translations: a number, a place and maybe an excerpt.
fn named_by(comment: &str) -> Option<Named<'_>> {
    let comment = comment.strip_suffix('\r').unwrap_or(comment);
    let (_, after) = split_digits(after_blanks(comment))?;
    let place = after_blanks(after);
    let named = place_in(place)?;
    (place.len() < after.len() && !named.file.is_empty() && named.line > 0).then_some(named)
}

impl<'a> Reading<'a> {
    /// The text before anything is read.
    fn new(alloc: Global, text: &'a str) -> Result<Reading<'a>, AllocError> {
        Ok(Reading {
            lines: text.split('\n').collect(alloc)?,
            line: 0,
            column: 1,
            rest: "",
        })
    }

    /// Goes to this column of this line, and gives what is left of the line from there on; None where it isn't so long.
    /// What was passed on a line isn't read again while the columns rise.
    fn go_to(&mut self, line: usize, column: usize) -> Option<&'a str> {
        if line != self.line || column < self.column {
            self.rest = *self.lines.get(line.checked_sub(1)?)?;
            self.line = line;
            self.column = 1;
        }
        self.rest = after_characters(self.rest, column.checked_sub(self.column)?)?;
        self.column = column;
        Some(self.rest)
    }

    /// What the comment after this line of code names.
    fn named_at(&mut self, place: CodePlace) -> Option<Named<'a>> {
        let after = place.column.checked_add(place.length)?;
        named_by(comment_after(self.go_to(place.line, after)?)?)
    }

    /// The place in the source that the comment after this line of code names.
    fn source_at(
        &mut self,
        alloc: Global,
        place: CodePlace,
    ) -> Result<Option<CodeSource>, AllocError> {
        let Some(named) = self.named_at(place) else {
            return Ok(None);
        };
        Ok(Some(CodeSource {
            file: String::from_str(alloc, named.file)?,
            line: named.line,
            callers: String::from_str(alloc, named.callers)?,
        }))
    }

    /// The same of each line of one actor's code.
    fn sources_of(
        &mut self,
        alloc: Global,
        places: &[CodePlace],
    ) -> Result<Vec<Option<CodeSource>>, AllocError>
        ensures { IfOk result (λ sources. vec_len sources ≡ length places.now) }
    {
        let mut sources = Vec::new(alloc);
        for place in places {
            sources.push(self.source_at(alloc, *place)?)?;
        }
        Ok(sources)
    }
}

/// The places in the source that the comments after the lines of code name, in the text of an application that
/// `translate` wrote: for each actor, in order, that of each line. None where the text after the line has no such
/// comment: its quotes, maybe a comma, and then `# NUMBER FILE:LINE`, the callers of the line if it has any, as in
/// ` from 21 from 30`, and nothing more or `: ` with an excerpt. The file's name has no control character; it ends at the first
/// colon that all this follows. Of a text that isn't UTF-8 there are none.
///
/// Its error is that an allocation was refused.
pub fn sources_of_code(
    alloc: Global,
    bytes: &[u8],
    code: &[Vec<CodePlace>],
) -> Result<Vec<Vec<Option<CodeSource>>>, AllocError>
    ensures { IfOk result (λ sources. map vec_len sources.items ≡ map vec_len code.now) }
{
    let mut reading = Reading::new(alloc, text_in(bytes))?;
    let mut sources = Vec::new(alloc);
    for places in code {
        sources.push(reading.sources_of(alloc, places)?)?;
    }
    Ok(sources)
}

/// The places of one actor's lines, as texts.
fn texts_of(alloc: Global, lines: &[Option<CodeSource>]) -> Result<Vec<String>, AllocError> {
    let mut texts = Vec::new(alloc);
    for line in lines {
        texts.push(match line {
            Some(source) => format!(in alloc; "{source}")?,
            None => String::new(alloc),
        })?;
    }
    Ok(texts)
}

/// These places of all actors' lines, as texts; an empty one where a place isn't known. Its error is that an allocation was refused.
pub fn source_texts(
    alloc: Global,
    sources: &[Vec<Option<CodeSource>>],
) -> Result<Vec<Vec<String>>, AllocError> {
    let mut places = Vec::new(alloc);
    for lines in sources {
        places.push(texts_of(alloc, lines)?)?;
    }
    Ok(places)
}

/// Where the lines of the application with this text are in the source that it was translated from, as the comments after them say: for each
/// actor, in order, the place of each line as a text, as `uart.frc:12`; an empty one where the line was written by hand. Its error is that an
/// allocation was refused.
pub fn places_in_source(alloc: Global, text: &[u8]) -> Result<Vec<Vec<String>>, AllocError> {
    let code = places_of_code(alloc, text)?;
    source_texts(alloc, &sources_of_code(alloc, text, &code)?)
}
