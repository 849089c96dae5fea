// Places in a text by line and column, and a line with a mark below it.
use crate::lines::Lines;
use crate::shown::Shown;

/// The most bytes of a line that are shown before a mark.
const MOST_BEFORE: usize = 60;

/// The most bytes of a line that are shown behind a mark.
const MOST_BEHIND: usize = 40;

/// The line and the column of the byte with this number, from 1, or those of the end of the text.
pub(crate) fn position_at(text: &[u8], offset: usize) -> (usize, usize) {
    let (front, _) = text.split_at(offset.min(text.len()));
    let before = front.rsplit(|byte| *byte == b'\n').next().unwrap_or(front);
    let lines = front.iter().filter(|byte| **byte == b'\n').count();
    (lines.saturating_add(1), before.len().saturating_add(1))
}

/// Appends this line and column of a text, from 1, with what is wrong there, and the line with a mark. A byte order mark before it and a
/// carriage return at its end are left out.
pub(crate) fn push_position(
    out: &mut Lines,
    text: &[u8],
    (line, column): (usize, usize),
    fault: &str,
) {
    let mut lines = text.split(|byte| *byte == b'\n');
    let whole = lines.nth(line.saturating_sub(1)).unwrap_or(b"");
    let whole = whole.strip_suffix(b"\r").unwrap_or(whole);
    let (before, behind) = whole.split_at(column.saturating_sub(1).min(whole.len()));
    let before = before.strip_prefix(b"\xef\xbb\xbf").unwrap_or(before);
    let column = before.len().saturating_add(1);
    out.say(format_args!("line {line}, column {column}: {fault}"));
    push_marked(out, before, behind);
}

/// Appends the line of a place and, below it, a mark under the place.
pub(crate) fn push_marked(out: &mut Lines, before: &[u8], behind: &[u8]) {
    let (_, before) = before.split_at(before.len().saturating_sub(MOST_BEFORE));
    let (behind, _) = behind.split_at(behind.len().min(MOST_BEHIND));
    write!(out, "{}", Shown(before));
    let width = out.width();
    out.say(Shown(behind));
    out.say(format_args!("{:width$}^", ""));
}
