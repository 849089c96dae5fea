// The bytes of a list of applications, each with its certificate or alone.
ghost use Rattle.std.specs.Prelude.{◌≡◌, ◌<◌, ◌≤◌, ◌↔◌, ℕ, List, map, length, IfOk, IfErr, IsErrOf, IsUtf8};
ghost use Rattle.std.specs.Str.Lines.{lines};
ghost use Rattle.fr_list.specs.declared.listed.ListFault.TheVariants.{Memory};
ghost use Rattle.fr_list.specs.declared.listed.ListFault.{ListFault};
ghost use Rattle.fr_list.specs.Means.{AreFaultless, Entry, IsLineFault, IsPresent, ListMeans, entries_in, shown};

use crate::line::{TooManyWords, entry_in};
use std::alloc::{AllocError, AllocFailed, Global};

/// The most bytes of a list.
pub const MOST_LIST_BYTES: usize = 1_048_576;

/// A line of a list: an application, and its certificate where one is named.
#[derive(Clone, Copy)]
pub struct Listed<'a> {
    pub application: &'a str,
    pub certificate: Option<&'a str>,
}

/// Why a text is no list.
#[derive(Clone, Copy)]
pub enum ListFault {
    /// An allocation was refused.
    Memory,
    /// It has over 1,048,576 bytes.
    TooLong,
    /// It isn't UTF-8.
    NotText,
    /// The line with this number, from 1, has more than two words.
    Words(usize),
    /// It names no application.
    Empty,
}

impl From<AllocError> for ListFault {
    ghost from_gives = { λ _ fault. fault ≡ Memory };

    fn from(_refused: AllocError) -> ListFault {
        ListFault::Memory
    }
}

impl<T: Drop> From<AllocFailed<T>> for ListFault {
    ghost from_gives = { λ _ fault. fault ≡ Memory };

    fn from(_refused: AllocFailed<T>) -> ListFault {
        ListFault::Memory
    }
}

/// What the lines of a text name, in order. Its errors are `Memory`, and `Words` with the first line that has more than
/// two words.
fn entries_along(alloc: Global, text: &str) -> Result<Vec<Listed<'_>>, ListFault>
    ensures few { IfOk result (λ _. AreFaultless (lines text.now)) }
    ensures named { IfOk result (λ entries. map shown entries.items ≡ entries_in (lines text.now)) }
    ensures fault { IfErr result (IsLineFault (lines text.now)) }
{
    let mut entries = Vec::new(alloc);
    for (index, line) in text.lines().enumerate() {
        match entry_in(line) {
            Ok(Some(entry)) => entries.push(entry)?,
            Ok(None) => {}
            Err(TooManyWords) => return Err(ListFault::Words(index + 1)),
        }
    }
    Ok(entries)
}

/// What the bytes of a list name, in order. They are UTF-8, at most 1,048,576 bytes. A line has an application, and
/// behind a blank its certificate, if it isn't to be worked out; blanks are ASCII white space. A word that begins with
/// `#` begins a comment up to the end of the line. The form is this project's own.
///
/// # Errors
///
/// `TooLong` where there are more bytes, and `NotText` where there aren't and they aren't UTF-8. `Words` has the number,
/// from 1, of the first line with more than two words, and `Empty` comes where no line has a word. `Memory` comes only
/// where an allocation was refused.
pub fn listed_in(alloc: Global, bytes: &[u8]) -> Result<Vec<Listed<'_>>, ListFault>
    ensures means { IfOk result (λ entries. ListMeans bytes.now (map shown entries.items)) }
    ensures fault { IfErr result (IsPresent bytes.now) }
    ensures long { IsErrOf result ListFault.TooLong ↔ 1_048_576 < length bytes.now }
    ensures no_text { IsErrOf result ListFault.NotText ↔ (length bytes.now ≤ 1_048_576) × (¬ (IsUtf8 bytes.now)) }
{
    if bytes.len() > MOST_LIST_BYTES {
        return Err(ListFault::TooLong);
    }
    let Ok(text) = str::from_utf8(bytes) else {
        return Err(ListFault::NotText);
    };
    let entries = entries_along(alloc, text)?;
    if entries.is_empty() {
        return Err(ListFault::Empty);
    }
    Ok(entries)
}

/// The bytes of a list have one meaning at the most.
pub fn one_meaning()
    ensures { (bytes : List ℕ) (one other : List Entry) → ListMeans bytes one → ListMeans bytes other → one ≡ other }
{}

/// Bytes in which a fault is present mean no list, but for a refused allocation.
pub fn no_meaning()
    ensures { (bytes : List ℕ) (fault : ListFault) (entries : List Entry) →
        (fault ≡ Memory → ⊥) → IsPresent bytes fault → ListMeans bytes entries → ⊥ }
{}
