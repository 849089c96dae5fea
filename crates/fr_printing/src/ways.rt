// How an answer is to be printed.
use fr_request::Format;

/// How an answer is to be printed.
#[derive(Clone, Copy)]
pub struct PrintWays<'a> {
    /// The form; None where it is a text for a person.
    pub format: Option<Format>,
    /// The file for the page, where one is wanted.
    pub html: Option<&'a str>,
    /// Whether the text says where a text is refused.
    pub explains: bool,
    /// Whether it says so of a word that is the name of nothing, in any case.
    pub words: bool,
    /// Whether the page's file is named where it can't be written.
    pub names: bool,
}
