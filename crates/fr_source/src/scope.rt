// The names that a source declares.

use crate::kernel::kernel_near;
use crate::near::is_near;
use crate::template::Template;
use crate::texts::{Pieces, Span, Word};
use std::alloc::Global;

/// What a name means. A variable, an object, a function or a body with parameters is named by its place among all of
/// them. `Parameter` is one that has no value yet, and `Forever` is one that was given `portMAX_DELAY`.
#[derive(Clone, Copy)]
pub(crate) enum Meaning {
    Constant(i64),
    Variable(usize),
    Object(usize),
    Function(usize),
    Task,
    Interrupt,
    Template(usize),
    Parameter,
    Forever,
}

impl Meaning {
    /// What a message calls it, with its article.
    pub(crate) fn text(self) -> &'static str {
        match self {
            Meaning::Constant(_) => "a constant",
            Meaning::Variable(_) => "a variable",
            Meaning::Object(_) => "an object",
            Meaning::Function(_) => "a function",
            Meaning::Task => "a task",
            Meaning::Interrupt => "an interrupt",
            Meaning::Template(_) => "a body with parameters",
            Meaning::Parameter => "a parameter",
            Meaning::Forever => "portMAX_DELAY",
        }
    }
}

#[derive(Clone, Copy)]
pub(crate) struct Name {
    span: Span,
    meaning: Meaning,
}

/// What the text means among some names.
fn meaning_among(pieces: &Pieces, names: &[Name], text: &str) -> Option<Meaning> {
    for name in names {
        if pieces.is(name.span, text) {
            return Some(name.meaning);
        }
    }
    None
}

/// The first of some names that a word is near to.
fn near_among(pieces: &Pieces, names: &[Name], word: &str) -> Option<Span> {
    for name in names {
        if is_near(word, pieces.text(name.span)) {
            return Some(name.span);
        }
    }
    None
}

/// The names outside, and those of the actor or function that is read.
#[derive(Drop)]
pub(crate) struct Scope {
    pub(crate) outside: Vec<Name>,
    pub(crate) inside: Vec<Name>,
    /// The bodies with parameters.
    pub(crate) templates: Vec<Template>,
    /// Whether an allocation was refused, so that a name is missing.
    pub(crate) is_short: bool,
}

impl Scope {
    pub(crate) fn new(alloc: Global) -> Scope {
        Scope {
            outside: Vec::new(alloc),
            inside: Vec::new(alloc),
            templates: Vec::new(alloc),
            is_short: false,
        }
    }

    /// What the text means here.
    pub(crate) fn meaning(&self, pieces: &Pieces, text: &str) -> Option<Meaning> {
        let inside = meaning_among(pieces, &self.inside, text);
        inside.or(meaning_among(pieces, &self.outside, text))
    }

    /// A name or a call of the kernel that a word is near to.
    pub(crate) fn near(&self, pieces: &Pieces, word: &str) -> Option<Word<'static>> {
        let inside = near_among(pieces, &self.inside, word);
        match inside.or(near_among(pieces, &self.outside, word)) {
            Some(name) => Some(Word::Piece(name)),
            None => kernel_near(word),
        }
    }

    pub(crate) fn add_outside(&mut self, span: Span, meaning: Meaning) {
        if self.outside.push(Name { span, meaning }).is_err() {
            self.is_short = true;
        }
    }

    pub(crate) fn add_inside(&mut self, span: Span, meaning: Meaning) {
        if self.inside.push(Name { span, meaning }).is_err() {
            self.is_short = true;
        }
    }
}
