// The constructs of a source whose end isn't read yet.

use crate::fault::Spot;

/// A construct, by the word that it begins with.
#[derive(Clone, Copy)]
pub(crate) enum Construct {
    If,
    Else,
    While,
    Do,
    For,
    Switch,
}

impl Construct {
    /// The construct that begins with a word.
    pub(crate) fn of(word: &str) -> Option<Construct> {
        match word {
            "if" => Some(Construct::If),
            "while" => Some(Construct::While),
            "do" => Some(Construct::Do),
            "for" => Some(Construct::For),
            "switch" => Some(Construct::Switch),
            _ => None,
        }
    }

    pub(crate) fn text(self) -> &'static str {
        match self {
            Construct::If => "if",
            Construct::Else => "else",
            Construct::While => "while",
            Construct::Do => "do",
            Construct::For => "for",
            Construct::Switch => "switch",
        }
    }
}

/// Where the body of a construct begins, so that what is after a body without braces can't look as if it belonged to it.
#[derive(Clone, Copy)]
pub(crate) struct Margin {
    pub(crate) construct: Construct,
    pub(crate) indent: usize,
    /// Whether the body has braces, or begins on the line of its head.
    pub(crate) is_plain: bool,
}

/// A construct whose end isn't read yet, with the labels that are placed or named there.
#[derive(Clone, Copy)]
pub(crate) enum Open {
    Block,
    If {
        no: usize,
        margin: Margin,
        spot: Spot,
    },
    Else {
        end: usize,
        margin: Margin,
    },
    /// A `while` or a `for`. `labels` are those of its test, of its step and of what is after it, and `step` is where the lines of its
    /// step are among those that were put aside.
    Loop {
        labels: [usize; 3],
        step: usize,
        margin: Margin,
        spot: Spot,
    },
    /// `labels` are those of its body, of its test and of what is after it.
    Do {
        labels: [usize; 3],
        margin: Margin,
    },
    /// `first_item` is where its tests belong among the items of the body, `first_case` its first case among all.
    Switch {
        variable: usize,
        end: usize,
        first_item: usize,
        first_case: usize,
        spot: Spot,
    },
}

/// A `case` or a `default` of a switch.
#[derive(Clone, Copy)]
pub(crate) struct Case {
    pub(crate) value: Option<i64>,
    pub(crate) label: usize,
    pub(crate) spot: Spot,
}
