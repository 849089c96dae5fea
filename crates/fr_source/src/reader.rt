// What reads a source: its tokens, the names so far, and the body that is being read. The first fault is noted, and what is read
// after it means nothing.

use crate::fault::{Fault, Spot};
use crate::kernel::{DECLARATIONS, Kernel, KernelCall, TYPES, is_among, is_reserved, kernel_named};
use crate::lines::Lines;
use crate::near::{OF_C, hint_for};
use crate::open::{Case, Open};
use crate::program::{Home, Program};
use crate::scope::{Meaning, Scope};
use crate::texts::{Pieces, Span, Word};
use crate::token::Token;
use std::alloc::Global;

/// The most characters of a name.
const LONGEST_NAME: usize = 32;

/// The most constructs and brackets inside one another.
pub(crate) const DEEPEST: usize = 40;

/// A label that the source names. It may be named before it is there.
#[derive(Clone, Copy)]
pub(crate) struct NamedLabel {
    pub(crate) name: Span,
    pub(crate) label: usize,
    pub(crate) spot: Spot,
    pub(crate) is_placed: bool,
}

/// What is known of the body that is read, beside its lines.
#[derive(Drop)]
pub(crate) struct Here {
    pub(crate) labels: Vec<NamedLabel>,
    /// The constructs whose end isn't read yet, the innermost last, and the cases of the switches among them.
    pub(crate) open: Vec<Open>,
    pub(crate) cases: Vec<Case>,
    /// Whose body is read.
    pub(crate) home: Home,
    /// The name of the actor or function that is read.
    pub(crate) name: Span,
    /// The operators of this statement so far.
    pub(crate) operators: usize,
    /// The variable of `configASSERT`, once there is one.
    pub(crate) assertion: Option<usize>,
    /// The call whose arguments are read.
    pub(crate) call: Option<KernelCall>,
}

#[derive(Drop)]
pub(crate) struct Reader {
    pub(crate) alloc: Global,
    pub(crate) pieces: Pieces,
    pub(crate) tokens: Vec<Token>,
    /// What is after the last token.
    pub(crate) end: Token,
    /// The place of the next token among all tokens.
    pub(crate) next: usize,
    pub(crate) fault: Option<Fault>,
    pub(crate) scope: Scope,
    pub(crate) program: Program,
    pub(crate) here: Here,
    /// The body that is read.
    pub(crate) lines: Lines,
}

/// What is said of a name that isn't declared, where that is known by its text alone.
fn why_undeclared(text: &str) -> Option<&'static str> {
    if kernel_named(text).is_some() {
        Some("'%' is a call: make it a statement of its own, as in 'f(..);' or 'x = f(..);'")
    } else if text == "any" {
        Some("any(..) stands alone after '=': write 'n = any(0, 3);' first, with a variable")
    } else if is_among(text, &TYPES) {
        Some("'%' isn't declared: there are no types, write 'var n in 0..9;'")
    } else if text == "portTICK_PERIOD_MS" {
        Some("'%' isn't declared: write pdMS_TO_TICKS(500) for 500 milliseconds")
    } else if is_among(text, &DECLARATIONS) {
        Some("'%' begins a declaration, which stands outside: is a '}' missing above?")
    } else {
        None
    }
}

impl Reader {
    pub(crate) fn new(alloc: Global, pieces: Pieces, tokens: Vec<Token>, end: Token) -> Reader {
        Reader {
            alloc,
            pieces,
            tokens,
            end,
            next: 0,
            fault: None,
            scope: Scope::new(alloc),
            program: Program::new(alloc),
            lines: Lines::new(alloc),
            here: Here {
                labels: Vec::new(alloc),
                open: Vec::new(alloc),
                cases: Vec::new(alloc),
                home: Home::Function,
                name: Span::NONE,
                operators: 0,
                assertion: None,
                call: None,
            },
        }
    }

    /// Refuses what is too deep: so many constructs and brackets are open.
    pub(crate) fn check_depth(&mut self, depth: usize, spot: Spot) {
        if depth > DEEPEST {
            self.refuse(spot, "nested more than 40 deep");
        }
    }

    /// Refuses a name that means something else than what is expected.
    pub(crate) fn refuse_meaning(&mut self, token: Token, what: &str, meaning: Meaning) {
        let (shown, kind) = (Word::Piece(token.span), Word::Text(meaning.text()));
        let form = "expected the name of %, and '%' is the name of %";
        let words = &[Word::Text(what), shown, kind];
        self.refuse_with(token.spot, form, words);
    }

    /// Refuses an argument that isn't declared, where there are more than the call has.
    fn refuse_surplus(&mut self, token: Token, kernel: &Kernel) {
        let form = "'%' isn't declared: data pointers are left out, as in %";
        let Ok(shape) = kernel.shape(self.alloc) else {
            return self.note(Fault::Memory);
        };
        self.refuse_token(token, form, shape.as_str());
    }

    /// What the text of a token means here.
    pub(crate) fn meaning(&self, token: Token) -> Option<Meaning> {
        self.scope.meaning(&self.pieces, self.text(token))
    }

    /// Takes the name of something new. `what` is what is expected.
    pub(crate) fn new_name(&mut self, what: &str) -> Token {
        let token = self.word(what);
        if is_among(self.text(token), &TYPES) {
            let form = "'%' is a type of C, and there are none here: write the name alone";
            self.refuse_token(token, form, "");
        }
        let text = self.text(token);
        let length = text.len();
        if is_reserved(text) || kernel_named(text).is_some() {
            let form = "'%' is a word of this notation or of the kernel: choose another name";
            self.refuse_token(token, form, "");
        }
        if length > LONGEST_NAME {
            let form = "a name has at most 32 characters, this one %";
            self.refuse_with(token.spot, form, &[Word::Count(length)]);
        }
        if let Some(meaning) = self.meaning(token) {
            let form = "'%' is already the name of %";
            self.refuse_token(token, form, meaning.text());
        }
        token
    }

    /// Takes a name, and gives what it means here. `what` is what is expected.
    pub(crate) fn named(&mut self, what: &str) -> Meaning {
        let token = self.word(what);
        match self.meaning(token) {
            Some(meaning) => meaning,
            None => {
                self.refuse_undeclared(token);
                Meaning::Parameter
            }
        }
    }

    /// Refuses a name that isn't declared.
    pub(crate) fn refuse_undeclared(&mut self, token: Token) {
        if let Some(form) = why_undeclared(self.text(token)) {
            return self.refuse_token(token, form, "");
        }
        if let Some(hint) = hint_for(&OF_C, self.text(token)) {
            return self.refuse_token(token, "'%' isn't declared%", hint);
        }
        match (self.near(token), self.here.call) {
            (Some(near), _) => {
                let words = &[Word::Piece(token.span), near];
                let form = "'%' isn't declared. Did you mean '%'?";
                self.refuse_with(token.spot, form, words);
            }
            (None, Some(call)) if self.is_at_surplus(call.row().slots.len()) => {
                self.refuse_surplus(token, call.row());
            }
            _ => self.refuse_token(token, "'%' isn't declared", ""),
        }
    }

    /// A name or a call of the kernel that the text of a token is near to.
    pub(crate) fn near(&self, token: Token) -> Option<Word<'static>> {
        self.scope.near(&self.pieces, self.text(token))
    }

    /// Takes the name of a variable.
    pub(crate) fn variable_named(&mut self, what: &str) -> usize {
        let token = self.token();
        match self.named(what) {
            Meaning::Variable(variable) => variable,
            meaning => {
                self.refuse_meaning(token, "a variable", meaning);
                0
            }
        }
    }
}
