// Statements. The constructs whose end isn't read yet are on a list, and no call goes into itself.

use crate::fault::{Fault, Spot};
use crate::kernel::is_reserved;
use crate::open::{Construct, Margin, Open};
use crate::program::{Home, MOST_ITEMS};
use crate::reader::{NamedLabel, Reader};
use crate::texts::Word;
use crate::token::{Kind, Token};

/// What a statement begins with.
#[derive(Clone, Copy)]
enum Beginning {
    Case,
    Open,
    Close,
    Nothing,
    Construct(Construct),
    Other,
}

impl Beginning {
    fn of(word: &str) -> Beginning {
        match word {
            "case" | "default" => Beginning::Case,
            "{" => Beginning::Open,
            "}" => Beginning::Close,
            ";" => Beginning::Nothing,
            _ => match Construct::of(word) {
                Some(construct) => Beginning::Construct(construct),
                None => Beginning::Other,
            },
        }
    }
}

/// A jump, or another word that begins a statement without a body.
#[derive(Clone, Copy)]
enum Jump {
    Break,
    Continue,
    Return,
    Goto,
    Variable,
    Constant,
    Else,
}

impl Jump {
    fn of(word: &str) -> Option<Jump> {
        match word {
            "break" => Some(Jump::Break),
            "continue" => Some(Jump::Continue),
            "return" => Some(Jump::Return),
            "goto" => Some(Jump::Goto),
            "var" | "static" => Some(Jump::Variable),
            "const" => Some(Jump::Constant),
            "else" => Some(Jump::Else),
            _ => None,
        }
    }
}

/// The label that a `break`, or else a `continue`, goes to from inside these constructs.
fn label_to_leave(constructs: &[Open], is_break: bool) -> Option<usize> {
    let mut label = None;
    for open in constructs {
        match *open {
            Open::Loop { labels, .. } | Open::Do { labels, .. } => {
                label = Some(if is_break { labels[2] } else { labels[1] });
            }
            Open::Switch { end, .. } if is_break => label = Some(end),
            _ => {}
        }
    }
    label
}

impl Reader {
    /// Where the body of a construct begins.
    fn margin(&self, construct: Construct) -> Margin {
        let head = self.previous();
        let first = self.token();
        Margin {
            construct,
            indent: first.indent,
            is_plain: self.sees("{") || first.spot.line <= head.spot.line,
        }
    }

    /// Where the body of an `if` or an `else` begins.
    fn branch_margin(&mut self, construct: Construct) -> Margin {
        if self.sees(";") {
            let spot = self.spot();
            let form = "an '%' with nothing but ';': write '{ }' if this is meant";
            self.refuse_about(spot, form, construct.text());
        }
        self.margin(construct)
    }

    /// Refuses what is after a body without braces and looks as if it belonged to it.
    fn check_margin(&mut self, open: Open) {
        let (Open::If { margin, .. }
        | Open::Else { margin, .. }
        | Open::Loop { margin, .. }
        | Open::Do { margin, .. }) = open
        else {
            return;
        };
        let last = self.previous();
        let after = self.token();
        let is_test = matches!(open, Open::Do { .. }) && after.spot.line <= last.spot.line;
        let is_apart = margin.is_plain
            || is_test
            || after.indent < margin.indent
            || self.sees("else")
            || self.sees("}");
        if !is_apart {
            let form =
                "this looks as if it were in the '%' above, and isn't: put braces around its body, \
                or move this to the left";
            self.refuse_about(after.spot, form, margin.construct.text());
        }
    }

    /// Refuses a `goto` to a label that isn't there.
    pub(crate) fn check_labels(&mut self) {
        let mut missing = None;
        for one in &self.here.labels {
            if !one.is_placed {
                missing = Some(*one);
                break;
            }
        }
        if let Some(one) = missing {
            let (form, kind) = ("no label '%' in this %", self.here.home.text());
            self.refuse_piece(one.spot, form, one.name, kind);
        }
    }

    /// Reads statements up to the closing brace of the body, and gives its place.
    pub(crate) fn statements(&mut self) -> Spot {
        for _ in 0..=self.left() {
            let Token { kind, spot, .. } = self.token();
            if matches!(kind, Kind::End) {
                break;
            }
            if self.here.open.is_empty() && self.accepts("}") {
                return spot;
            }
            self.here.operators = 0;
            if self.statement() {
                self.close_all();
            }
            if self.lines.body.items.len() > MOST_ITEMS {
                let form = "% '%' grows to more than 4096 lines and labels: this passed the limit";
                let home = Word::Text(self.here.home.text());
                let words = &[home, Word::Piece(self.here.name)];
                self.refuse_with(spot, form, words);
            }
        }
        self.refuse_next("'}'");
        self.spot()
    }

    /// Reads a statement, or the head of a construct. Answers whether a statement ends here.
    fn statement(&mut self) -> bool {
        let (holds_many, is_before_cases) = match self.here.open.last().copied() {
            Some(Open::Block) => (true, false),
            Some(Open::Switch { first_case, .. }) => (true, self.here.cases.len() <= first_case),
            _ => (false, false),
        };
        match Beginning::of(self.text(self.token())) {
            Beginning::Case => self.case(),
            Beginning::Close if holds_many => {
                self.advance();
                self.close_many();
                return true;
            }
            _ if is_before_cases => self.refuse_next("'case' or 'default'"),
            Beginning::Open => {
                self.advance();
                self.enter(Open::Block);
            }
            Beginning::Nothing => {
                self.advance();
                return true;
            }
            Beginning::Construct(construct) => self.construct(construct),
            // A label belongs to the statement after it.
            _ if self.is_before(":") => self.named_label(),
            _ => {
                self.jump();
                self.take(";", " after the statement");
                return true;
            }
        }
        false
    }

    /// Notes that a construct is open.
    pub(crate) fn enter(&mut self, open: Open) {
        let spot = match open {
            Open::Switch { spot, .. } => spot,
            _ => self.spot(),
        };
        if self.here.open.push(open).is_err() {
            self.note(Fault::Memory);
        }
        let depth = self.here.open.len();
        self.check_depth(depth, spot);
    }

    /// Reads the head of a construct.
    fn construct(&mut self, construct: Construct) {
        let spot = self.spot();
        self.advance();
        match construct {
            Construct::If | Construct::Else => {
                let test = self.condition();
                let (yes, no) = (self.lines.label(), self.lines.label());
                self.lines.branch(test, spot, yes, no, yes);
                self.lines.place(yes);
                let margin = self.branch_margin(Construct::If);
                self.enter(Open::If { no, margin, spot });
            }
            Construct::While => {
                let top = self.lines.label_here();
                let test = self.condition();
                let first = self.lines.body.items.len();
                self.loop_head(Some(test), top, first, Construct::While, spot);
            }
            Construct::Do => {
                let top = self.lines.label_here();
                let labels = [top, self.lines.label(), self.lines.label()];
                let margin = self.margin(Construct::Do);
                self.enter(Open::Do { labels, margin });
            }
            Construct::For => self.for_head(spot),
            Construct::Switch => self.switch_head(spot),
        }
    }

    fn for_head(&mut self, spot: Spot) {
        self.take("(", "");
        if !self.sees(";") {
            self.simple();
        }
        self.take(";", "");
        let top = self.lines.label_here();
        let mut test = None;
        if !self.sees(";") {
            let term = self.expression();
            test = Some(self.test_of(term));
        }
        self.take(";", "");
        let first = self.lines.body.items.len();
        if !self.sees(")") {
            self.simple();
        }
        self.take(")", "");
        self.loop_head(test, top, first, Construct::For, spot);
    }

    /// Writes the test of a loop, and notes that its body comes. `first` is where the lines of its step begin: they are put
    /// aside.
    fn loop_head(
        &mut self,
        test: Option<usize>,
        top: usize,
        first: usize,
        construct: Construct,
        spot: Spot,
    ) {
        let step = self.lines.put_aside(first);
        let (again, end) = self.lines.open_loop(test, spot);
        let labels = [top, again, end];
        let margin = self.margin(construct);
        self.enter(Open::Loop {
            labels,
            step,
            margin,
            spot,
        });
    }

    /// Closes the constructs that the end of a statement ends.
    fn close_all(&mut self) {
        for _ in 0..=self.here.open.len() {
            let open = match self.here.open.last() {
                None | Some(Open::Block | Open::Switch { .. }) => break,
                Some(open) => *open,
            };
            let _ = self.here.open.pop();
            self.check_margin(open);
            if !self.close_one(open) {
                break;
            }
        }
    }

    /// Writes the end of a construct. Answers whether it ends here, and has no `else`.
    fn close_one(&mut self, open: Open) -> bool {
        match open {
            Open::If { no, spot, .. } if self.accepts("else") => {
                let end = self.lines.label();
                self.lines.goto(end, spot);
                self.lines.place(no);
                let margin = self.branch_margin(Construct::Else);
                self.enter(Open::Else { end, margin });
                return false;
            }
            Open::If { no, .. } => self.lines.place(no),
            Open::Else { end, .. } => self.lines.place(end),
            Open::Loop {
                labels,
                step,
                spot,
                ..
            } => self.lines.close_loop(labels, step, spot),
            Open::Do { labels, .. } => {
                if !self.accepts("while") {
                    let what = "'while' and the condition of the 'do' loop";
                    self.refuse_next(what);
                }
                self.here.operators = 0;
                let spot = self.spot();
                let test = self.condition();
                self.take(";", " after the 'do' loop");
                self.lines.close_do(labels, test, spot);
            }
            Open::Block | Open::Switch { .. } => {}
        }
        true
    }

    /// Reads a jump, or else a simple statement.
    fn jump(&mut self) {
        let spot = self.spot();
        let Some(jump) = Jump::of(self.text(self.token())) else {
            return self.simple();
        };
        match jump {
            Jump::Break => self.leave_loop(true, spot),
            Jump::Continue => self.leave_loop(false, spot),
            Jump::Return if matches!(self.here.home, Home::Task) => {
                let text = "a task doesn't return (rule 11): end it with vTaskDelete(NULL)";
                self.refuse(spot, text);
            }
            Jump::Return => {
                self.advance();
                if !self.sees(";") {
                    let why = ": a return has no value";
                    self.refuse_for("'", ";", "'", why);
                }
                self.lines.goto(0, spot);
            }
            Jump::Goto => {
                self.advance();
                let name = self.word("a label");
                let label = self.label_named(name, false);
                self.lines.goto(label, spot);
            }
            Jump::Variable => {
                let form = "variables are declared at the beginning of the %";
                self.refuse_about(spot, form, self.here.home.text());
            }
            Jump::Constant => {
                let why = "constants are declared outside tasks, interrupts and functions";
                self.refuse(spot, why);
            }
            Jump::Else => self.refuse(spot, "'else' without an 'if' above it"),
        }
    }

    /// Takes a `break`, or else a `continue`.
    fn leave_loop(&mut self, is_break: bool, spot: Spot) {
        let Some(label) = label_to_leave(&self.here.open, is_break) else {
            let text = if is_break {
                "'break' outside a loop and a switch"
            } else {
                "'continue' outside a loop"
            };
            return self.refuse(spot, text);
        };
        self.advance();
        self.lines.goto(label, spot);
    }

    /// Takes a label that the source names.
    fn named_label(&mut self) {
        let name = self.token();
        self.advance();
        self.advance();
        if is_reserved(self.text(name)) {
            let form = "'%' is a word of this notation: choose another label";
            self.refuse_token(name, form, "");
        }
        let label = self.label_named(name, true);
        self.lines.place(label);
    }

    /// The label with this name, which is placed here or only named.
    fn label_named(&mut self, name: Token, is_placed: bool) -> usize {
        let Token { span, spot, .. } = name;
        let (mut label, mut is_twice) = (None, false);
        for one in &mut self.here.labels {
            if self.pieces.are_alike(one.name, span) {
                is_twice = one.is_placed && is_placed;
                one.is_placed = one.is_placed || is_placed;
                label = Some(one.label);
                break;
            }
        }
        if is_twice {
            let form = "the label '%' is there already";
            self.refuse_token(name, form, "");
        }
        if let Some(label) = label {
            return label;
        }
        let label = self.lines.label();
        let new = NamedLabel {
            name: span,
            label,
            spot,
            is_placed,
        };
        if self.here.labels.push(new).is_err() {
            self.note(Fault::Memory);
        }
        label
    }
}
