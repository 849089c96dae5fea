// Declarations: constants, variables, objects, functions, tasks and interrupts.

use crate::fault::{Fault, Spot};
use crate::kernel::DECLARATIONS;
use crate::lines::Lines;
use crate::near::{OF_C, hint_for, near_among};
use crate::program::{
    Action, Actor, Home, MOST_VARIABLES, Object, ObjectKind, Owner, Program, Range, Variable,
};
use crate::reader::Reader;
use crate::scope::Meaning;
use crate::texts::{Pieces, Word};
use crate::token::{Kind, Token};
use std::alloc::Global;
use std::mem;

/// The most objects of an application.
const MOST_OBJECTS: usize = 64;

/// The most actors of an application.
const MOST_ACTORS: usize = 32;

/// The most names outside the actors and functions.
const MOST_NAMES: usize = 1024;

/// The sizes that an object may have.
const SIZES: Range = Range {
    low: 1,
    high: 65_535,
};

/// What the word that begins a declaration declares.
#[derive(Clone, Copy)]
enum Declared {
    Constant,
    Shared,
    Actor(Home),
    Function,
    Object(ObjectKind),
    Nothing,
}

impl Declared {
    fn of(word: &str) -> Declared {
        match word {
            "const" => Declared::Constant,
            "shared" => Declared::Shared,
            "task" => Declared::Actor(Home::Task),
            "interrupt" => Declared::Actor(Home::Interrupt),
            "function" => Declared::Function,
            _ => match ObjectKind::of(word) {
                Some(kind) => Declared::Object(kind),
                None => Declared::Nothing,
            },
        }
    }
}

/// What the source declares, by its pieces and its tokens.
pub(crate) fn program_in(
    alloc: Global,
    pieces: Pieces,
    tokens: Vec<Token>,
    end: Token,
) -> Result<Program, Fault> {
    let mut reader = Reader::new(alloc, pieces, tokens, end);
    reader.declarations();
    reader.outcome()
}

impl Reader {
    /// Refuses a word that begins no declaration.
    fn refuse_declaration(&mut self, word: Token) {
        let text = self.text(word);
        let what =
            "expected a declaration, which begins with one of const, shared, task, interrupt, function, queue, \
            binary, counting, mutex, recursive, stream, message; found '";
        let (form, more) = match near_among(&DECLARATIONS, text) {
            Some(near) => ("%%'. Did you mean '%'?", near),
            None => ("%%'%", hint_for(&OF_C, text).unwrap_or("")),
        };
        let words = &[Word::Text(what), Word::Piece(word.span), Word::Text(more)];
        self.refuse_with(word.spot, form, words);
    }

    /// Refuses one more of what there may be at most so many.
    pub(crate) fn check_count(&mut self, what: &str, count: usize, most: usize, spot: Spot) {
        if count >= most {
            let form = "there may be at most % %, and this is one more";
            let words = &[Word::Count(most), Word::Text(what)];
            self.refuse_with(spot, form, words);
        }
    }

    /// Reads all declarations.
    fn declarations(&mut self) {
        for _ in 0..=self.left() {
            if matches!(self.token().kind, Kind::End) {
                break;
            }
            self.declaration();
        }
        self.check_templates();
        if self.program.actors.is_empty() {
            self.refuse_next("a task or an interrupt: there is none");
        }
    }

    /// What is read, or the first fault.
    fn outcome(&mut self) -> Result<Program, Fault> {
        if self.scope.is_short {
            return Err(Fault::Memory);
        }
        match self.fault.take() {
            Some(fault) => Err(fault),
            None => {
                let none = Pieces::none(self.alloc);
                self.program.pieces = mem::replace(&mut self.pieces, none);
                Ok(mem::replace(&mut self.program, Program::new(self.alloc)))
            }
        }
    }

    /// Reads a declaration.
    fn declaration(&mut self) {
        self.here.operators = 0;
        let word = self.word("a declaration");
        if self.scope.outside.len() >= MOST_NAMES {
            self.refuse(word.spot, "more than 1024 names are declared");
        }
        match Declared::of(self.text(word)) {
            Declared::Constant => {
                let name = self.new_name("the name of a constant");
                self.take("=", "");
                let number = self.constant();
                self.scope.add_outside(name.span, Meaning::Constant(number));
                self.take(";", " after the declaration");
            }
            Declared::Shared => self.variable_declaration(Owner::Everyone, false),
            Declared::Actor(home) => self.actor(home),
            Declared::Function => self.function(),
            Declared::Object(kind) => self.object(kind),
            Declared::Nothing => self.refuse_declaration(word),
        }
    }

    /// Reads the least and the greatest number of a range, with `..` between them.
    fn range(&mut self) -> Range {
        self.numbers("..", " and the greatest value", "the range %..% is empty")
    }

    /// Reads two numbers with a sign between them. `why` continues the message where it is missing, and `form` says that
    /// the first number is greater.
    pub(crate) fn numbers(&mut self, sign: &str, why: &str, form: &str) -> Range {
        let low = self.constant();
        self.take(sign, why);
        let spot = self.spot();
        let high = self.constant();
        if low > high {
            let words = &[Word::Number(low), Word::Number(high)];
            self.refuse_with(spot, form, words);
        }
        Range { low, high }
    }

    /// Reads a variable, without the words before its name.
    fn variable_declaration(&mut self, owner: Owner, is_static: bool) {
        let name = self.new_name("the name of a variable");
        self.take("in", " and a range, as in 'in 0..8'");
        let range = self.range();
        let may_begin = is_static
            || matches!(owner, Owner::Everyone)
            || matches!(self.here.home, Home::Task);
        let first = self.first_value(range, may_begin);
        self.take(";", " after the declaration");
        let function = match owner {
            Owner::Function(_) => Some(self.here.name),
            _ => None,
        };
        let variable = Variable {
            name: name.span,
            spot: name.spot,
            range,
            first,
            owner,
            is_static,
            function,
        };
        let place = self.add_variable(variable);
        match owner {
            Owner::Everyone => self.scope.add_outside(name.span, Meaning::Variable(place)),
            _ => self.scope.add_inside(name.span, Meaning::Variable(place)),
        }
    }

    /// Takes the first value of a variable, if there is one.
    fn first_value(&mut self, range: Range, may_begin: bool) -> i64 {
        let spot = self.spot();
        let is_given = self.accepts("=");
        let first = if is_given { self.constant() } else { 0 };
        if is_given && !may_begin {
            let form =
                "a variable of this % keeps its value: write 'static var' for one that is set at the start alone, \
                or assign it below";
            self.refuse_about(spot, form, self.here.home.text());
        }
        if range.holds(first) {
            return first;
        }
        let form = if is_given {
            "% isn't in %..%"
        } else if may_begin {
            "expected '=' and the first value: % isn't in %..%"
        } else {
            "this variable begins at 0: let its range include 0, or write 'static var' with '=' and a first value: \
            % isn't in %..%"
        };
        let words = &[
            Word::Number(first),
            Word::Number(range.low),
            Word::Number(range.high),
        ];
        self.refuse_with(spot, form, words);
        first
    }

    /// Adds a variable of the application, or one of a function: each actor that calls it gets its own.
    pub(crate) fn add_variable(&mut self, variable: Variable) -> usize {
        let is_of_function = matches!(variable.owner, Owner::Function(_));
        let count = if is_of_function {
            self.lines.body.variables.len()
        } else {
            self.program.written.len()
        };
        self.check_count("variables", count, MOST_VARIABLES, variable.spot);
        let place = self.program.variables.len();
        let is_noted = if is_of_function {
            self.lines.body.variables.push(place).is_ok()
        } else {
            self.program.written.push(place).is_ok()
        };
        if !is_noted || self.program.variables.push(variable).is_err() {
            self.note(Fault::Memory);
        }
        place
    }

    /// Reads an object, without the word of its kind.
    fn object(&mut self, kind: ObjectKind) {
        let name = self.new_name("the name of an object");
        let place = self.program.objects.len();
        self.check_count("objects", place, MOST_OBJECTS, name.spot);
        let mut object = Object {
            name: name.span,
            kind,
            size: None,
            items: None,
            first: None,
            is_live: true,
        };
        self.sizes(&mut object);
        if self.accepts("=") {
            object.is_live = false;
            self.take("NULL", ": an object that isn't there at the start");
        }
        self.take(";", " after the declaration");
        if self.program.objects.push(object).is_err() {
            self.note(Fault::Memory);
        }
        self.scope.add_outside(name.span, Meaning::Object(place));
    }

    /// Takes the size of an object, the range of its items and its first count, where its kind has them.
    fn sizes(&mut self, object: &mut Object) {
        if matches!(
            object.kind,
            ObjectKind::Binary | ObjectKind::Mutex | ObjectKind::Recursive
        ) {
            return;
        }
        self.take("[", " and the size");
        let high = self.number("the size", SIZES);
        self.take("]", "");
        object.size = Some(high);
        if matches!(object.kind, ObjectKind::Queue) {
            self.take("of", " and a range, as in 'of 0..9'");
            object.items = Some(self.range());
        } else if matches!(object.kind, ObjectKind::Counting) {
            self.take("first", " and the first count, as in 'first 0'");
            object.first = Some(self.number("the first count", Range { low: 0, high }));
        }
    }

    /// Reads a function: its name means something only after it.
    fn function(&mut self) {
        let name = self.new_name("the name of a function");
        self.take("(", " and ')' after the name of a function");
        self.take(")", ": a function has no arguments");
        let place = self.program.bodies.len();
        self.body(Home::Function, name, Owner::Function(place), None);
        self.scope.add_outside(name.span, Meaning::Function(place));
    }

    /// Reads a task or an interrupt, with a body of its own or made of a body with parameters. Or notes such a body.
    fn actor(&mut self, kind: Home) {
        let what = match kind {
            Home::Task => "the name of a task",
            _ => "the name of an interrupt",
        };
        let name = self.new_name(what);
        let parameter = self.following();
        if self.sees("(") && !self.is(parameter, ")") {
            if self.is(parameter, "void") {
                let text = "leave out '(void *p)': there are no types";
                self.refuse(parameter.spot, text);
            }
            return self.template(kind, name);
        }
        let count = self.program.actors.len();
        self.check_count("actors", count, MOST_ACTORS, name.spot);
        if self.accepts("=") {
            self.made_actor(kind, name)
        } else {
            self.actor_here(kind, name, &[])
        }
    }

    /// Reads an actor whose parameters, if it has any, and body are next.
    pub(crate) fn actor_here(&mut self, kind: Home, name: Token, values: &[Meaning]) {
        let (meaning, last) = match kind {
            Home::Task => (Meaning::Task, Action::End),
            _ => (Meaning::Interrupt, Action::Return),
        };
        let number = self.program.actors.len();
        self.scope.add_outside(name.span, meaning);
        if !values.is_empty() {
            self.give(values);
        }
        let body = self.program.bodies.len();
        let end = self.body(kind, name, Owner::Actor(number), Some(last));
        let actor = Actor {
            name: name.span,
            kind,
            body,
            end,
        };
        if self.program.actors.push(actor).is_err() {
            self.note(Fault::Memory);
        }
    }

    /// Reads a body, keeps it with a last line after it, and gives the place of its closing brace.
    fn body(&mut self, home: Home, name: Token, owner: Owner, last: Option<Action>) -> Spot {
        self.here.home = home;
        self.here.name = name.span;
        self.here.labels.clear();
        self.take("{", "");
        for _ in 0..self.left() {
            let is_static = self.accepts("static");
            if !is_static && !self.sees("var") {
                break;
            }
            self.here.operators = 0;
            self.take("var", "");
            self.variable_declaration(owner, is_static);
        }
        let end = self.statements();
        self.check_labels();
        self.scope.inside.clear();
        self.lines.place(0);
        if let Some(action) = last {
            self.lines.line(action, None, end);
        }
        let Lines { body, is_short, .. } = mem::replace(&mut self.lines, Lines::new(self.alloc));
        if is_short || self.program.bodies.push(body).is_err() {
            self.note(Fault::Memory);
        }
        end
    }
}
