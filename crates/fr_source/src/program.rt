// What a source says, once it is read: its variables and objects, and the bodies of its actors and functions.

ghost use Rattle.std.specs.Prelude.{◌≡◌, Some};
ghost use Rattle.fr_source.specs.Steps.{is_everyones, is_shared, is_shared_operand, looks};
ghost use Rattle.fr_source.specs.Kept.{inverse, turned};

use crate::fault::Spot;
use crate::kernel::KernelCall;
use crate::texts::{Pieces, Span};
use std::alloc::{AllocError, Global};

/// The most variables of an application.
pub(crate) const MOST_VARIABLES: usize = 64;

/// The most lines, labels and calls of functions of a body, and of an actor with all its functions, before it is tidied.
pub(crate) const MOST_ITEMS: usize = 4096;

/// The numbers from `low` to `high`.
#[derive(Clone, Copy)]
pub(crate) struct Range {
    pub(crate) low: i64,
    pub(crate) high: i64,
}

impl Range {
    pub(crate) fn holds(self, number: i64) -> bool {
        self.low <= number && number <= self.high
    }

    /// Whether every number of another range is in this one.
    pub(crate) fn includes(self, other: Range) -> bool {
        self.low <= other.low && other.high <= self.high
    }
}

/// Who may use a variable: every actor, the actor with this number, or each actor that calls the function of this body,
/// as a variable of its own.
#[derive(Clone, Copy)]
pub(crate) enum Owner {
    Everyone,
    Actor(usize),
    Function(usize),
}

#[derive(Clone, Copy)]
pub(crate) struct Variable {
    pub(crate) name: Span,
    pub(crate) spot: Spot,
    pub(crate) range: Range,
    pub(crate) first: i64,
    pub(crate) owner: Owner,
    pub(crate) is_static: bool,
    /// The name of the function that declares it.
    pub(crate) function: Option<Span>,
}

#[derive(Clone, Copy)]
pub(crate) enum ObjectKind {
    Queue,
    Binary,
    Counting,
    Mutex,
    Recursive,
    Stream,
    Message,
}

impl ObjectKind {
    /// The kind that the word declares.
    pub(crate) fn of(word: &str) -> Option<ObjectKind> {
        match word {
            "queue" => Some(ObjectKind::Queue),
            "binary" => Some(ObjectKind::Binary),
            "counting" => Some(ObjectKind::Counting),
            "mutex" => Some(ObjectKind::Mutex),
            "recursive" => Some(ObjectKind::Recursive),
            "stream" => Some(ObjectKind::Stream),
            "message" => Some(ObjectKind::Message),
            _ => None,
        }
    }

    pub(crate) fn text(self) -> &'static str {
        match self {
            ObjectKind::Queue => "queue",
            ObjectKind::Binary => "binary",
            ObjectKind::Counting => "counting",
            ObjectKind::Mutex => "mutex",
            ObjectKind::Recursive => "recursive",
            ObjectKind::Stream => "stream",
            ObjectKind::Message => "message",
        }
    }
}

#[derive(Clone, Copy)]
pub(crate) struct Object {
    pub(crate) name: Span,
    pub(crate) kind: ObjectKind,
    /// How many items, counts or bytes it has room for, where its kind has a size.
    pub(crate) size: Option<i64>,
    /// What a queue's items may be.
    pub(crate) items: Option<Range>,
    /// The first count of a counting semaphore.
    pub(crate) first: Option<i64>,
    pub(crate) is_live: bool,
}

/// A variable, by its place among all variables, or a number.
#[derive(Clone, Copy)]
pub(crate) enum Operand {
    Number(i64),
    Variable(usize),
}

#[derive(Clone, Copy)]
pub(crate) enum Comparison {
    Equal,
    Unequal,
    Less,
    AtMost,
    Greater,
    AtLeast,
}

impl Comparison {
    /// The comparison that holds where this one doesn't.
    pub(crate) fn inverse(self) -> Comparison
        ensures { result ≡ inverse self }
    {
        match self {
            Comparison::Equal => Comparison::Unequal,
            Comparison::Unequal => Comparison::Equal,
            Comparison::Less => Comparison::AtLeast,
            Comparison::AtMost => Comparison::Greater,
            Comparison::Greater => Comparison::AtMost,
            Comparison::AtLeast => Comparison::Less,
        }
    }

    /// The comparison that says the same with its sides exchanged.
    pub(crate) fn turned(self) -> Comparison {
        match self {
            Comparison::Equal | Comparison::Unequal => self,
            Comparison::Less => Comparison::Greater,
            Comparison::AtMost => Comparison::AtLeast,
            Comparison::Greater => Comparison::Less,
            Comparison::AtLeast => Comparison::AtMost,
        }
    }

    pub(crate) fn holds(self, left: i64, right: i64) -> bool {
        match self {
            Comparison::Equal => left == right,
            Comparison::Unequal => left != right,
            Comparison::Less => left < right,
            Comparison::AtMost => left <= right,
            Comparison::Greater => left > right,
            Comparison::AtLeast => left >= right,
        }
    }

    pub(crate) fn text(self) -> &'static str {
        match self {
            Comparison::Equal => "==",
            Comparison::Unequal => "!=",
            Comparison::Less => "<",
            Comparison::AtMost => "<=",
            Comparison::Greater => ">",
            Comparison::AtLeast => ">=",
        }
    }
}

/// An operator between two numbers.
#[derive(Clone, Copy)]
pub(crate) enum Arithmetic {
    Plus,
    Minus,
    Times,
    Divide,
    Remainder,
}

impl Arithmetic {
    pub(crate) fn text(self) -> &'static str {
        match self {
            Arithmetic::Plus => "+",
            Arithmetic::Minus => "-",
            Arithmetic::Times => "*",
            Arithmetic::Divide => "/",
            Arithmetic::Remainder => "%",
        }
    }
}

/// What is in an argument's place of a call.
#[derive(Clone, Copy)]
pub(crate) enum Argument {
    Absent,
    Object(usize),
    Operand(Operand),
    Forever,
    Null,
}

/// A call of the kernel. `arguments` is the place of its arguments among those of all calls.
#[derive(Clone, Copy)]
pub(crate) struct Call {
    pub(crate) kernel: KernelCall,
    pub(crate) arguments: usize,
}

/// What a line of the application does. Where an `If`, a `Goto` or a failed call goes is kept beside it. `End` is the
/// end of a task: no line of the application.
#[derive(Clone, Copy)]
pub(crate) enum Action {
    Set {
        variable: usize,
        left: Operand,
        more: Option<(Arithmetic, Operand)>,
    },
    Pick {
        variable: usize,
        range: Range,
    },
    Call {
        answer: Option<usize>,
        call: Call,
    },
    If {
        left: Operand,
        comparison: Comparison,
        right: Operand,
    },
    Goto,
    Return,
    End,
}

impl Action {
    /// The action, and of an `if` the one that asks for the opposite.
    pub(crate) fn turned(self) -> Action
        ensures { result ≡ turned self }
    {
        match self {
            Action::If {
                left,
                comparison,
                right,
            } => Action::If {
                left,
                comparison: comparison.inverse(),
                right,
            },
            _ => self,
        }
    }
}

/// A piece of a body, in order: a line with the label it may go to, the place of a label, or a call of a function.
#[derive(Clone, Copy)]
pub(crate) enum Item {
    Line {
        action: Action,
        to: Option<usize>,
        spot: Spot,
    },
    Label(usize),
    Expand {
        function: usize,
        spot: Spot,
    },
}

/// The body of an actor or a function. Its labels are numbered from 0; label 0 is its end.
#[derive(Drop)]
pub(crate) struct Body {
    pub(crate) items: Vec<Item>,
    pub(crate) labels: usize,
    /// The variables that it declares.
    pub(crate) variables: Vec<usize>,
}

impl Body {
    pub(crate) fn new(alloc: Global) -> Body {
        Body {
            items: Vec::new(alloc),
            labels: 1,
            variables: Vec::new(alloc),
        }
    }
}

/// Whose a body is. An actor is a task or an interrupt.
#[derive(Clone, Copy)]
pub(crate) enum Home {
    Task,
    Interrupt,
    Function,
}

impl Home {
    pub(crate) fn text(self) -> &'static str {
        match self {
            Home::Task => "task",
            Home::Interrupt => "interrupt",
            Home::Function => "function",
        }
    }
}

/// A task or an interrupt, with the place of its body among all bodies and where it ends in the source.
#[derive(Clone, Copy)]
pub(crate) struct Actor {
    pub(crate) name: Span,
    pub(crate) kind: Home,
    pub(crate) body: usize,
    pub(crate) end: Spot,
}

/// All that a source declares. Names are pieces of the source. Variables of functions are among `variables`, and each actor that
/// calls the function has its own copy of them: `written` has the variables of the application, in order.
#[derive(Drop)]
pub(crate) struct Program {
    pub(crate) pieces: Pieces,
    pub(crate) variables: Vec<Variable>,
    pub(crate) written: Vec<usize>,
    pub(crate) objects: Vec<Object>,
    pub(crate) actors: Vec<Actor>,
    pub(crate) bodies: Vec<Body>,
    arguments: Vec<[Argument; 3]>,
}

impl Program {
    pub(crate) fn new(alloc: Global) -> Program {
        Program {
            pieces: Pieces::none(alloc),
            variables: Vec::new(alloc),
            written: Vec::new(alloc),
            objects: Vec::new(alloc),
            actors: Vec::new(alloc),
            bodies: Vec::new(alloc),
            arguments: Vec::new(alloc),
        }
    }

    /// The call with these arguments.
    pub(crate) fn call(
        &mut self,
        kernel: KernelCall,
        arguments: [Argument; 3],
    ) -> Result<Call, AllocError> {
        let place = self.arguments.len();
        self.arguments.push(arguments)?;
        Ok(Call {
            kernel,
            arguments: place,
        })
    }

    /// The arguments of a call.
    pub(crate) fn arguments(&self, call: Call) -> [Argument; 3] {
        match self.arguments.get(call.arguments) {
            Some(arguments) => *arguments,
            None => [Argument::Absent; 3],
        }
    }

    /// The item with this place of a body.
    pub(crate) fn item(&self, body: usize, place: usize) -> Option<Item> {
        match self.bodies.get(body) {
            Some(body) => body.items.get(place).copied(),
            None => None,
        }
    }

    /// The variable that a body declares in this place.
    pub(crate) fn declared(&self, body: usize, place: usize) -> Option<usize> {
        match self.bodies.get(body) {
            Some(body) => body.variables.get(place).copied(),
            None => None,
        }
    }

    /// The variable in this place. There is always one.
    pub(crate) fn variable(&self, place: usize) -> Variable {
        match self.variables.get(place) {
            Some(variable) => *variable,
            None => Variable {
                name: Span::NONE,
                spot: Spot { line: 1, column: 1 },
                range: Range { low: 0, high: 0 },
                first: 0,
                owner: Owner::Everyone,
                is_static: false,
                function: None,
            },
        }
    }

    pub(crate) fn is_shared(&self, place: usize) -> bool
        ensures { result ≡ is_shared self.now.variables.items place }
    {
        match self.variables.get(place) {
            Some(variable) => matches!(variable.owner, Owner::Everyone),
            None => false,
        }
    }

    /// The shared variable that an operand is.
    pub(crate) fn shared_in(&self, operand: Operand) -> Option<usize> {
        match operand {
            Operand::Variable(variable) if self.is_shared(variable) => Some(variable),
            _ => None,
        }
    }

    /// Whether one of the operands of an `if` is a shared variable.
    pub(crate) fn looks_at_shared(&self, left: Operand, right: Operand) -> bool
        ensures { result ≡ looks self.now.variables.items left right }
    {
        self.is_shared_operand(left) || self.is_shared_operand(right)
    }

    fn is_shared_operand(&self, operand: Operand) -> bool
        ensures { result ≡ is_shared_operand self.now.variables.items operand }
    {
        match operand {
            Operand::Number(_) => false,
            Operand::Variable(variable) => self.is_shared(variable),
        }
    }

    /// The name that is this piece of the source.
    pub(crate) fn text(&self, name: Span) -> &str {
        self.pieces.text(name)
    }

    /// The name of the actor with this number.
    pub(crate) fn actor_name(&self, number: usize) -> &str {
        match self.actors.get(number) {
            Some(actor) => self.text(actor.name),
            None => "",
        }
    }
}
