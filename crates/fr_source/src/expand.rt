// From a body to the lines of an actor: each call of a function becomes the lines of the function, with labels and
// variables of the actor's own.

ghost use Rattle.std.specs.Prelude.{◌≡◌};
ghost use Rattle.fr_source.specs.Steps.{ends};

use crate::fault::{Fault, Spot, wrong, wrong_about, wrong_with};
use crate::kernel::KernelCall;
use crate::program::{
    Action, Actor, Argument, Call, Item, MOST_ITEMS, MOST_VARIABLES, Operand, Owner, Program,
    Variable,
};
use crate::texts::Word;
use std::alloc::{AllocError, Global};

/// Where a line is in the source. In a function, `call` is the number of the call, among those of the actor.
#[derive(Clone, Copy)]
pub(crate) struct Origin {
    pub(crate) spot: Spot,
    pub(crate) call: Option<usize>,
}

/// A line of an actor. `to` is the number of the line that a goto, an `if` or a failed call goes to.
#[derive(Clone, Copy)]
pub(crate) struct Line {
    pub(crate) action: Action,
    pub(crate) to: Option<usize>,
    pub(crate) place: Origin,
}

impl Line {
    /// Whether no way leads from this line to the next.
    pub(crate) fn ends(self) -> bool
        ensures { result ≡ ends self.action }
    {
        match self.action {
            Action::Goto | Action::Return | Action::End => true,
            Action::Call { call, .. } => matches!(call.kernel, KernelCall::DeleteTask),
            _ => false,
        }
    }
}

/// The lines of an actor, and where its functions are called.
#[derive(Drop)]
pub(crate) struct Code {
    pub(crate) lines: Vec<Line>,
    pub(crate) calls: Vec<Origin>,
}

/// A body that is written out: which item comes next, what its labels are counted from, and its call.
#[derive(Clone, Copy)]
struct Frame {
    body: usize,
    next: usize,
    first_label: usize,
    call: Option<usize>,
}

/// A variable of a function, and the actor's own for it.
#[derive(Clone, Copy)]
struct Own {
    declared: usize,
    copy: usize,
}

/// What writes out the body of an actor.
#[derive(Drop)]
struct Expander {
    alloc: Global,
    actor: Actor,
    number: usize,
    items: usize,
    frames: Vec<Frame>,
    lines: Vec<Line>,
    calls: Vec<Origin>,
    /// The line that each label is before.
    labels: Vec<usize>,
    own: Vec<Own>,
}

impl Expander {
    /// Writes out the body of the actor.
    fn write_out(&mut self, program: &mut Program) -> Result<(), Fault> {
        self.enter(program, self.actor.body, None)?;
        for _ in 0..=MOST_ITEMS * 4 {
            if !self.step(program)? {
                break;
            }
        }
        Ok(())
    }

    /// Begins to write out a body.
    fn enter(&mut self, program: &Program, body: usize, call: Option<usize>) -> Result<(), Fault> {
        let first_label = self.labels.len();
        let count = match program.bodies.get(body) {
            Some(body) => body.labels,
            None => 0,
        };
        for _ in 0..count {
            self.labels.push(0)?;
        }
        self.frames.push(Frame {
            body,
            next: 0,
            first_label,
            call,
        })?;
        Ok(())
    }

    /// Writes out the next item of the innermost body, or leaves that body. Answers whether there is more.
    fn step(&mut self, program: &mut Program) -> Result<bool, Fault> {
        let Some(frame) = self.frames.last().copied() else {
            return Ok(false);
        };
        let Some(item) = program.item(frame.body, frame.next) else {
            let _ = self.frames.pop();
            return Ok(true);
        };
        if let Some(top) = self.frames.last_mut() {
            top.next = frame.next.saturating_add(1);
        }
        self.items = self.items.saturating_add(1);
        if self.items > MOST_ITEMS {
            return Err(self.too_large(program, item, frame.call));
        }
        self.write_item(program, item, frame)?;
        Ok(true)
    }

    /// Writes a line with the actor's own variables, notes the line that a label is before, or begins to write out a
    /// function.
    fn write_item(&mut self, program: &mut Program, item: Item, frame: Frame) -> Result<(), Fault> {
        let (first_label, call) = (frame.first_label, frame.call);
        match item {
            Item::Line { action, to, spot } => {
                let to = match to {
                    Some(label) => Some(label.saturating_add(first_label)),
                    None => None,
                };
                let (action, place) = (self.own_action(program, action)?, Origin { spot, call });
                self.lines.push(Line { action, to, place })?;
            }
            Item::Label(label) => {
                if let Some(slot) = self.labels.get_mut(label.saturating_add(first_label)) {
                    *slot = self.lines.len();
                }
            }
            Item::Expand { function, spot } => {
                self.copy_variables(program, function)?;
                let number = self.calls.len();
                self.calls.push(Origin { spot, call })?;
                self.enter(program, function, Some(number))?;
            }
        }
        Ok(())
    }

    /// Gives the actor its own variables of a function, unless it has them.
    fn copy_variables(&mut self, program: &mut Program, function: usize) -> Result<(), Fault> {
        for place in 0..MOST_VARIABLES {
            let Some(declared) = program.declared(function, place) else {
                break;
            };
            if self.own_variable(declared) == declared {
                self.copy_variable(program, declared)?;
            }
        }
        Ok(())
    }

    /// Refuses a static variable of a second actor, and one more than there may be.
    fn check_copy(&self, program: &Program, variable: Variable) -> Result<(), Fault> {
        let (name, spot) = (Word::Text(program.text(variable.name)), variable.spot);
        if let (true, Owner::Actor(first)) = (variable.is_static, variable.owner) {
            let form =
                "'%' is static, and '%' and '%' call the function: in C they share it. Declare it outside, \
                 as 'shared % in ..;'";
            let first = Word::Text(program.actor_name(first));
            let second = Word::Text(program.text(self.actor.name));
            let words = &[name, first, second, name];
            return Err(wrong_with(self.alloc, spot, form, words));
        }
        if program.written.len() >= MOST_VARIABLES {
            let text =
                "there may be at most 64 variables, and each actor that calls this function has its own: this is one more";
            return Err(wrong(self.alloc, spot, text));
        }
        Ok(())
    }

    /// Gives the actor its own variable for one of a function.
    fn copy_variable(&mut self, program: &mut Program, declared: usize) -> Result<(), Fault> {
        let owner = Owner::Actor(self.number);
        let variable = program.variable(declared);
        self.check_copy(program, variable)?;
        if let Some(slot) = program.variables.get_mut(declared) {
            slot.owner = owner;
        }
        let copy = program.variables.len();
        program.variables.push(Variable { owner, ..variable })?;
        program.written.push(copy)?;
        self.own.push(Own { declared, copy })?;
        Ok(())
    }

    /// The actor's own variable for one of a function; any other variable itself.
    fn own_variable(&self, variable: usize) -> usize {
        for own in &self.own {
            if own.declared == variable {
                return own.copy;
            }
        }
        variable
    }

    fn own_operand(&self, operand: Operand) -> Operand {
        match operand {
            Operand::Variable(variable) => Operand::Variable(self.own_variable(variable)),
            Operand::Number(_) => operand,
        }
    }

    fn own_call(&self, program: &mut Program, call: Call) -> Result<Call, AllocError> {
        let mut arguments = program.arguments(call);
        for argument in &mut arguments {
            if let Argument::Operand(operand) = *argument {
                *argument = Argument::Operand(self.own_operand(operand));
            }
        }
        program.call(call.kernel, arguments)
    }

    /// The action, with the actor's own variables in place of those of functions.
    fn own_action(&self, program: &mut Program, action: Action) -> Result<Action, AllocError> {
        Ok(match action {
            Action::Set {
                variable,
                left,
                more,
            } => Action::Set {
                variable: self.own_variable(variable),
                left: self.own_operand(left),
                more: match more {
                    Some((sign, right)) => Some((sign, self.own_operand(right))),
                    None => None,
                },
            },
            Action::Pick { variable, range } => Action::Pick {
                variable: self.own_variable(variable),
                range,
            },
            Action::Call { answer, call } => Action::Call {
                answer: match answer {
                    Some(variable) => Some(self.own_variable(variable)),
                    None => None,
                },
                call: self.own_call(program, call)?,
            },
            Action::If {
                left,
                comparison,
                right,
            } => Action::If {
                left: self.own_operand(left),
                comparison,
                right: self.own_operand(right),
            },
            Action::Goto | Action::Return | Action::End => action,
        })
    }

    /// The fault that an actor grows too large. A label is told by the line above it.
    fn too_large(&self, program: &Program, item: Item, call: Option<usize>) -> Fault {
        let place = match (item, self.lines.last()) {
            (Item::Line { spot, .. } | Item::Expand { spot, .. }, _) => Origin { spot, call },
            (Item::Label(_), Some(line)) => line.place,
            (Item::Label(_), None) => Origin {
                spot: self.actor.end,
                call: None,
            },
        };
        let spot = outermost(&self.calls, place);
        let form =
            "% '%' grows to more than 4096 lines and labels: this construct passed the limit, and at most 512 lines \
            may be left in the end";
        let name = program.text(self.actor.name);
        wrong_about(self.alloc, spot, form, self.actor.kind.text(), name)
    }
}

/// Lets lines go to the lines that their labels are before.
fn resolve(lines: &mut [Line], labels: &[usize]) {
    for line in lines {
        if let Some(label) = line.to {
            line.to = labels.get(label).copied();
        }
    }
}

/// Where the function is called that a line is of, unless the line is in the actor itself.
pub(crate) fn caller(calls: &[Origin], place: Origin) -> Option<Origin> {
    match place.call {
        Some(call) => calls.get(call).copied(),
        None => None,
    }
}

/// Where a line is in the actor itself: where it calls the function that the line is of.
pub(crate) fn outermost(calls: &[Origin], place: Origin) -> Spot {
    let mut place = place;
    for _ in 0..calls.len() {
        match caller(calls, place) {
            Some(outer) => place = outer,
            None => break,
        }
    }
    place.spot
}

/// The lines of an actor. Its own variables of the functions that it calls are added to the program's.
pub(crate) fn code_of(
    alloc: Global,
    program: &mut Program,
    actor: Actor,
    number: usize,
) -> Result<Code, Fault> {
    let mut expander = Expander {
        alloc,
        actor,
        number,
        items: 0,
        frames: Vec::new(alloc),
        lines: Vec::new(alloc),
        calls: Vec::new(alloc),
        labels: Vec::new(alloc),
        own: Vec::new(alloc),
    };
    expander.write_out(program)?;
    let Expander {
        mut lines,
        calls,
        labels,
        ..
    } = expander;
    resolve(&mut lines, &labels);
    Ok(Code { lines, calls })
}
