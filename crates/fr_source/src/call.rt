// Calls of the kernel with their arguments.

use crate::fault::{Fault, Spot};
use crate::kernel::{Kernel, Slot, kernel_named};
use crate::near::{OF_CALLS, hint_for};
use crate::program::{Argument, Call, Home, Object, Operand, Range};
use crate::reader::Reader;
use crate::scope::Meaning;
use crate::texts::Word;
use crate::token::Token;

/// The lengths in bytes that a call may have.
const LENGTHS: Range = Range {
    low: 1,
    high: 65_535,
};

/// The ticks that a call may have.
const TICKS: Range = Range {
    low: 0,
    high: 2_147_483_647,
};

/// What to write in place of a call that no source has, after the quote behind its name.
fn instead_of(name: &str) -> &'static str {
    let is_upper = matches!(name.as_bytes().get(1).copied(), Some(b'A'..=b'Z'));
    let is_of_kernel = is_upper && (name.starts_with("x") || name.starts_with("v"))
        || name.starts_with("ulTask");
    match hint_for(&OF_CALLS, name) {
        Some(hint) => hint,
        None if is_of_kernel => "'",
        None => "': leave it out if it makes no kernel call, and write any(..) for its answer",
    }
}

impl Reader {
    /// Refuses the next token, in whose place something is expected in a call.
    fn refuse_in(&mut self, what: &str, kernel: &Kernel) {
        let Ok(shape) = kernel.shape(self.alloc) else {
            return self.note(Fault::Memory);
        };
        let more = if self.sees(",") {
            "; data pointers and '&woken' are left out"
        } else {
            ""
        };
        self.refuse_for(what, " in ", shape.as_str(), more);
    }

    /// Takes the arguments of the call with this name, and gives the call. A name of another kind is refused.
    pub(crate) fn kernel_call(&mut self, token: Token) -> Option<Call> {
        let Some(kernel) = kernel_named(self.text(token)) else {
            self.refuse_call(token);
            return None;
        };
        if kernel.is_of_interrupts() && matches!(self.here.home, Home::Task) {
            let form = "a task doesn't make the call %, which is for interrupts";
            self.refuse_about(token.spot, form, kernel.name);
        }
        self.here.call = Some(kernel.call);
        self.take("(", "");
        let mut arguments = [Argument::Absent; 3];
        for (place, slot) in kernel.slots.iter().enumerate() {
            if place > 0 && !self.accepts(",") {
                self.refuse_in("','", kernel);
            }
            let argument = self.argument(kernel, *slot, arguments[0]);
            if let Some(at) = arguments.get_mut(place) {
                *at = argument;
            }
        }
        if !self.accepts(")") {
            self.refuse_in("')'", kernel);
        }
        self.here.call = None;
        let call = self.program.call(kernel.call, arguments).ok();
        if call.is_none() {
            self.note(Fault::Memory);
        }
        call
    }

    /// Refuses to give a variable what its range doesn't include. The form has the variable's name, both ranges and `name`.
    pub(crate) fn check_range(
        &mut self,
        variable: usize,
        other: Range,
        form: &str,
        name: &str,
        spot: Spot,
    ) {
        let target = self.program.variable(variable);
        if !target.range.includes(other) {
            let words = &[
                Word::Piece(target.name),
                Word::Number(target.range.low),
                Word::Number(target.range.high),
                Word::Number(other.low),
                Word::Number(other.high),
                Word::Text(name),
            ];
            self.refuse_with(spot, form, words);
        }
    }

    /// Refuses to call a name that is neither a function's nor the kernel's.
    fn refuse_call(&mut self, token: Token) {
        let Token { span, spot, .. } = token;
        let (form, more) = if self.pieces.are_alike(span, self.here.name) {
            (
                "'%' can't call itself: a function is expanded where it is called",
                Word::Text(""),
            )
        } else if let Some(meaning) = self.meaning(token) {
            (
                "'%' is the name of %, and only a function or a call of the kernel is called",
                Word::Text(meaning.text()),
            )
        } else if let Some(near) = self.near(token) {
            (
                "no function above and no kernel call '%'. Did you mean '%'?",
                near,
            )
        } else {
            let hint = Word::Text(instead_of(self.text(token)));
            ("no function above and no kernel call '%%", hint)
        };
        let words = &[Word::Piece(span), more];
        self.refuse_with(spot, form, words);
    }

    /// Takes the argument for a slot. `object` is the first one.
    fn argument(&mut self, kernel: &Kernel, slot: Slot, object: Argument) -> Argument {
        if self.sees(")") {
            self.refuse_in(slot.text(), kernel);
        }
        let is_forever = self.sees("portMAX_DELAY")
            || matches!(self.meaning(self.token()), Some(Meaning::Forever));
        match slot {
            Slot::Object => self.object_argument(kernel),
            Slot::Operand => Argument::Operand(self.number_or_variable()),
            Slot::Variable => self.variable_argument(object),
            Slot::Time if is_forever => {
                self.advance();
                Argument::Forever
            }
            Slot::Length | Slot::Ticks if is_forever => {
                let spot = self.spot();
                let text = "portMAX_DELAY is for block times alone: write a number";
                self.refuse(spot, text);
                Argument::Forever
            }
            Slot::Length | Slot::Time | Slot::Ticks => {
                let range = match slot {
                    Slot::Length => LENGTHS,
                    _ => TICKS,
                };
                Argument::Operand(Operand::Number(self.number(slot.text(), range)))
            }
            Slot::Null => {
                let spot = self.spot();
                if !self.accepts("NULL") {
                    self.refuse(spot, "expected NULL: no line deletes another task");
                }
                Argument::Null
            }
        }
    }

    /// Takes the object of a call.
    fn object_argument(&mut self, kernel: &Kernel) -> Argument {
        let token = self.token();
        let meaning = self.named("the name of an object");
        let Meaning::Object(place) = meaning else {
            self.refuse_meaning(token, "an object", meaning);
            return Argument::Absent;
        };
        if let Some(object) = self.program.objects.get(place)
            && !kernel.is_for(object.kind)
        {
            let words = &[
                Word::Piece(object.name),
                Word::Text(object.kind.text()),
                Word::Text(kernel.name),
                Word::Text(kernel.kinds_text()),
            ];
            self.refuse_with(token.spot, "'%' is a %, and % is for: %", words);
        }
        Argument::Object(place)
    }

    /// Takes the variable that a queue's item goes to.
    fn variable_argument(&mut self, object: Argument) -> Argument {
        let spot = self.spot();
        let place = self.variable_named("the name of a variable");
        if let Argument::Object(queue) = object
            && let Some(queue) = self.program.objects.get(queue)
            && let Some(items) = queue.items
        {
            let form = "the range of '%', %..%, has to include the queue's, %..%";
            self.check_range(place, items, form, "", spot);
        }
        Argument::Operand(Operand::Variable(place))
    }
}
