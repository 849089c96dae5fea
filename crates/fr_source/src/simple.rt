// Simple statements: assignments and calls. Each is one line, but for a call whose answer is kept, a call of a function
// and `configASSERT`.

use crate::expression::{Term, Value};
use crate::fault::Spot;
use crate::kernel::Answer;
use crate::program::{Action, Argument, Arithmetic, Call, Item, Operand, Owner, Range, Variable};
use crate::reader::Reader;
use crate::scope::Meaning;
use crate::texts::{ASSERTION, Word};
use crate::token::Token;

/// What `++` and `--` change a variable by.
const ONE: Term = Term {
    value: Value::Number(1),
    spot: Spot { line: 1, column: 1 },
};

/// The operator of an assignment that changes a variable, and whether it changes it by one.
fn change_of(sign: &str) -> Option<(Arithmetic, bool)> {
    match sign {
        "++" => Some((Arithmetic::Plus, true)),
        "--" => Some((Arithmetic::Minus, true)),
        "+=" => Some((Arithmetic::Plus, false)),
        "-=" => Some((Arithmetic::Minus, false)),
        "*=" => Some((Arithmetic::Times, false)),
        _ => None,
    }
}

impl Reader {
    /// Takes a simple statement, and writes its lines.
    pub(crate) fn simple(&mut self) {
        let token = self.token();
        if !self.sees("any") && self.is_before("(") {
            return self.called(token);
        }
        match change_of(self.text(token)) {
            Some((sign, true)) => {
                self.advance();
                let variable = self.variable_named("a variable");
                self.changed(variable, token.spot, (sign, token.spot), ONE);
            }
            _ if self.sees("(") => {
                let text = "a statement doesn't begin with '(': leave out a cast like '(void)'";
                self.refuse(token.spot, text);
            }
            _ => self.assignment_here(token.spot),
        }
    }

    /// Takes a variable, and what it is given or how it is changed.
    fn assignment_here(&mut self, spot: Spot) {
        let token = self.token();
        if self.is_before("=") && matches!(self.meaning(token), Some(Meaning::Object(_))) {
            let form =
                "expected the name of a variable, and '%' is the name of an object; a call that makes it has it in \
                brackets: xSemaphoreCreateMutex(m)";
            self.refuse_token(token, form, "");
        }
        let variable = self.variable_named("a statement");
        if self.accepts("=") {
            let term = self.expression();
            return self.assigned(variable, spot, term);
        }
        let operator = self.token();
        let Some((sign, is_by_one)) = change_of(self.text(operator)) else {
            let what = "'=', '+=', '-=', '*=', '++' or '--'";
            return self.refuse_next(what);
        };
        self.advance();
        let by = if is_by_one { ONE } else { self.expression() };
        self.changed(variable, spot, (sign, operator.spot), by);
    }

    /// Joins a variable with a term. `spot` is the place of the statement, and `operator` has its own.
    fn changed(&mut self, variable: usize, spot: Spot, operator: (Arithmetic, Spot), by: Term) {
        let (sign, operator_spot) = operator;
        let whole = Term {
            value: Value::Variable(variable),
            spot,
        };
        let term = self.binary(whole, sign, by, operator_spot);
        self.assigned(variable, spot, term);
    }

    /// Takes what is after the name of what is called.
    fn called(&mut self, token: Token) {
        let spot = token.spot;
        self.advance();
        if self.is(token, "configASSERT") {
            let test = self.condition();
            let variable = self.assertion_variable(spot);
            self.lines.assert(variable, test, spot);
        } else if let Some(Meaning::Function(function)) = self.meaning(token) {
            self.take("(", "");
            self.take(")", ": a function has no arguments");
            self.lines.add(Item::Expand { function, spot });
        } else if let Some(call) = self.kernel_call(token) {
            let action = Action::Call { answer: None, call };
            self.lines.line(action, None, spot);
        }
    }

    /// The variable that `configASSERT` sets where its condition is false: its range is 0 alone.
    fn assertion_variable(&mut self, spot: Spot) -> usize {
        if let Some(variable) = self.here.assertion {
            return variable;
        }
        if self.scope.meaning(&self.pieces, ASSERTION).is_some() {
            let text = "configASSERT makes the variable 'assertion', and that name is used";
            self.refuse(spot, text);
        }
        let name = self.pieces.assertion;
        let variable = Variable {
            name,
            spot,
            range: Range { low: 0, high: 0 },
            first: 0,
            owner: Owner::Everyone,
            is_static: false,
            function: None,
        };
        let place = self.add_variable(variable);
        self.scope.add_outside(name, Meaning::Variable(place));
        self.here.assertion = Some(place);
        place
    }

    /// Gives a variable this value.
    fn assigned(&mut self, variable: usize, spot: Spot, term: Term) {
        match term.value {
            Value::Any(range) => self.picked(variable, range, spot, term.spot),
            Value::Called(call) => self.answered(variable, call, spot, term.spot),
            Value::Sum { left, sign, right } => {
                self.check_sum(left, sign, right, term.spot);
                self.set_to(variable, spot, left, Some((sign, right)));
            }
            Value::Number(number) => self.set_to(variable, spot, Operand::Number(number), None),
            Value::Variable(other) => self.set_to(variable, spot, Operand::Variable(other), None),
            Value::Null | Value::Test(_) | Value::Given { .. } => {
                let why = match term.value {
                    Value::Null => "NULL is no number, and a variable has a number: write 0",
                    Value::Test(_) => "a condition is no value: write 'if (..) x = 1; else x = 0;'",
                    _ =>
                        "one line has one operator at most: give a part of this to a variable first",
                };
                self.refuse(term.spot, why);
            }
        }
    }

    /// The variable of `(x = ..)`, with the action that gives it a value.
    pub(crate) fn given(&mut self, variable: usize, spot: Spot, term: Term) -> Term {
        self.assigned(variable, spot, term);
        let Some(action) = self.lines.take_giver() else {
            let text =
                "in a condition, only any(..) or the bytes of a call are given to a variable";
            self.refuse(spot, text);
            return term;
        };
        let value = Value::Given { variable, action };
        Term { value, spot }
    }

    /// Gives a variable a number of an `any`. Refuses numbers that the variable can't have.
    fn picked(&mut self, variable: usize, range: Range, spot: Spot, any_spot: Spot) {
        let target = self.program.variable(variable);
        if !target.range.includes(range) {
            let words = &[
                Word::Number(range.low),
                Word::Number(range.high),
                Word::Piece(target.name),
                Word::Number(target.range.low),
                Word::Number(target.range.high),
            ];
            let form = "% to % isn't in the range of '%', %..%";
            self.refuse_with(any_spot, form, words);
        }
        let action = Action::Pick { variable, range };
        self.lines.line(action, None, spot);
    }

    /// Gives a variable the answer of a call. Refuses an answer that the variable can't have.
    fn answered(&mut self, variable: usize, call: Call, spot: Spot, call_spot: Spot) {
        let kernel = call.kernel.row();
        let name = kernel.name;
        let high = match (kernel.answer, self.program.arguments(call)) {
            (Answer::Nothing, _) => {
                let form = "% answers nothing";
                return self.refuse_about(call_spot, form, name);
            }
            (Answer::Bytes, [_, Argument::Operand(Operand::Number(length)), _]) => length,
            _ => 1,
        };
        let form = "the range of '%', %..%, has to include %..%, which % can answer";
        self.check_range(variable, Range { low: 0, high }, form, name, spot);
        if kernel.may_fail() {
            return self.lines.keep(variable, call, spot);
        }
        let answer = Some(variable);
        let action = Action::Call { answer, call };
        self.lines.line(action, None, spot);
    }

    /// Refuses what a line can't work out.
    fn check_sum(&mut self, left: Operand, sign: Arithmetic, right: Operand, spot: Spot) {
        if matches!(sign, Arithmetic::Divide | Arithmetic::Remainder) {
            let form = "'%' is for constants alone";
            self.refuse_about(spot, form, sign.text());
        }
        let (Operand::Variable(one), Operand::Variable(other)) = (left, right) else {
            return;
        };
        if one == other {
            let form = "'%' can't be both operands: copy it to another variable";
            let name = self.program.variable(one).name;
            self.refuse_piece(spot, form, name, "");
        }
        if matches!(sign, Arithmetic::Times) {
            self.refuse(spot, "at least one operand of '*' is a number");
        }
    }

    /// Writes the line that sets a variable. Refuses one that has two shared variables.
    fn set_to(
        &mut self,
        variable: usize,
        spot: Spot,
        left: Operand,
        more: Option<(Arithmetic, Operand)>,
    ) {
        let first = self.program.shared_in(left);
        let second = match more {
            Some((_, right)) => self.program.shared_in(right),
            None => None,
        };
        let (form, one, other) = match (self.program.is_shared(variable), first, second) {
            (true, Some(read), _) | (true, None, Some(read)) => (
                "this reads '%' and writes '%', shared variables: on two cores these are two steps. \
                Write two statements, with a 'var' between",
                read,
                variable,
            ),
            (false, Some(read), Some(other)) => (
                "this reads two shared variables in one step: copy '%' to a 'var' first",
                read,
                other,
            ),
            _ => {
                let set = Action::Set {
                    variable,
                    left,
                    more,
                };
                return self.lines.line(set, None, spot);
            }
        };
        let (one, other) = (self.program.variable(one), self.program.variable(other));
        let words = &[Word::Piece(one.name), Word::Piece(other.name)];
        self.refuse_with(spot, form, words);
    }
}
