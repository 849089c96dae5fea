// Conditions: what an expression says, where a statement asks whether it is true.

use crate::expression::{Term, Value};
use crate::fault::Spot;
use crate::kernel::Answer;
use crate::lines::Condition;
use crate::program::{Call, Comparison, Operand, Owner, Variable};
use crate::reader::Reader;
use crate::texts::Word;

impl Reader {
    /// Refuses a call that doesn't answer whether it worked.
    fn check_fails(&mut self, call: Call, spot: Spot) {
        let kernel = call.kernel.row();
        if kernel.may_fail() {
            return;
        }
        let form = match kernel.answer {
            Answer::Bytes =>
                "% doesn't answer whether it worked: write (n = ..) > 0, where n is a variable",
            _ => "% doesn't answer whether it worked",
        };
        self.refuse_about(spot, form, kernel.name);
    }

    /// The operand that is a side of a comparison.
    fn side(&mut self, term: Term) -> Operand {
        if let Value::Called(call) = term.value {
            self.check_fails(call, term.spot);
        }
        match term.operand() {
            Some(operand) => operand,
            None => {
                let text = "a side of a comparison is a number or a variable";
                self.refuse(term.spot, text);
                Operand::Number(0)
            }
        }
    }

    /// Reads a condition in brackets, and gives its place among those of the body.
    pub(crate) fn condition(&mut self) -> usize {
        self.take("(", "");
        let term = self.expression();
        let test = self.test_of(term);
        let spot = self.spot();
        let sign = self.text(self.token());
        let after = self.text(self.following());
        let why = match (sign, after) {
            ("=", ">") => "'=>' in a condition: write '>='",
            ("=", _) => "'=' in a condition: write '=='",
            ("++" | "--", _) =>
                "a condition changes nothing: write '++' or '--' as a statement of its own",
            _ => "",
        };
        if !why.is_empty() {
            self.refuse(spot, why);
        }
        self.take(")", "");
        test
    }

    /// The place of the condition that a term is.
    pub(crate) fn test_of(&mut self, term: Term) -> usize {
        let Term { value, spot } = term;
        let condition = match value {
            Value::Test(test) => return test,
            Value::Number(number) => Condition::Always(number != 0),
            Value::Variable(variable) => Condition::Compare {
                before: None,
                left: Operand::Variable(variable),
                comparison: Comparison::Unequal,
                right: Operand::Number(0),
            },
            Value::Called(call) => {
                self.check_fails(call, spot);
                Condition::Works(call)
            }
            Value::Given { .. } | Value::Any(_) | Value::Null | Value::Sum { .. } => {
                let why = match value {
                    Value::Given { .. } =>
                        "an assignment as a condition: compare it, as in (n = ..) != 0, or write '=='",
                    Value::Any(_) => "expected a condition: give any(..) to a variable first",
                    _ => "expected a condition",
                };
                self.refuse(spot, why);
                return 0;
            }
        };
        self.lines.test(condition, spot)
    }

    /// The condition that two terms compare so.
    pub(crate) fn compare(
        &mut self,
        left: Term,
        comparison: Comparison,
        right: Term,
        spot: Spot,
    ) -> usize {
        let is_turned = matches!(right.value, Value::Called(_) | Value::Given { .. })
            && !matches!(left.value, Value::Called(_) | Value::Given { .. });
        let (left, comparison, right) = if is_turned {
            (right, comparison.turned(), left)
        } else {
            (left, comparison, right)
        };
        match left.value {
            Value::Called(call) => self.compare_answer(call, comparison, right, left.spot),
            Value::Given { variable, action } => {
                let Variable { name, owner, .. } = self.program.variable(variable);
                if matches!(owner, Owner::Everyone) {
                    let form = "'%' is shared: give this to a 'var'";
                    self.refuse_piece(left.spot, form, name, "");
                }
                let value = Value::Variable(variable);
                let left = Term { value, ..left };
                self.compare_sides(Some(action), left, comparison, right, spot)
            }
            _ => self.compare_sides(None, left, comparison, right, spot),
        }
    }

    /// The condition that a call answers so.
    fn compare_answer(
        &mut self,
        call: Call,
        comparison: Comparison,
        right: Term,
        spot: Spot,
    ) -> usize {
        self.check_fails(call, spot);
        let kernel = call.kernel.row();
        let is_handle = matches!(kernel.answer, Answer::Handle);
        let worked = match (right.value, is_handle) {
            (Value::Null, true) | (Value::Number(0), false) => Some(false),
            (Value::Number(1), false) => Some(true),
            _ => None,
        };
        let is_works = match (comparison, worked) {
            (Comparison::Equal, Some(worked)) => worked,
            (Comparison::Unequal, Some(worked)) => !worked,
            _ => {
                let form = if is_handle {
                    "the answer of % is compared by '==' or '!=' with NULL"
                } else {
                    "the answer of % is compared by '==' or '!=' with pdTRUE, pdPASS, pdFALSE or pdFAIL"
                };
                self.refuse_about(right.spot, form, kernel.name);
                true
            }
        };
        let test = self.lines.test(Condition::Works(call), spot);
        if is_works {
            test
        } else {
            self.lines.test(Condition::Not(test), spot)
        }
    }

    /// The condition that two operands compare so.
    fn compare_sides(
        &mut self,
        before: Option<usize>,
        left: Term,
        comparison: Comparison,
        right: Term,
        spot: Spot,
    ) -> usize {
        let left = self.side(left);
        let right = self.side(right);
        let mut condition = Condition::Compare {
            before,
            left,
            comparison,
            right,
        };
        match (left, right) {
            (Operand::Number(one), Operand::Number(other)) => {
                condition = Condition::Always(comparison.holds(one, other));
            }
            (Operand::Variable(one), Operand::Variable(other)) => self.check_two(one, other, spot),
            _ => {}
        }
        self.lines.test(condition, spot)
    }

    /// Refuses to compare a variable with itself, and two shared ones.
    fn check_two(&mut self, one: usize, other: usize, spot: Spot) {
        let first = self.program.variable(one);
        let second = self.program.variable(other);
        let form = if one == other {
            "'%' can't be both sides of a comparison"
        } else if self.program.is_shared(one) && self.program.is_shared(other) {
            "this reads '%' and '%', which are shared, in one step: copy one to a 'var' first"
        } else {
            return;
        };
        let words = &[Word::Piece(first.name), Word::Piece(second.name)];
        self.refuse_with(spot, form, words);
    }
}
