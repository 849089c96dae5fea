// Expressions, read with the precedence of C. What is waiting for its right side is on a list, and no call goes into
// itself: so the depth of brackets costs no stack.

use crate::fault::{Fault, Spot};
use crate::kernel::value_of;
use crate::lines::Condition;
use crate::program::{Arithmetic, Call, Comparison, Operand, Range};
use crate::reader::Reader;
use crate::scope::Meaning;
use crate::texts::Word;
use crate::token::{Kind, Token};
use std::alloc::Global;

/// What an expression is. A condition is named by its place among those of the body.
#[derive(Clone, Copy)]
pub(crate) enum Value {
    Number(i64),
    Variable(usize),
    Null,
    Sum {
        left: Operand,
        sign: Arithmetic,
        right: Operand,
    },
    Any(Range),
    Called(Call),
    /// A variable that an action of the body gives a value: its place among such actions.
    Given {
        variable: usize,
        action: usize,
    },
    Test(usize),
}

/// An expression, and where it is.
#[derive(Clone, Copy)]
pub(crate) struct Term {
    pub(crate) value: Value,
    pub(crate) spot: Spot,
}

impl Term {
    /// The term as one operand of a line.
    pub(crate) fn operand(self) -> Option<Operand> {
        match self.value {
            Value::Number(number) => Some(Operand::Number(number)),
            Value::Variable(variable) => Some(Operand::Variable(variable)),
            _ => None,
        }
    }
}

/// An operator between two terms.
#[derive(Clone, Copy)]
pub(crate) enum Operator {
    Or,
    And,
    Compare(Comparison),
    Arithmetic(Arithmetic),
}

impl Operator {
    /// The operator that the sign is, and its level.
    fn of(sign: &str) -> Option<(Operator, u8)> {
        for (text, level, operator) in &OPERATORS {
            if *text == sign {
                return Some((*operator, *level));
            }
        }
        None
    }
}

/// The signs of all operators. The operator of a greater level binds first.
static OPERATORS: [(&str, u8, Operator); 13] = [
    ("||", 1, Operator::Or),
    ("&&", 2, Operator::And),
    ("==", 3, Operator::Compare(Comparison::Equal)),
    ("!=", 3, Operator::Compare(Comparison::Unequal)),
    ("<", 3, Operator::Compare(Comparison::Less)),
    ("<=", 3, Operator::Compare(Comparison::AtMost)),
    (">", 3, Operator::Compare(Comparison::Greater)),
    (">=", 3, Operator::Compare(Comparison::AtLeast)),
    ("+", 4, Operator::Arithmetic(Arithmetic::Plus)),
    ("-", 4, Operator::Arithmetic(Arithmetic::Minus)),
    ("*", 5, Operator::Arithmetic(Arithmetic::Times)),
    ("/", 5, Operator::Arithmetic(Arithmetic::Divide)),
    ("%", 5, Operator::Arithmetic(Arithmetic::Remainder)),
];

/// What is waiting for what is right of it: an operator, or an open bracket. `Ticks` is that of pdMS_TO_TICKS, and
/// `Given` that of `(x = ..)`.
#[derive(Clone, Copy)]
enum Waiting {
    Infix(Operator, u8, Spot),
    Not(Spot),
    Minus(Spot),
    Bracket,
    Ticks,
    Given { variable: usize, spot: Spot },
}

/// The terms and operators that are read, and not yet joined.
#[derive(Drop)]
struct Yard {
    /// Whether conditions may be among them, and not numbers alone.
    is_of_tests: bool,
    terms: Vec<Term>,
    waiting: Vec<Waiting>,
    /// The number of open brackets and of operators before a term.
    depth: usize,
    /// Whether an allocation was refused, so that something is missing here.
    is_short: bool,
}

impl Yard {
    fn new(alloc: Global, is_of_tests: bool) -> Yard {
        Yard {
            is_of_tests,
            terms: Vec::new(alloc),
            waiting: Vec::new(alloc),
            depth: 0,
            is_short: false,
        }
    }

    fn add(&mut self, term: Term) {
        if self.terms.push(term).is_err() {
            self.is_short = true;
        }
    }

    fn wait(&mut self, waiting: Waiting) {
        if self.waiting.push(waiting).is_err() {
            self.is_short = true;
        }
    }
}

/// The most operators of a statement.
const MOST_OPERATORS: usize = 256;

/// The text of the number below all others of 64 bits, without its sign.
const LEAST: &str = "9223372036854775808";

/// The number that a token is.
fn number_in(text: &str) -> Option<i64> {
    match text.get(2..) {
        Some(digits) if text.starts_with("0x") || text.starts_with("0X") => i64::from_str_radix(
            digits, 16,
        ).ok(),
        _ => text.parse::<i64>().ok(),
    }
}

impl Reader {
    /// The number that the operator makes of two.
    fn worked_out(&mut self, one: i64, sign: Arithmetic, other: i64, spot: Spot) -> i64 {
        let number = match sign {
            Arithmetic::Plus => one.checked_add(other),
            Arithmetic::Minus => one.checked_sub(other),
            Arithmetic::Times => one.checked_mul(other),
            Arithmetic::Divide => one.checked_div(other),
            Arithmetic::Remainder => one.checked_rem(other),
        };
        match number {
            Some(number) => number,
            None => {
                let text = match other {
                    0 => "division by zero",
                    _ => "this doesn't fit in 64 bits",
                };
                self.refuse(spot, text);
                0
            }
        }
    }

    /// Two terms, joined by an operator on numbers: worked out, where both are numbers.
    pub(crate) fn binary(&mut self, left: Term, sign: Arithmetic, right: Term, spot: Spot) -> Term {
        let value = match (left.operand(), right.operand()) {
            (Some(Operand::Number(one)), Some(Operand::Number(other))) => {
                let number = self.worked_out(one, sign, other, spot);
                return Term {
                    value: Value::Number(number),
                    spot: left.spot,
                };
            }
            (Some(left), Some(right)) => Value::Sum { left, sign, right },
            (first, _) => {
                let spot = if first.is_some() {
                    right.spot
                } else {
                    left.spot
                };
                let text =
                    "one line has one operator at most: give a part of this to a variable first";
                self.refuse(spot, text);
                Value::Null
            }
        };
        Term { value, spot }
    }

    /// Reads an expression.
    pub(crate) fn expression(&mut self) -> Term {
        let mut yard = Yard::new(self.alloc, true);
        for _ in 0..=self.left() {
            if self.prefix(&mut yard) {
                continue;
            }
            let term = self.operand();
            if self.ends_after(&mut yard, term) {
                break;
            }
        }
        self.finished(&mut yard)
    }

    /// Reads an expression of numbers, and of a variable. `expected` is what may stand there.
    fn arithmetic(&mut self, expected: &str) -> Term {
        let mut yard = Yard::new(self.alloc, false);
        for _ in 0..=self.left() {
            if self.prefix(&mut yard) {
                continue;
            }
            let term = self.plain_operand(expected);
            if self.ends_after(&mut yard, term) {
                break;
            }
        }
        self.finished(&mut yard)
    }

    /// Keeps a term, with what is after it. Answers whether the expression ends there.
    fn ends_after(&mut self, yard: &mut Yard, term: Term) -> bool {
        yard.add(term);
        self.settle(yard);
        !self.assignment(yard) && self.infix(yard)
    }

    /// Takes an operator before a term, or an opening bracket, if it is next. Whether it took one.
    fn prefix(&mut self, yard: &mut Yard) -> bool {
        let spot = self.spot();
        let waiting = match self.text(self.token()) {
            "!" if yard.is_of_tests => Waiting::Not(spot),
            "-" if !self.is(self.following(), LEAST) => Waiting::Minus(spot),
            "(" => Waiting::Bracket,
            "pdMS_TO_TICKS" => Waiting::Ticks,
            _ => return false,
        };
        self.advance();
        if matches!(waiting, Waiting::Ticks) {
            self.take("(", "");
        }
        yard.wait(waiting);
        yard.depth = yard.depth.saturating_add(1);
        let depth = self.here.open.len().saturating_add(yard.depth);
        self.check_depth(depth, spot);
        true
    }

    /// Takes an operand: a call, `any(..)`, `NULL` or a plain one.
    fn operand(&mut self) -> Term {
        let token = self.token();
        let (is_any, is_null) = (self.sees("any"), self.sees("NULL"));
        if !is_any && !is_null && !self.is_before("(") {
            return self.plain_operand("a variable, a number or a call");
        }
        self.advance();
        let spot = token.spot;
        let value = if is_any {
            self.take("(", " and two numbers, as in 'any(0, 1)'");
            let range = self.numbers(",", "", "there is no number from % to %");
            self.take(")", "");
            Value::Any(range)
        } else if is_null {
            Value::Null
        } else if let Some(Meaning::Function(_)) = self.meaning(token) {
            let form = "'%' is a function and answers nothing: let it set a variable";
            self.refuse_token(token, form, "");
            Value::Null
        } else {
            match self.kernel_call(token) {
                Some(call) => Value::Called(call),
                None => Value::Null,
            }
        };
        Term { value, spot }
    }

    /// Takes a number, a constant or a variable. `expected` is what may stand there.
    fn plain_operand(&mut self, expected: &str) -> Term {
        let token = self.token();
        let spot = token.spot;
        let value = match token.kind {
            Kind::Number => match number_in(self.text(token)) {
                Some(number) => Value::Number(number),
                None => {
                    let form = "% doesn't fit in 64 bits";
                    self.refuse_token(token, form, "");
                    Value::Null
                }
            },
            Kind::Word => self.named_operand(token),
            _ if self.sees("-") => {
                self.advance();
                Value::Number(i64::MIN)
            }
            _ => {
                self.refuse_next(expected);
                Value::Null
            }
        };
        self.advance();
        Term { value, spot }
    }

    /// What the name of a constant or a variable is.
    fn named_operand(&mut self, token: Token) -> Value {
        if let Some(number) = value_of(self.text(token)) {
            return Value::Number(number);
        }
        match self.meaning(token) {
            Some(Meaning::Constant(number)) => return Value::Number(number),
            Some(Meaning::Variable(variable)) => return Value::Variable(variable),
            Some(meaning) => {
                let form = "'%' is the name of %, and a variable or a number is expected";
                self.refuse_token(token, form, meaning.text());
            }
            None if self.is(token, "NULL") || self.is(token, "portMAX_DELAY") => {
                self.refuse_next("a variable or a number");
            }
            None => self.refuse_undeclared(token),
        }
        Value::Null
    }

    /// Joins what the last term completes: the operators before it, and the brackets that close after it.
    fn settle(&mut self, yard: &mut Yard) {
        for _ in 0..=yard.waiting.len() {
            if !matches!(
                yard.waiting.last(),
                Some(Waiting::Not(_) | Waiting::Minus(_))
            ) {
                // An operator before a term is joined as soon as the term is there: so what is left is an open bracket.
                if yard.depth == 0 || !self.sees(")") {
                    break;
                }
                self.join(yard, 0);
                self.advance();
            }
            yard.depth = yard.depth.saturating_sub(1);
            let (Some(waiting), Some(term)) = (yard.waiting.pop(), yard.terms.pop()) else {
                break;
            };
            let term = self.completed(waiting, term);
            yard.add(term);
        }
    }

    /// What an operator before a term makes of it, or the bracket around it.
    fn completed(&mut self, waiting: Waiting, term: Term) -> Term {
        match waiting {
            Waiting::Not(spot) => {
                let part = self.test_of(term);
                let value = Value::Test(self.lines.test(Condition::Not(part), spot));
                Term { value, spot }
            }
            Waiting::Minus(spot) => {
                let value = Value::Number(0);
                self.binary(Term { value, spot }, Arithmetic::Minus, term, spot)
            }
            Waiting::Ticks => self.ticks(term),
            Waiting::Given { variable, spot } => self.given(variable, spot, term),
            Waiting::Bracket | Waiting::Infix(..) => term,
        }
    }

    /// The ticks of so many milliseconds.
    fn ticks(&mut self, term: Term) -> Term {
        let Term { value, spot } = term;
        let rate = self.scope.meaning(&self.pieces, "configTICK_RATE_HZ");
        let text = match (rate, value) {
            (Some(Meaning::Constant(rate)), Value::Number(time)) => match time.checked_mul(rate) {
                Some(product) => {
                    let value = Value::Number(product.div_euclid(1000));
                    return Term { value, spot };
                }
                None => "this doesn't fit in 64 bits",
            },
            (Some(Meaning::Constant(_)), _) => "expected a number or a constant",
            _ => "pdMS_TO_TICKS needs 'const configTICK_RATE_HZ = ..;' above",
        };
        self.refuse(spot, text);
        term
    }

    /// Takes the `=` of `(x = ..)`, if it is next and only `(x` is before it. Whether it took one.
    fn assignment(&mut self, yard: &mut Yard) -> bool {
        if !yard.is_of_tests
            || !self.sees("=")
            || !matches!(yard.waiting.last(), Some(Waiting::Bracket))
        {
            return false;
        }
        let Some(
            Term {
                value: Value::Variable(variable),
                spot,
            },
        ) = yard.terms.last().copied()
        else {
            return false;
        };
        self.advance();
        let _ = yard.terms.pop();
        let _ = yard.waiting.pop();
        yard.wait(Waiting::Given { variable, spot });
        true
    }

    /// Takes an operator between two terms, if it is next. Answers whether none is.
    fn infix(&mut self, yard: &mut Yard) -> bool {
        let token = self.token();
        let spot = token.spot;
        let Some((operator, level)) = Operator::of(self.text(token)) else {
            return true;
        };
        if level < 4 && !yard.is_of_tests {
            return true;
        }
        self.advance();
        self.here.operators = self.here.operators.saturating_add(1);
        if self.here.operators > MOST_OPERATORS {
            let text = "more than 256 operators in one statement";
            self.refuse(spot, text);
        }
        // No comparison is joined by another one.
        let is_comparison = matches!(operator, Operator::Compare(_));
        self.join(yard, level.saturating_add(u8::from(is_comparison)));
        if is_comparison
            && matches!(
                yard.waiting.last(),
                Some(Waiting::Infix(Operator::Compare(_), ..))
            )
        {
            let text = "a comparison of a comparison: join two with '&&'";
            self.refuse(spot, text);
        }
        yard.wait(Waiting::Infix(operator, level, spot));
        false
    }

    /// Joins terms by the operators of this level and above, up to the innermost open bracket.
    fn join(&mut self, yard: &mut Yard, level: u8) {
        for _ in 0..yard.waiting.len() {
            let Some(Waiting::Infix(operator, own_level, spot)) = yard.waiting.last().copied()
            else {
                break;
            };
            if own_level < level {
                break;
            }
            let _ = yard.waiting.pop();
            let (Some(right), Some(left)) = (yard.terms.pop(), yard.terms.pop()) else {
                break;
            };
            let term = self.joined(left, operator, right, spot);
            yard.add(term);
        }
    }

    /// Two terms, joined by an operator.
    fn joined(&mut self, left: Term, operator: Operator, right: Term, spot: Spot) -> Term {
        let test = match operator {
            Operator::Arithmetic(sign) => return self.binary(left, sign, right, spot),
            Operator::Compare(comparison) => self.compare(left, comparison, right, spot),
            Operator::And | Operator::Or => {
                let first = self.test_of(left);
                let second = self.test_of(right);
                let condition = match operator {
                    Operator::And => Condition::And(first, second),
                    _ => Condition::Or(first, second),
                };
                self.lines.test(condition, spot)
            }
        };
        let value = Value::Test(test);
        Term { value, spot }
    }

    /// The one term that all is joined to.
    fn finished(&mut self, yard: &mut Yard) -> Term {
        self.join(yard, 0);
        if yard.is_short {
            self.note(Fault::Memory);
        }
        match (yard.waiting.is_empty(), yard.terms.pop()) {
            (true, Some(term)) => term,
            _ => {
                self.refuse_next("')'");
                Term {
                    value: Value::Null,
                    spot: self.spot(),
                }
            }
        }
    }

    /// Reads a number, or an expression that is one.
    pub(crate) fn constant(&mut self) -> i64 {
        let term = self.arithmetic("a number or a constant");
        match term.value {
            Value::Number(number) => number,
            _ => {
                let text = if self.here.call.is_some() {
                    "expected a number or a constant: a time or a length is never a variable, so write a call for each value"
                } else {
                    "expected a number or a constant"
                };
                self.refuse(term.spot, text);
                0
            }
        }
    }

    /// Reads a number from `low` to `high`.
    pub(crate) fn number(&mut self, what: &str, range: Range) -> i64 {
        let spot = self.spot();
        let number = self.constant();
        if !range.holds(number) {
            let words = &[
                Word::Text(what),
                Word::Number(range.low),
                Word::Number(range.high),
                Word::Number(number),
            ];
            self.refuse_with(spot, "% is from % to %, and this is %", words);
        }
        number
    }

    /// Reads a number or a variable.
    pub(crate) fn number_or_variable(&mut self) -> Operand {
        let term = self.arithmetic("a number or a variable");
        match term.operand() {
            Some(operand) => operand,
            None => {
                self.refuse(term.spot, "expected a number or a variable");
                Operand::Number(0)
            }
        }
    }
}
