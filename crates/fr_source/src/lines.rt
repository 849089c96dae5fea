// The lines of a body, while it is read: a condition becomes the jumps that it stands for. A refused allocation is noted, and
// the body is then not used.

use crate::fault::Spot;
use crate::open::Case;
use crate::program::{Action, Body, Call, Comparison, Item, Operand};
use std::alloc::{AllocError, Global};

/// A condition, with the places of its parts among all conditions of the body.
#[derive(Clone, Copy)]
pub(crate) enum Condition {
    Not(usize),
    And(usize, usize),
    Or(usize, usize),
    /// Whether a call works.
    Works(Call),
    Always(bool),
    /// A comparison, after the action that gives its variable a value, if there is one: its place among such actions.
    Compare {
        before: Option<usize>,
        left: Operand,
        comparison: Comparison,
        right: Operand,
    },
}

#[derive(Clone, Copy)]
struct Test {
    condition: Condition,
    spot: Spot,
}

/// What is left to be written of a condition: goes to `yes` if the one with the place `test` is true, else to `no`. `before` is
/// the label that is placed before that, if there is one, and `after` the one that is placed next, one of these two.
#[derive(Clone, Copy)]
struct Branch {
    before: Option<usize>,
    test: usize,
    spot: Spot,
    yes: usize,
    no: usize,
    after: usize,
}

/// The body that is read, and its conditions.
#[derive(Drop)]
pub(crate) struct Lines {
    alloc: Global,
    pub(crate) body: Body,
    tests: Vec<Test>,
    /// The actions in conditions, which give a variable a value.
    givers: Vec<Action>,
    /// What belongs behind what is read next.
    aside: Vec<Item>,
    /// Whether an allocation was refused, so that something is missing here.
    pub(crate) is_short: bool,
}

/// Moves the items from this place on behind others.
fn move_rest(from: &mut Vec<Item>, place: usize, to: &mut Vec<Item>) -> Result<(), AllocError> {
    let mut rest = from.split_off(place.min(from.len()))?;
    to.append(&mut rest)
}

impl Lines {
    pub(crate) fn new(alloc: Global) -> Lines {
        Lines {
            alloc,
            body: Body::new(alloc),
            tests: Vec::new(alloc),
            givers: Vec::new(alloc),
            aside: Vec::new(alloc),
            is_short: false,
        }
    }

    /// Puts what is written from this place on aside, and gives its place there.
    pub(crate) fn put_aside(&mut self, first: usize) -> usize {
        let place = self.aside.len();
        if move_rest(&mut self.body.items, first, &mut self.aside).is_err() {
            self.is_short = true;
        }
        place
    }

    /// Takes back what was put aside from this place on.
    pub(crate) fn take_back(&mut self, place: usize) {
        if move_rest(&mut self.aside, place, &mut self.body.items).is_err() {
            self.is_short = true;
        }
    }

    /// Takes the last line, if it gives a variable a number of an `any` or the bytes of a call: its action is written with a
    /// condition, and named by its place.
    pub(crate) fn take_giver(&mut self) -> Option<usize> {
        let Some(
            Item::Line {
                action: action @ (Action::Pick { .. } | Action::Call { .. }),
                ..
            },
        ) = self.body.items.pop()
        else {
            return None;
        };
        let place = self.givers.len();
        if self.givers.push(action).is_err() {
            self.is_short = true;
        }
        Some(place)
    }

    /// Puts an item behind the others.
    pub(crate) fn add(&mut self, item: Item) {
        if self.body.items.push(item).is_err() {
            self.is_short = true;
        }
    }

    /// A new label.
    pub(crate) fn label(&mut self) -> usize {
        let label = self.body.labels;
        self.body.labels = label.saturating_add(1);
        label
    }

    /// Puts a label before the next line.
    pub(crate) fn place(&mut self, label: usize) {
        self.add(Item::Label(label));
    }

    /// A new label, put before the next line.
    pub(crate) fn label_here(&mut self) -> usize {
        let label = self.label();
        self.place(label);
        label
    }

    pub(crate) fn line(&mut self, action: Action, to: Option<usize>, spot: Spot) {
        self.add(Item::Line { action, to, spot });
    }

    pub(crate) fn goto(&mut self, label: usize, spot: Spot) {
        self.line(Action::Goto, Some(label), spot);
    }

    /// Sets a variable to this number.
    fn set(&mut self, variable: usize, number: i64, spot: Spot) {
        let action = Action::Set {
            variable,
            left: Operand::Number(number),
            more: None,
        };
        self.line(action, None, spot);
    }

    /// Makes a call, and sets a variable to 1 if it works, else to 0.
    pub(crate) fn keep(&mut self, variable: usize, call: Call, spot: Spot) {
        let failed = self.label();
        let end = self.label();
        self.line(Action::Call { answer: None, call }, Some(failed), spot);
        self.set(variable, 1, spot);
        self.goto(end, spot);
        self.place(failed);
        self.set(variable, 0, spot);
        self.place(end);
    }

    /// Sets a variable to 1 unless a condition is true.
    pub(crate) fn assert(&mut self, variable: usize, test: usize, spot: Spot) {
        let good = self.label();
        let bad = self.label();
        self.branch(test, spot, good, bad, bad);
        self.place(bad);
        self.set(variable, 1, spot);
        self.place(good);
    }

    /// Writes the test of a loop, and gives the labels of its step and of what is after it.
    pub(crate) fn open_loop(&mut self, test: Option<usize>, spot: Spot) -> (usize, usize) {
        let body = self.label();
        let again = self.label();
        let end = self.label();
        if let Some(test) = test {
            self.branch(test, spot, body, end, body);
        }
        self.place(body);
        (again, end)
    }

    /// Writes the step and the end of a loop with these labels.
    pub(crate) fn close_loop(&mut self, labels: [usize; 3], step: usize, spot: Spot) {
        let [top, again, end] = labels;
        self.place(again);
        self.take_back(step);
        self.goto(top, spot);
        self.place(end);
    }

    /// Writes the test of a `do` loop with these labels.
    pub(crate) fn close_do(&mut self, labels: [usize; 3], test: usize, spot: Spot) {
        let [top, again, end] = labels;
        let spot = self.test_spot(test, spot);
        self.place(again);
        self.branch(test, spot, top, end, end);
        self.place(end);
    }

    /// Writes the tests of a switch, one for each number of a case but the last one of all.
    pub(crate) fn write_tests(&mut self, variable: usize, cases: &[Case], last: Option<i64>) {
        for Case { value, label, spot } in cases {
            if let Some(number) = *value
                && *value != last
            {
                let action = Action::If {
                    left: Operand::Variable(variable),
                    comparison: Comparison::Equal,
                    right: Operand::Number(number),
                };
                self.line(action, Some(*label), *spot);
            }
        }
    }

    /// Keeps a condition, and gives its place.
    pub(crate) fn test(&mut self, condition: Condition, spot: Spot) -> usize {
        let place = self.tests.len();
        if self.tests.push(Test { condition, spot }).is_err() {
            self.is_short = true;
        }
        place
    }

    /// Where the condition is in the source.
    pub(crate) fn test_spot(&self, test: usize, other: Spot) -> Spot {
        match self.tests.get(test) {
            Some(test) => test.spot,
            None => other,
        }
    }

    /// Goes to `yes` if the condition is true, else to `no`. The caller places `after` next, one of these two.
    pub(crate) fn branch(&mut self, test: usize, spot: Spot, yes: usize, no: usize, after: usize) {
        // What is left to be written, the next one last.
        let mut left = Vec::new(self.alloc);
        let branch = Branch {
            before: None,
            test,
            spot,
            yes,
            no,
            after,
        };
        self.leave(&mut left, branch);
        for _ in 0..=self.tests.len().saturating_mul(2) {
            let Some(branch) = left.pop() else {
                break;
            };
            if let Some(label) = branch.before {
                self.place(label);
            }
            self.branch_once(&mut left, branch);
        }
    }

    /// Leaves a branch for later, before the others.
    fn leave(&mut self, left: &mut Vec<Branch>, branch: Branch) {
        if left.push(branch).is_err() {
            self.is_short = true;
        }
    }

    /// Writes the line of a condition, or leaves its parts for later.
    fn branch_once(&mut self, rest: &mut Vec<Branch>, branch: Branch) {
        let Some(Test { condition, .. }) = self.tests.get(branch.test).copied() else {
            return;
        };
        let Branch { spot, yes, no, .. } = branch;
        match condition {
            Condition::Not(part) => {
                let opposite = Branch {
                    before: None,
                    test: part,
                    yes: no,
                    no: yes,
                    ..branch
                };
                self.leave(rest, opposite);
            }
            Condition::And(one, other) | Condition::Or(one, other) => {
                let is_and = matches!(condition, Condition::And(..));
                self.branch_twice(rest, branch, (one, other), is_and);
            }
            Condition::Works(call) => {
                let action = Action::Call { answer: None, call };
                self.line(action, Some(no), spot);
                if branch.after != yes {
                    self.goto(yes, spot);
                }
            }
            Condition::Always(holds) => self.goto(if holds { yes } else { no }, spot),
            Condition::Compare {
                before,
                left,
                comparison,
                right,
            } => self.branch_on_comparison(branch, before, left, comparison, right),
        }
    }

    /// Goes to `yes` if the comparison holds, else to `no`: by one line, since one of them is next. The action that gives a
    /// variable a value is before it, if there is one.
    fn branch_on_comparison(
        &mut self,
        branch: Branch,
        before: Option<usize>,
        left: Operand,
        comparison: Comparison,
        right: Operand,
    ) {
        if let Some(place) = before
            && let Some(action) = self.givers.get(place).copied()
        {
            self.line(action, None, branch.spot);
        }
        let (comparison, target) = if branch.after == branch.yes {
            (comparison.inverse(), branch.no)
        } else {
            (comparison, branch.yes)
        };
        let action = Action::If {
            left,
            comparison,
            right,
        };
        self.line(action, Some(target), branch.spot);
    }

    /// Leaves the two parts of a condition for later, with a label between them.
    fn branch_twice(
        &mut self,
        rest: &mut Vec<Branch>,
        branch: Branch,
        parts: (usize, usize),
        is_and: bool,
    ) {
        let (first, second) = parts;
        let middle = self.label();
        let Branch { spot, yes, no, .. } = branch;
        let first_spot = self.test_spot(first, spot);
        let second_spot = self.test_spot(second, spot);
        let (first_yes, first_no) = if is_and { (middle, no) } else { (yes, middle) };
        let then = Branch {
            before: Some(middle),
            test: second,
            spot: second_spot,
            ..branch
        };
        self.leave(rest, then);
        let now = Branch {
            before: None,
            test: first,
            spot: first_spot,
            yes: first_yes,
            no: first_no,
            after: middle,
        };
        self.leave(rest, now);
    }
}
