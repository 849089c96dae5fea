// Switches: their tests are written once all cases are read, and put before the bodies.

use crate::fault::{Fault, Spot};
use crate::open::{Case, Open};
use crate::program::Range;
use crate::reader::Reader;
use crate::texts::Word;

/// The last number among the cases, if the cases have every number of the range: its test would always hold.
fn last_of_all(cases: &[Case], range: Range) -> Option<i64> {
    let mut count = 0i64;
    let mut last = None;
    for case in cases {
        match case.value {
            Some(value) if range.holds(value) => {
                count = count.saturating_add(1);
                last = Some(value);
            }
            _ => {}
        }
    }
    let width = range.high.checked_sub(range.low)?.checked_add(1)?;
    if count == width { last } else { None }
}

/// The label of the case with this number, or of `default`, if it is there.
fn label_of_case(cases: &[Case], value: Option<i64>) -> Option<usize> {
    for case in cases {
        if case.value == value {
            return Some(case.label);
        }
    }
    None
}

impl Reader {
    /// Reads the head of a switch.
    pub(crate) fn switch_head(&mut self, spot: Spot) {
        self.take("(", "");
        let variable_spot = self.spot();
        let variable = self.variable_named("a variable");
        if self.program.is_shared(variable) {
            let form =
                "'%' is shared, and each 'case' would read it again: copy it to a 'var' and switch on that";
            let name = self.program.variable(variable).name;
            self.refuse_piece(variable_spot, form, name, "");
        }
        self.take(")", ": a switch is on one variable");
        self.take("{", "");
        let end = self.lines.label();
        let first_item = self.lines.body.items.len();
        let first_case = self.here.cases.len();
        self.enter(Open::Switch {
            variable,
            end,
            first_item,
            first_case,
            spot,
        });
    }

    /// Takes a `case` or a `default` with its colon.
    pub(crate) fn case(&mut self) {
        let spot = self.spot();
        let is_case = self.sees("case");
        let Some(Open::Switch { first_case, .. }) = self.here.open.last().copied() else {
            return self.refuse_next("a statement");
        };
        self.advance();
        let mut value = None;
        if is_case {
            value = Some(self.constant());
        }
        self.take(":", "");
        if let Some(cases) = self.here.cases.get(first_case..)
            && label_of_case(cases, value).is_some()
        {
            let (form, number) = match value {
                Some(number) => ("this case % is there already", number),
                None => ("this default is there already", 0),
            };
            self.refuse_with(spot, form, &[Word::Number(number)]);
        }
        let label = self.lines.label_here();
        if self.here.cases.push(Case { value, label, spot }).is_err() {
            self.note(Fault::Memory);
        }
    }

    /// Closes a block or a switch. The tests of a switch are put before its bodies.
    pub(crate) fn close_many(&mut self) {
        let Some(
            Open::Switch {
                variable,
                end,
                first_item,
                first_case,
                spot,
            },
        ) = self.here.open.pop()
        else {
            return;
        };
        let range = self.program.variable(variable).range;
        let Some(cases) = self.here.cases.get(first_case..) else {
            return;
        };
        // A switch goes on where no test holds: at the last number of all, or else at `default`.
        let last = last_of_all(cases, range);
        let rest = label_of_case(cases, last).unwrap_or(end);
        let bodies = self.lines.put_aside(first_item);
        self.lines.write_tests(variable, cases, last);
        self.lines.goto(rest, spot);
        self.lines.take_back(bodies);
        self.here.cases.truncate(first_case);
        self.lines.place(end);
    }
}
