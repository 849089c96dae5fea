// Takes out jumps that aren't needed, and lines that no way leads to. A jump, and an `if` on an actor's own variables, are
// seen by no other actor. No call and no access to a shared variable goes, comes, or changes its place: what is left is
// compared with the lines before it is taken (`visible`).

ghost use Rattle.std.specs.Prelude.{IfOk};
ghost use Rattle.fr_source.specs.Steps.{ShowsNoLess};

use crate::expand::Line;
use crate::program::{Action, Program};
use crate::visible::{Form, Heir, Kept, tidied_lines};
use std::alloc::{AllocError, Global};

/// What a line is, as far as tidying asks.
#[derive(Clone, Copy)]
enum Shape {
    Goto,
    Return,
    Call,
    /// An `if` on the actor's own variables.
    OwnIf,
    SharedIf,
    /// It sets a variable.
    Write,
    /// The end of a task, or a call by which it deletes itself: no way leads on from there.
    Last,
}

/// Lines that are being tidied.
#[derive(Drop)]
pub(crate) struct Tidying {
    /// What each plain line is.
    shapes: Vec<Shape>,
    kept: Vec<Kept>,
    /// For each plain line, what goes on as it did.
    heirs: Vec<Heir>,
}

/// What a plain line is.
fn shape_of(program: &Program, line: &Line) -> Shape {
    match line.action {
        Action::Goto => Shape::Goto,
        Action::Return => Shape::Return,
        _ if line.ends() => Shape::Last,
        Action::If { left, right, .. } if program.looks_at_shared(left, right) => Shape::SharedIf,
        Action::If { .. } => Shape::OwnIf,
        Action::Call { .. } => Shape::Call,
        _ => Shape::Write,
    }
}

/// The numbers that lines have after some were taken out: that of the next line that is left for one that wasn't.
fn numbers_after(alloc: Global, gone: &[Option<Heir>]) -> Result<Vec<usize>, AllocError> {
    let (mut numbers, mut next) = (Vec::new(alloc), 0usize);
    for heir in gone {
        numbers.push(next)?;
        if heir.is_none() {
            next = next.saturating_add(1);
        }
    }
    numbers.push(next)?;
    Ok(numbers)
}

/// The number of a line after some were taken out, by these numbers.
fn number_after(numbers: &[usize], number: usize) -> usize {
    match numbers.get(number) {
        Some(now) => *now,
        None => number,
    }
}

/// What is done at a line.
#[derive(Clone, Copy)]
enum Change {
    Keep,
    /// Its target is the next line: a failed call goes on as one that worked.
    Forget,
    /// It is taken out.
    TakeOut,
    /// It goes to where the goto after it goes, if its comparison doesn't hold, and the goto is taken out.
    Turn(usize),
}

impl Tidying {
    /// Nothing is changed yet.
    pub(crate) fn new(
        alloc: Global,
        program: &Program,
        lines: &[Line],
    ) -> Result<Tidying, AllocError> {
        let mut tidying = Tidying {
            shapes: Vec::new(alloc),
            kept: Vec::new(alloc),
            heirs: Vec::new(alloc),
        };
        for line in lines {
            tidying.add(program, line)?;
        }
        Ok(tidying)
    }

    /// Adds a plain line.
    fn add(&mut self, program: &Program, line: &Line) -> Result<(), AllocError> {
        let (from, form, to) = (self.kept.len(), Form::Same, line.to);
        self.shapes.push(shape_of(program, line))?;
        self.kept.push(Kept { from, form, to })?;
        self.heirs.push(Heir::Line(from))?;
        Ok(())
    }

    /// What the line with this number is now, and where it goes.
    fn shape_at(&self, number: usize) -> Option<(Shape, Option<usize>)> {
        let one = self.kept.get(number)?;
        let shape = self.shapes.get(one.from)?;
        match one.form {
            Form::Returns => Some((Shape::Return, one.to)),
            Form::Same | Form::Turned => Some((*shape, one.to)),
        }
    }

    /// Which lines a way leads to from the first one.
    pub(crate) fn reached(&self, alloc: Global) -> Result<Vec<bool>, AllocError> {
        let mut seen = vec![in alloc; false; self.kept.len()]?;
        let mut todo = vec![in alloc; 0usize]?;
        for _ in 0..=self.kept.len().saturating_mul(2) {
            let Some(number) = todo.pop() else {
                break;
            };
            let (Some((shape, to)), Some(is_seen)) = (self.shape_at(number), seen.get_mut(number))
            else {
                continue;
            };
            if *is_seen {
                continue;
            }
            *is_seen = true;
            if let Some(target) = to {
                todo.push(target)?;
            }
            if !matches!(shape, Shape::Goto | Shape::Return | Shape::Last) {
                todo.push(number.saturating_add(1))?;
            }
        }
        Ok(seen)
    }

    /// The line that a way through this one comes to: the end of a goto, or the line itself.
    fn through(&self, number: usize) -> Option<usize> {
        match self.shape_at(number)? {
            (Shape::Goto, to) => to,
            _ => Some(number),
        }
    }

    /// Lets each jump to a goto go to where that goes. Answers whether one changed. Of gotos that go around for ever there is one
    /// less each time, down to one that goes to itself.
    fn shorten_jumps(&mut self) -> bool {
        let mut has_changed = false;
        for number in 0..self.kept.len() {
            if let Some(
                Kept {
                    to: Some(first),
                    ..
                },
            ) = self.kept.get(number).copied()
                && let Some(target) = self.through(first)
                && target != first
                && let Some(slot) = self.kept.get_mut(number)
            {
                slot.to = Some(target);
                has_changed = true;
            }
        }
        has_changed
    }

    /// Lets each jump go to its end at once: a way through gotos is half as long after each round. Answers whether one changed.
    fn shorten_all_jumps(&mut self) -> bool {
        let mut has_changed = false;
        for _ in 0..self.kept.len() {
            if !self.shorten_jumps() {
                break;
            }
            has_changed = true;
        }
        has_changed
    }

    /// Makes each goto to a return the return. Answers whether there was one.
    fn return_at_once(&mut self) -> bool {
        let mut has_changed = false;
        for number in 0..self.kept.len() {
            if let Some((Shape::Goto, Some(target))) = self.shape_at(number)
                && let Some((Shape::Return, _)) = self.shape_at(target)
                && let Some(slot) = self.kept.get_mut(number)
            {
                slot.form = Form::Returns;
                slot.to = None;
                has_changed = true;
            }
        }
        has_changed
    }

    /// For each line whether a jump comes to it.
    fn aimed(&self, alloc: Global) -> Result<Vec<bool>, AllocError> {
        let mut aimed = vec![in alloc; false; self.kept.len()]?;
        for Kept { to, .. } in &self.kept {
            if let Some(target) = *to {
                if let Some(is_aimed) = aimed.get_mut(target) {
                    *is_aimed = true;
                }
            }
        }
        Ok(aimed)
    }

    /// What can be done at the line with this number, where jumps come to these lines.
    fn change_at(&self, aimed: &[bool], number: usize) -> Change {
        let next = number.saturating_add(1);
        let (Some((shape, Some(target))), Some((following, beyond))) = (
            self.shape_at(number),
            self.shape_at(next),
        ) else {
            return Change::Keep;
        };
        let leads_on = self.through(next) == Some(target);
        match shape {
            Shape::Call if leads_on => Change::Forget,
            Shape::Goto if target == next => Change::TakeOut,
            Shape::OwnIf | Shape::SharedIf => {
                let can_turn = matches!(following, Shape::Goto)
                    && target == next.saturating_add(1)
                    && aimed.get(next) == Some(&false);
                match beyond {
                    Some(other) if can_turn => Change::Turn(other),
                    _ if leads_on && matches!(shape, Shape::OwnIf) => Change::TakeOut,
                    _ => Change::Keep,
                }
            }
            _ => Change::Keep,
        }
    }

    /// Takes out the lines that have an heir here: what went on at one of them goes on there. Who came to one comes to the next line
    /// that is left. All numbers are those of the lines before.
    fn take_out(&mut self, alloc: Global, gone: &[Option<Heir>]) -> Result<(), AllocError> {
        let numbers = numbers_after(alloc, gone)?;
        let mut left = Vec::new(alloc);
        for (number, one) in self.kept.iter().enumerate() {
            if let Some(None) = gone.get(number) {
                let to = match one.to {
                    Some(target) => Some(number_after(&numbers, target)),
                    None => None,
                };
                left.push(Kept { to, ..*one })?;
            }
        }
        self.kept = left;
        self.renumber_heirs(gone, &numbers);
        Ok(())
    }

    /// Gives each plain line its heir after these lines were taken out.
    fn renumber_heirs(&mut self, gone: &[Option<Heir>], numbers: &[usize]) {
        for slot in self.heirs.iter_mut() {
            let heir = match *slot {
                Heir::Line(there) => match gone.get(there) {
                    Some(Some(heir)) => *heir,
                    _ => *slot,
                },
                _ => *slot,
            };
            *slot = match heir {
                Heir::Line(there) => Heir::Line(number_after(numbers, there)),
                _ => heir,
            };
        }
    }

    /// Takes out the lines that no way leads to any more: what goes on for one is where its jump leads, if a way leads there.
    /// Whether there were any.
    fn take_out_unreached(&mut self, alloc: Global) -> Result<bool, AllocError> {
        let seen = self.reached(alloc)?;
        let (mut gone, mut has_changed) = (Vec::new(alloc), false);
        for (number, is_seen) in seen.iter().enumerate() {
            let heir = match self.shape_at(number) {
                _ if *is_seen => None,
                Some((Shape::Return, _)) => Some(Heir::Returns),
                Some((Shape::Goto, Some(target))) if seen.get(target) == Some(&true) => {
                    Some(Heir::Line(target))
                }
                _ => Some(Heir::Nowhere),
            };
            has_changed = has_changed || heir.is_some();
            gone.push(heir)?;
        }
        if has_changed {
            self.take_out(alloc, &gone)?;
        }
        Ok(has_changed)
    }

    /// Makes the change at the line with this number, but that lines aren't taken out yet: those that are to be get an heir. Answers
    /// whether it is one.
    fn change(&mut self, gone: &mut [Option<Heir>], number: usize, change: Change) -> bool {
        let Some(slot) = self.kept.get_mut(number) else {
            return false;
        };
        let (line, heir) = match change {
            Change::Keep => return false,
            Change::Forget => {
                slot.to = None;
                return true;
            }
            Change::TakeOut => (number, Heir::Line(number)),
            Change::Turn(target) => {
                slot.to = Some(target);
                slot.form = match slot.form {
                    Form::Turned => Form::Same,
                    _ => Form::Turned,
                };
                (number.saturating_add(1), Heir::Line(target))
            }
        };
        if let Some(place) = gone.get_mut(line) {
            *place = Some(heir);
        }
        true
    }

    /// Makes the changes that can be made at each line, one after the other. Answers whether one was made.
    fn change_each(&mut self, alloc: Global) -> Result<bool, AllocError> {
        let aimed = self.aimed(alloc)?;
        let mut gone = vec![in alloc; None; self.kept.len()]?;
        let mut has_changed = false;
        for number in 0..gone.len() {
            if gone[number].is_none() {
                let change = self.change_at(&aimed, number);
                has_changed = self.change(&mut gone, number, change) || has_changed;
            }
        }
        if has_changed {
            self.take_out(alloc, &gone)?;
        }
        Ok(has_changed)
    }

    /// Makes all changes that can be made.
    fn tidy(&mut self, alloc: Global) -> Result<(), AllocError> {
        for _ in 0..=self.kept.len().saturating_mul(4) {
            let is_shorter = self.shorten_all_jumps();
            let has_returns = self.return_at_once();
            let is_smaller = self.take_out_unreached(alloc)?;
            let is_changed = self.change_each(alloc)?;
            if !is_shorter && !has_returns && !is_smaller && !is_changed {
                break;
            }
        }
        Ok(())
    }
}

/// The lines without jumps that aren't needed, and without lines that no way leads to. Others see of them what they see of the
/// lines as they were.
pub(crate) fn tidied(
    alloc: Global,
    program: &Program,
    lines: &[Line],
) -> Result<Vec<Line>, AllocError>
    ensures { IfOk result (λ tidied. ShowsNoLess program.now.variables.items lines.now tidied.items) }
{
    let mut tidying = Tidying::new(alloc, program, lines)?;
    tidying.tidy(alloc)?;
    tidied_lines(alloc, program, lines, &tidying.kept, &tidying.heirs)
}
