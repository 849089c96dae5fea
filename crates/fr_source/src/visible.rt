// Whether tidied lines show other actors all that the plain lines show. Whoever tidies them is believed in nothing: each plain line is
// compared with what became of it.
ghost use Rattle.std.specs.Prelude.{◌≡◌, ◌<◌, ◌⊎◌, ℕ, suc, IfOk, IfSome, IsTrue, Some, length, slice_get};
ghost use Rattle.fr_source.specs.declared.expand.Line.{Line as LineOf};
ghost use Rattle.fr_source.specs.Steps.{ShowsNoLess};
ghost use Rattle.fr_source.specs.Kept.{
  AreMade,
  AreMarks,
  Aims,
  IsReturn,
  JumpsTo,
  KeepsAct,
  KeepsAll,
  KeepsLine,
  KeepsStep,
  MadeAt,
  Marked,
  Meets,
  OppositeIf,
  SameIf,
  SkipsIf,
  Slides,
  made,
  tidied,
};

use crate::expand::Line;
use crate::program::{Action, Operand, Program};
use std::alloc::{AllocError, Global};

/// What becomes of a line that is kept.
#[derive(Clone, Copy)]
pub(crate) enum Form {
    /// It does what it did.
    Same,
    /// It is an `if`, and asks for the opposite.
    Turned,
    /// It is a goto to a return, and returns.
    Returns,
}

/// A tidied line: the plain line that it is, what became of it, and where it goes.
#[derive(Clone, Copy)]
pub(crate) struct Kept {
    pub(crate) from: usize,
    pub(crate) form: Form,
    pub(crate) to: Option<usize>,
}

/// What goes on as a plain line did.
#[derive(Clone, Copy)]
pub(crate) enum Heir {
    /// Nothing: no way leads to the line.
    Nowhere,
    /// The kept line with this number.
    Line(usize),
    /// Any return.
    Returns,
}

/// What a line does that is kept in this form.
fn made(form: Form, action: Action) -> Action
    ensures { result ≡ made form action }
{
    match form {
        Form::Same => action,
        Form::Turned => action.turned(),
        Form::Returns => Action::Return,
    }
}

/// The tidied line with this number; None where it or the plain line that it is isn't there.
fn made_at(plain: &[Line], kept: &[Kept], number: usize) -> Option<Line>
    ensures { IfSome result (λ line. MadeAt plain.now kept.now number line) }
{
    let one = kept.get(number)?;
    let line = plain.get(one.from)?;
    Some(Line {
        action: made(one.form, line.action),
        to: one.to,
        place: line.place,
    })
}

/// The tidied lines. There are fewer where a line is kept that isn't there.
fn made_of(alloc: Global, plain: &[Line], kept: &[Kept]) -> Result<Vec<Line>, AllocError>
    ensures { IfOk result (λ lines. AreMade plain.now kept.now lines.items) }
{
    let mut lines = Vec::new(alloc);
    for number in 0..kept.len() {
        let Some(line) = made_at(plain, kept, number) else {
            break;
        };
        lines.push(line)?;
    }
    Ok(lines)
}

/// The target of the goto with this number.
fn goto_at(lines: &[Line], number: usize) -> Option<usize>
    ensures { IfSome result (λ target. JumpsTo lines.now number target) }
{
    match lines.get(number) {
        Some(line) if matches!(line.action, Action::Goto) => line.to,
        _ => None,
    }
}

/// Where the gotos from a line end, as far as so many of them lead.
fn end_of_gotos(program: &Program, lines: &[Line], first: usize) -> usize
    ensures { Slides program.now.variables.items lines.now first result }
{
    let _ = program;
    let mut last = first;
    for _ in 0..lines.len() {
        match goto_at(lines, last) {
            Some(next) => last = next,
            None => break,
        }
    }
    last
}

/// Whether the line returns.
fn is_return(lines: &[Line], number: usize) -> bool
    ensures { IsTrue result → IsReturn lines.now number }
{
    match lines.get(number) {
        Some(line) => matches!(line.action, Action::Return),
        None => false,
    }
}

/// The mark of where the gotos from a line end: 0 at a return, otherwise one more than the number of the line there. Where they lead out
/// of the lines, it is that of the line itself.
fn mark_of(program: &Program, lines: &[Line], number: usize) -> usize
    requires there { number < length lines.now }
    ensures { Marked program.now.variables.items lines.now number result }
{
    let last = end_of_gotos(program, lines, number);
    if is_return(lines, last) {
        0
    } else if last < lines.len() {
        last + 1
    } else {
        number + 1
    }
}

/// The marks of all lines.
fn marks_of(alloc: Global, program: &Program, lines: &[Line]) -> Result<Vec<usize>, AllocError>
    ensures { IfOk result (λ marks. AreMarks program.now.variables.items lines.now marks.items) }
{
    let mut marks = Vec::new(alloc);
    for number in 0..lines.len() {
        marks.push(mark_of(program, lines, number))?;
    }
    Ok(marks)
}

/// Plain lines, and what became of them.
#[derive(Clone, Copy)]
struct Comparison<'a> {
    program: &'a Program,
    plain: &'a [Line],
    kept: &'a [Kept],
    lines: &'a [Line],
    marks: &'a [usize],
    /// For each plain line, the mark of where the tidied lines go on; None where no way leads to it.
    aims: &'a [Option<usize>],
}

impl Comparison<'_> {
    /// Whether the aim of a plain line is this mark.
    fn aims_at(&self, from: usize, mark: usize) -> bool
        ensures { IsTrue result → Aims self.now.aims.now from mark }
    {
        match self.aims.get(from) {
            Some(Some(aim)) => *aim == mark,
            _ => false,
        }
    }

    /// Whether the tidied code goes on for a plain line as from this line of its own.
    fn meets(&self, from: usize, number: usize) -> bool
        ensures { IsTrue result → Meets self.now.aims.now self.now.marks.now from number }
    {
        match self.marks.get(number) {
            Some(mark) => self.aims_at(from, *mark),
            None => false,
        }
    }

    /// The tidied line with this number and its form, if it is made from this plain line.
    fn made_from(&self, from: usize, number: usize) -> Option<(Form, Line)>
        requires made { AreMade self.now.plain.now self.now.kept.now self.now.lines.now }
        ensures there { IfSome result (λ r. slice_get self.now.lines.now number ≡ Some r.1) }
        ensures does { IfSome result (λ r. (was : LineOf) → slice_get self.now.plain.now from ≡ Some was
            → r.1.action ≡ made r.0 was.action) }
    {
        match (self.kept.get(number), self.lines.get(number)) {
            (Some(kept), Some(line)) if kept.from == from => Some((kept.form, *line)),
            _ => None,
        }
    }

    /// Whether an `if` on the actor's own variables isn't needed: both its ways go on at the mark.
    fn skips_if(
        &self,
        number: usize,
        mark: usize,
        left: Operand,
        right: Operand,
        target: usize,
    ) -> bool
        requires below { number < length self.now.plain.now }
        ensures { IsTrue result → SkipsIf (tidied self.now.program.now.variables.items self.now.lines.now self.now.marks.now self.now.aims.now) number mark left right target }
    {
        !self.program.looks_at_shared(left, right)
            && self.aims_at(target, mark)
            && self.aims_at(number + 1, mark)
    }

    /// The line before the mark with its form and its target, if it is made from this plain line and has one.
    fn jump_from(&self, from: usize, number: usize) -> Option<(Form, Line, usize)>
        requires made { AreMade self.now.plain.now self.now.kept.now self.now.lines.now }
        ensures there { IfSome result (λ r. slice_get self.now.lines.now number ≡ Some r.1) }
        ensures does { IfSome result (λ r. (was : LineOf) → slice_get self.now.plain.now from ≡ Some was
            → r.1.action ≡ made r.0 was.action) }
        ensures goes { IfSome result (λ r. r.1.to ≡ Some r.2) }
    {
        let (form, line) = self.made_from(from, number)?;
        Some((form, line, line.to?))
    }

    /// Whether the line before the mark is this `if`, or asks for the opposite, and goes on as the `if` did.
    fn keeps_if(&self, number: usize, mark: usize, line: Line, target: usize) -> bool
        requires made { AreMade self.now.plain.now self.now.kept.now self.now.lines.now }
        requires below { number < length self.now.plain.now }
        requires there { slice_get self.now.plain.now number ≡ Some line }
        ensures { IsTrue result → SameIf (tidied self.now.program.now.variables.items self.now.lines.now self.now.marks.now self.now.aims.now) number mark line.action target ⊎ OppositeIf (tidied self.now.program.now.variables.items self.now.lines.now self.now.marks.now self.now.aims.now) number mark line.action target }
    {
        let Some(before) = mark.checked_sub(1) else {
            return false;
        };
        match self.jump_from(number, before) {
            Some((Form::Same, _, to)) => self.meets(target, to) && self.meets(number + 1, mark),
            Some((Form::Turned, _, to)) => self.meets(target, mark) && self.meets(number + 1, to),
            _ => false,
        }
    }

    /// Whether the line before the mark does what this line did, and goes on as it did where it works and where it fails.
    fn keeps_act(&self, number: usize, mark: usize, line: Line) -> bool
        requires made { AreMade self.now.plain.now self.now.kept.now self.now.lines.now }
        requires below { number < length self.now.plain.now }
        requires there { slice_get self.now.plain.now number ≡ Some line }
        ensures { IsTrue result → KeepsAct (tidied self.now.program.now.variables.items self.now.lines.now self.now.marks.now self.now.aims.now) number mark line.action line.to }
    {
        let Some(before) = mark.checked_sub(1) else {
            return false;
        };
        match self.made_from(number, before) {
            Some((Form::Same, now)) => {
                line.ends()
                    || (self.meets(number + 1, mark)
                        && self.meets(line.to.unwrap_or(number + 1), now.to.unwrap_or(mark)))
            }
            _ => false,
        }
    }

    /// Whether the tidied code goes on at the mark as this plain line does.
    fn keeps_step(&self, number: usize, mark: usize, line: Line) -> bool
        requires made { AreMade self.now.plain.now self.now.kept.now self.now.lines.now }
        requires below { number < length self.now.plain.now }
        requires there { slice_get self.now.plain.now number ≡ Some line }
        ensures { IsTrue result → KeepsStep (tidied self.now.program.now.variables.items self.now.lines.now self.now.marks.now self.now.aims.now) number mark line.action line.to }
    {
        match (line.action, line.to) {
            (Action::Goto, Some(target)) => self.aims_at(target, mark),
            (Action::Goto, None) => false,
            (Action::If { left, right, .. }, Some(target)) => {
                self.skips_if(number, mark, left, right, target)
                    || self.keeps_if(number, mark, line, target)
            }
            (Action::If { .. }, None) => false,
            (Action::Return, _) => mark == 0,
            (Action::End, _) => true,
            _ => self.keeps_act(number, mark, line),
        }
    }

    /// Whether the tidied code does what this plain line does, wherever a way leads to it.
    fn keeps_line(&self, number: usize) -> bool
        requires made { AreMade self.now.plain.now self.now.kept.now self.now.lines.now }
        requires below { number < length self.now.plain.now }
        ensures { IsTrue result → KeepsLine (tidied self.now.program.now.variables.items self.now.lines.now self.now.marks.now self.now.aims.now) self.now.plain.now number }
    {
        let Some(line) = self.plain.get(number) else {
            return true;
        };
        match self.aims.get(number) {
            Some(aim) => match *aim {
                Some(mark) => self.keeps_step(number, mark, *line),
                None => true,
            },
            None => true,
        }
    }

    /// Whether it does so for each plain line, and begins where they begin.
    fn keeps_all(&self) -> bool
        requires made { AreMade self.now.plain.now self.now.kept.now self.now.lines.now }
        requires marked { AreMarks self.now.program.now.variables.items self.now.lines.now self.now.marks.now }
        ensures { IsTrue result → KeepsAll (tidied self.now.program.now.variables.items self.now.lines.now self.now.marks.now self.now.aims.now) self.now.plain.now }
    {
        for number in 0..self.plain.len() {
            if !self.keeps_line(number) {
                return false;
            }
        }
        self.meets(0, 0)
    }
}

/// The mark of where the tidied lines go on for each plain line.
fn aims_of(
    alloc: Global,
    heirs: &[Heir],
    marks: &[usize],
) -> Result<Vec<Option<usize>>, AllocError> {
    let mut aims = Vec::new(alloc);
    for heir in heirs {
        aims.push(match heir {
            Heir::Line(number) => marks.get(*number).copied(),
            Heir::Returns => Some(0),
            Heir::Nowhere => None,
        })?;
    }
    Ok(aims)
}

/// The lines as they are.
fn copied(alloc: Global, lines: &[Line]) -> Result<Vec<Line>, AllocError>
    ensures { IfOk result (λ copy. copy.items ≡ lines.now) }
{
    lines.to_vec(alloc)
}

/// Whether tidied lines show others no less than the plain ones. `heirs` has for each plain line what goes on for it.
fn show_no_less<'a>(
    alloc: Global,
    program: &'a Program,
    plain: &'a [Line],
    kept: &'a [Kept],
    lines: &'a [Line],
    heirs: &[Heir],
) -> Result<bool, AllocError>
    requires made { AreMade plain.now kept.now lines.now }
    ensures { IfOk result (λ found. IsTrue found → ShowsNoLess program.now.variables.items plain.now lines.now) }
{
    let marks = marks_of(alloc, program, lines)?;
    let aims = aims_of(alloc, heirs, &marks)?;
    Ok(are_kept(program, plain, kept, lines, &marks, &aims))
}

/// Whether it is so by these marks and aims.
fn are_kept<'a>(
    program: &'a Program,
    plain: &'a [Line],
    kept: &'a [Kept],
    lines: &'a [Line],
    marks: &'a [usize],
    aims: &'a [Option<usize>],
) -> bool
    requires made { AreMade plain.now kept.now lines.now }
    requires marked { AreMarks program.now.variables.items lines.now marks.now }
    ensures { IsTrue result → ShowsNoLess program.now.variables.items plain.now lines.now }
{
    let comparison = Comparison {
        program,
        plain,
        kept,
        lines,
        marks,
        aims,
    };
    comparison.keeps_all()
}

/// The lines that are kept of the plain ones, where it is seen that they show others no less; otherwise the plain ones. `heirs` has for
/// each plain line what goes on for it.
pub(crate) fn tidied_lines(
    alloc: Global,
    program: &Program,
    plain: &[Line],
    kept: &[Kept],
    heirs: &[Heir],
) -> Result<Vec<Line>, AllocError>
    ensures { IfOk result (λ lines. ShowsNoLess program.now.variables.items plain.now lines.items) }
{
    let lines = made_of(alloc, plain, kept)?;
    if show_no_less(alloc, &*program, &*plain, &*kept, &lines, heirs)? {
        Ok(lines)
    } else {
        copied(alloc, plain)
    }
}
