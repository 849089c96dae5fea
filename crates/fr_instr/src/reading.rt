// Reading: the line that a text is.
ghost use Rattle.std.specs.Prelude.{◌≡◌, ◌≢◌, ◌≤◌, length, IfOk, IfErr, MatchResult};
ghost use Rattle.fr_instr.specs.Views.{word_of, words, text_in, shape_view};
ghost use Rattle.fr_instr.specs.Shapes.{set, set_to, branch, jump, pick, call};
ghost use Rattle.fr_instr.specs.Numbers.{IsInteger, IsTarget};
ghost use Rattle.fr_instr.specs.Lines.{IsElse, IsInto, IsLineOf, IsLine, IsLineIn};
ghost use Rattle.fr_instr.specs.Faults.{InInteger, InTarget, InElse, InInto, InCall, InShape, Stands};
ghost use Rattle.fr_instr.specs.declared.fault.LineFault.TheVariants.{Memory};
ghost use Rattle.fr_program.specs.declared.instr.Instr.{Instr};

use crate::call::{self, Tail};
use crate::fault::{LineFault, LineFaultAt, TokenFault, at};
use crate::names::Names;
use crate::shape::{self, CallShape, Shape, Value};
use crate::{direct, given, meaning, number, token};
use fr_program::{Comparison, Instr as Line, Operand, Operator, VarId};
use std::alloc::Global;

/// The target that the text is.
fn target_at(text: &[u8]) -> Result<usize, LineFault>
    ensures { MatchResult result (IsTarget text.now) (InTarget text.now) }
{
    match number::target_of(text) {
        Some(target) => Ok(target),
        None => Err(LineFault::BadNumber),
    }
}

/// The number that the text is.
fn integer_at(text: &[u8]) -> Result<i64, LineFault>
    ensures { MatchResult result (IsInteger text.now) (InInteger text.now) }
{
    match number::integer_of(text) {
        Some(n) => Ok(n),
        None => Err(LineFault::BadNumber),
    }
}

/// The target behind `else`, which is only where the call may fail.
fn else_of(tail: Tail, or_else: Option<&[u8]>) -> Result<Option<usize>, TokenFault>
    ensures { MatchResult result (IsElse tail (text_in or_else.entry)) (λ f. InElse tail (text_in or_else.entry) f.fault) }
{
    match or_else {
        None => Ok(None),
        Some(text) if tail.may_fail() => Ok(Some(at(1, target_at(text))?)),
        Some(_) => Err(LineFault::Syntax.at(2)),
    }
}

/// The variable before `=`, which is only where the call answers a number. So many tokens are left at the call's name.
fn into_of(
    names: &Names,
    tail: Tail,
    into: Option<&[u8]>,
    left: usize,
) -> Result<Option<VarId>, TokenFault>
    ensures { MatchResult result (IsInto names.now tail (text_in into.entry)) (λ f. InInto names.now tail (text_in into.entry) f.fault) }
{
    match into {
        None => Ok(None),
        Some(word) if tail.may_answer() => {
            let variable = at(left.saturating_add(2), meaning::variable_of(names, word))?;
            Ok(Some(variable))
        }
        Some(_) => Err(LineFault::Syntax.at(left)),
    }
}

/// The call that a name and its arguments mean, as a line.
fn call_of(names: &Names, shape: &CallShape<'_>) -> Result<Line, TokenFault>
    ensures ok { IfOk result (IsLineOf names.now (call (text_in shape.now.into) shape.now.name.now (words shape.now.args.items) (text_in shape.now.or_else))) }
    ensures err { IfErr result (λ f. InCall names.now (text_in shape.now.into) shape.now.name.now (words shape.now.args.items) (text_in shape.now.or_else) f.fault) }
{
    let args = shape.args.as_slice();
    let behind = if shape.or_else.is_some() { 2 } else { 0 };
    let name = meaning::left_at_name(args, behind);
    let Some((_, verb, places, tail)) = call::row_named(shape.name) else {
        return Err(LineFault::UnknownCall.at(name));
    };
    let or_else = else_of(tail, shape.or_else)?;
    let into = into_of(names, tail, shape.into, name)?;
    let given = meaning::args_given(names, places, args, behind)?;
    Ok(Line::Call(given::made_beside(verb, given, or_else, into)))
}

/// The `set` that these words and numbers mean.
fn set_of(
    names: &Names,
    target: &[u8],
    left: Value<'_>,
    operator: Operator,
    right: Value<'_>,
) -> Result<Line, TokenFault>
    ensures ok { IfOk result (IsLineOf names.now (set_to target.now (word_of left.entry) operator (word_of right.entry))) }
    ensures err { IfErr result (λ f. InShape names.now (set_to target.now (word_of left.entry) operator (word_of right.entry)) f.fault) }
{
    let target = at(5, meaning::variable_of(names, target))?;
    let left = at(3, meaning::operand_at(names, left))?;
    let right = at(1, meaning::operand_at(names, right))?;
    Ok(Line::Set {
        target,
        left,
        operator,
        right,
    })
}

/// A `set` of one operand adds 0 to it.
fn short_set_of(names: &Names, target: &[u8], left: Value<'_>) -> Result<Line, TokenFault>
    ensures ok { IfOk result (IsLineOf names.now (set target.now (word_of left.entry))) }
    ensures err { IfErr result (λ f. InShape names.now (set target.now (word_of left.entry)) f.fault) }
{
    let target = at(3, meaning::variable_of(names, target))?;
    let left = at(1, meaning::operand_at(names, left))?;
    Ok(Line::Set {
        target,
        left,
        operator: Operator::Plus,
        right: Operand::Number(0),
    })
}

/// The `if` that these words and numbers mean.
fn if_of(
    names: &Names,
    left: Value<'_>,
    comparison: Comparison,
    right: Value<'_>,
    target: &[u8],
) -> Result<Line, TokenFault>
    ensures ok { IfOk result (IsLineOf names.now (branch (word_of left.entry) comparison (word_of right.entry) target.now)) }
    ensures err { IfErr result (λ f. InShape names.now (branch (word_of left.entry) comparison (word_of right.entry) target.now) f.fault) }
{
    let left = at(5, meaning::operand_at(names, left))?;
    let right = at(3, meaning::operand_at(names, right))?;
    let target = at(1, target_at(target))?;
    Ok(Line::If {
        left,
        comparison,
        right,
        target,
    })
}

/// The `pick` that these words and numbers mean.
fn pick_of(names: &Names, target: &[u8], lo: &[u8], hi: &[u8]) -> Result<Line, TokenFault>
    ensures ok { IfOk result (IsLineOf names.now (pick target.now lo.now hi.now)) }
    ensures err { IfErr result (λ f. InShape names.now (pick target.now lo.now hi.now) f.fault) }
{
    let target = at(3, meaning::variable_of(names, target))?;
    let lo = at(2, integer_at(lo))?;
    let hi = at(1, integer_at(hi))?;
    Ok(Line::Pick { target, lo, hi })
}

/// The `goto` to this target.
fn goto_of(names: &Names, target: &[u8]) -> Result<Line, TokenFault>
    ensures ok { IfOk result (IsLineOf names.now (jump target.now)) }
    ensures err { IfErr result (λ f. InShape names.now (jump target.now) f.fault) }
{
    let _ = names;
    let target = at(1, target_at(target))?;
    Ok(Line::Goto { target })
}

/// The line that the shape means.
fn line_of(names: &Names, shape: &Shape<'_>) -> Result<Line, TokenFault>
    ensures ok { IfOk result (IsLineOf names.now (shape_view shape.now)) }
    ensures err { IfErr result (λ f. InShape names.now (shape_view shape.now) f.fault) }
{
    match shape {
        Shape::Set(target, left) => short_set_of(names, target, *left),
        Shape::SetTo(target, left, operator, right) => {
            set_of(names, target, *left, *operator, *right)
        }
        Shape::If(left, comparison, right, target) => {
            if_of(names, *left, *comparison, *right, target)
        }
        Shape::Goto(target) => goto_of(names, target),
        Shape::Pick(target, lo, hi) => pick_of(names, target, lo, hi),
        Shape::Return => Ok(Line::Return),
        Shape::Call(call) => call_of(names, call),
    }
}

/// The fault at its place in the text, which begins with so many tokens.
fn placed(text: &[u8], tokens: usize, fault: TokenFault) -> LineFaultAt
    ensures fault { result.fault ≡ fault.fault }
    ensures inside { result.at ≤ length text.now }
{
    LineFaultAt {
        fault: fault.fault,
        at: token::place_of(text, tokens.saturating_sub(fault.left)),
    }
}

/// The line that the text is, found by its tokens and their shape.
fn line_by_tokens(alloc: Global, text: &str, names: &Names) -> Result<Line, LineFaultAt>
    ensures ok { IfOk result (IsLine names.now text.now) }
    ensures err { IfErr result (λ e. e.fault ≢ Memory → Stands names.now text.now e.fault) }
    ensures inside { IfErr result (λ e. e.at ≤ length text.now) }
{
    let bytes = text.as_bytes();
    let (tokens, rest) = token::first_tokens(alloc, bytes)?;
    match shape::shape_at(alloc, tokens.as_slice())? {
        Ok(shape) if token::is_blank(rest) => match line_of(names, &shape) {
            Ok(line) => Ok(line),
            Err(fault) => Err(placed(bytes, tokens.len(), fault)),
        },
        Ok(_) => Err(placed(bytes, tokens.len(), LineFault::Syntax.at(0))),
        Err(left) => Err(placed(bytes, tokens.len(), LineFault::Syntax.at(left.0))),
    }
}

/// The same as `read_line`, and where the fault is.
pub fn read_line_at(alloc: Global, text: &str, names: &Names) -> Result<Line, LineFaultAt>
    ensures ok { IfOk result (IsLine names.now text.now) }
    ensures one { IfOk result (λ l. (m : Instr) → IsLine names.now text.now m → m ≡ l) }
    ensures within { IfOk result (IsLineIn names.now) }
    ensures none { IfErr result (λ e. e.fault ≢ Memory → (l : Instr) → ¬ IsLine names.now text.now l) }
    ensures err { IfErr result (λ e. e.fault ≢ Memory → Stands names.now text.now e.fault) }
    ensures inside { IfErr result (λ e. e.at ≤ length text.now) }
{
    if let Some(call) = direct::read_call(names, text.as_bytes()) {
        return Ok(Line::Call(call));
    }
    line_by_tokens(alloc, text, names)
}

/// The line that the text is, with these names.
///
/// A line is one of `set x = a`, `set x = a + b` (or `-`, `*`), `if a < b goto L` (or `<=`, `>`,
/// `>=`, `==`, `!=`), `goto L`, `pick x lo hi`, `return` and the calls of the kernel, with their
/// arguments in brackets, which may have `v =` before them or `else L` behind them where the call
/// answers a number or may fail. An operand is a variable or a number; `set x = a` is read as
/// `set x = a + 0`. Spaces may be between tokens. This grammar is this project's profile; the
/// names of the calls and their arguments are those of the FreeRTOS Reference Manual.
///
/// Operands and the bounds of a `pick` have 64 bits with a sign, a length is 1 to 65535, and a
/// block time, a delay and a target are 0 to 2147483647.
///
/// Its errors are those of `LineFault`: `Memory` where an allocation was refused, otherwise a fault
/// that is present in the text, which then is no line. Of several, which one is named is open.
pub fn read_line(alloc: Global, text: &str, names: &Names) -> Result<Line, LineFault>
    ensures ok { IfOk result (IsLine names.now text.now) }
    ensures one { IfOk result (λ l. (m : Instr) → IsLine names.now text.now m → m ≡ l) }
    ensures within { IfOk result (IsLineIn names.now) }
    ensures none { IfErr result (λ f. f ≢ Memory → (l : Instr) → ¬ IsLine names.now text.now l) }
    ensures err { IfErr result (λ f. f ≢ Memory → Stands names.now text.now f) }
{
    match read_line_at(alloc, text, names) {
        Ok(line) => Ok(line),
        Err(error) => Err(error.fault),
    }
}
