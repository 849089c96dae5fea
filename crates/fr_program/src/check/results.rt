// Results that don't fit their variables, and operands that don't go together.
ghost use Rattle.std.specs.Prelude.{◌↔◌, IsTrue, pos, IfSome};
ghost use Rattle.fr_program.specs.Fault.{Covers, CoversQueue, TakesIn, ResultsFit, OperandsFit, IsConstant, AreApart};
ghost use Rattle.fr_program.specs.View.{program_of};

use crate::ids::{ObjId, VarId};
use crate::instr::{Act, Call, Instr, Operand, Operator};
use crate::parts::{Kind, Parts};

/// Whether the instruction's result fits its variable: both bounds of a `pick` are in the variable's
/// range, and the range has every number that an object call can give.
pub fn results_fit(parts: &Parts, instr: Instr) -> bool
    ensures { IsTrue result ↔ ResultsFit (program_of parts.now) instr }
{
    match instr {
        Instr::Pick { target, lo, hi } => covers(parts, target, lo, lo)
            && covers(parts, target, hi, hi),
        Instr::Call(Call::On(call)) => takes_in(parts, call.object, call.act),
        _ => true,
    }
}

/// Whether the range of the variable of an object call's result has every number that the call can give.
fn takes_in(parts: &Parts, object: ObjId, act: Act) -> bool
    ensures { IsTrue result ↔ TakesIn (program_of parts.now) object act }
{
    match act {
        Act::Try { attempt, .. } => match (attempt.received(), parts.objects.get(object.0)) {
            (Some(into), Some(found)) => covers_queue(parts, into, found.kind),
            _ => true,
        },
        Act::Move {
            length,
            result: count,
            ..
        } => covers_count(parts, count, length),
    }
}

/// Whether the variable's range has the queue's whole range, if the kind is that of a queue.
fn covers_queue(parts: &Parts, x: VarId, kind: Kind) -> bool
    ensures { IsTrue result ↔ CoversQueue (program_of parts.now) x kind }
{
    match kind {
        Kind::Queue { size: _, lo, hi } => covers(parts, x, lo, hi),
        _ => true,
    }
}

/// Whether the variable's range, where a variable is named, has all numbers from 0 to the length.
fn covers_count(parts: &Parts, count: Option<VarId>, length: u32) -> bool
    ensures { IsTrue result ↔ IfSome count (λ x. Covers (program_of parts.now) x (pos 0) (pos length)) }
{
    match count {
        Some(x) => covers(parts, x, 0, i64::from(length)),
        None => true,
    }
}

/// Whether the range of the variable, where there is one, has all numbers from `lo` to `hi`.
fn covers(parts: &Parts, x: VarId, lo: i64, hi: i64) -> bool
    ensures { IsTrue result ↔ Covers (program_of parts.now) x lo hi }
{
    match parts.variables.get(x.0) {
        Some(variable) => variable.lo <= lo && hi <= variable.hi,
        None => true,
    }
}

/// Whether the operands of a `set` or an `if` go together: `*` has a number among them, and no variable
/// is both.
pub fn operands_fit(instr: Instr) -> bool
    ensures { IsTrue result ↔ OperandsFit instr }
{
    match instr {
        Instr::Set {
            target: _,
            left,
            operator: Operator::Times,
            right,
        } => is_constant(left) || is_constant(right),
        Instr::Set { left, right, .. } => are_apart(left, right),
        Instr::If { left, right, .. } => are_apart(left, right),
        _ => true,
    }
}

/// Whether the operand is a number.
fn is_constant(operand: Operand) -> bool
    ensures { IsTrue result ↔ IsConstant operand }
{
    match operand {
        Operand::Number(_) => true,
        Operand::Variable(_) => false,
    }
}

/// Whether the operands aren't one variable twice.
fn are_apart(left: Operand, right: Operand) -> bool
    ensures { IsTrue result ↔ AreApart left right }
{
    match (left, right) {
        (Operand::Variable(x), Operand::Variable(y)) => x != y,
        _ => true,
    }
}
