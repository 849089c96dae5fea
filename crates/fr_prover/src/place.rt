// A point of an application with its instruction.
ghost use Rattle.std.specs.Prelude.{IfSome};
ghost use Rattle.fr_finder.specs.Spots.{IsPlaced};

use fr_program::{App, Call, Instr, Operand, Point, VarId};
use fr_rules::Way;

/// A point with its instruction.
#[derive(Clone, Copy)]
pub struct Placed<'a> {
    pub point: Point,
    pub instr: &'a Instr,
}

/// The point with this number; None where the application has no such point.
pub fn place_at<'a>(app: &'a App, number: usize) -> Option<Placed<'a>>
    ensures { IfSome result (λ p. IsPlaced app.now p.point p.instr.now) }
{
    app.recall_numbered();
    if number >= app.points() {
        return None;
    }
    let point = app.point(number);
    let instr = app.instr(point)?;
    Some(Placed { point, instr })
}

/// The number that an operand is, if it is one.
pub fn number_of(operand: Operand) -> Option<i128> {
    match operand {
        Operand::Number(number) => Some(i128::from(number)),
        Operand::Variable(_) => None,
    }
}

/// The variables that an instruction tests.
pub fn tested(instr: &Instr) -> [Option<VarId>; 2] {
    match instr {
        Instr::If { left, right, .. } => [left.variable(), right.variable()],
        _ => [None, None],
    }
}

/// The variables whose numbers an instruction takes.
pub fn read(instr: &Instr) -> [Option<VarId>; 2] {
    let uses = instr.variables();
    match instr {
        Instr::Call(_) if instr.written().is_some() => [None, None],
        _ => [uses.left, uses.right],
    }
}

/// The object that an instruction creates or deletes, if it does.
pub fn changed_life(instr: &Instr) -> Option<usize> {
    match instr {
        Instr::Call(Call::Create { object, .. } | Call::Delete { object, .. }) => Some(object.0),
        _ => None,
    }
}

/// The rows by which an instruction can have a step.
pub fn ways(instr: &Instr) -> &'static [Way] {
    match instr {
        Instr::Set { .. } | Instr::Pick { .. } | Instr::Goto { .. } | Instr::Return => {
            &[Way::Then]
        }
        Instr::If { .. } | Instr::Call(_) => &[Way::Then, Way::Else],
    }
}
