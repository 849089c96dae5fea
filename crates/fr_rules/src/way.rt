// The rows of an instruction in the step table, and where they lead.
ghost use Rattle.std.specs.Prelude.{◌≡◌, ◌+◌};
ghost use Rattle.fr_rules.specs.Step.{landing};
ghost use Rattle.fr_rules.specs.Landing.{landing_of};
ghost use Rattle.fr_rules.specs.State.{At};
ghost use Rattle.fr_program.specs.declared.ids.Side.TheVariants.{Before};

use fr_program::{ActorId, Call, Instr, Point, Side};

/// Which row of the step table a step goes by. Each place has one row or two.
#[derive(Clone, Copy, PartialEq, Eq)]
pub enum Way {
    /// An `if` whose comparison is true, a call that works, and the one row of any other
    /// instruction.
    Then,
    /// An `if` whose comparison is false, a call that fails.
    Else,
}

/// Where an actor stands after a step: at a point, or nowhere, since it has ended.
#[derive(Clone, Copy, PartialEq, Eq)]
pub enum Landing {
    At(Point),
    Done,
}

/// The point before this instruction of the actor.
fn before(actor: ActorId, pc: usize) -> Landing
    ensures { result ≡ landing_of actor (At pc Before) }
{
    Landing::At(Point {
        actor,
        pc,
        side: Side::Before,
    })
}

/// Where an actor's step from a side of an instruction leads by this row. The next instruction
/// is at `next`.
pub fn lands_at(point: Point, next: usize, instr: &Instr, way: Way) -> Landing
    requires { next ≡ point.pc + 1 }
    ensures { result ≡ landing_of point.actor (landing point.pc point.side instr.now way) }
{
    match (point.side, instr, way) {
        (Side::Before, Instr::If { target, .. }, Way::Then) => before(point.actor, *target),
        (Side::Before, Instr::Goto { target }, _) => before(point.actor, *target),
        (Side::Before, Instr::Return, _) => before(point.actor, 0),
        (Side::Before, Instr::Call(Call::DeleteSelf), _) => Landing::Done,
        (Side::Before, Instr::Call(Call::Create { or_else, .. }), Way::Else) => {
            before(point.actor, or_else.unwrap_or(next))
        }
        (Side::Before, Instr::Call(Call::On(_)), _) => {
            Landing::At(Point {
                side: Side::Inside,
                ..point
            })
        }
        (Side::Inside, Instr::Call(Call::On(call)), Way::Else) => {
            before(point.actor, call.act.else_target().unwrap_or(next))
        }
        _ => before(point.actor, next),
    }
}
