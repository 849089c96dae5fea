// Targets, and the ends of codes.
ghost use Rattle.std.specs.Prelude.{◌≡◌, ◌<◌, ◌↔◌, IsTrue, IfSome, not, position};
ghost use Rattle.fr_program.specs.Uses.{TargetsBelow};
ghost use Rattle.fr_program.specs.ListFault.{ends_well};
ghost use Rattle.fr_program.specs.View.{actor_of};

use crate::instr::{Call, Instr};
use crate::parts::Actor;

/// Whether each target that the instruction names is an instruction of code of this length.
pub fn are_targets_below(length: usize, instr: Instr) -> bool
    ensures { IsTrue result ↔ TargetsBelow length instr }
{
    match instr {
        Instr::If { target, .. } => target < length,
        Instr::Goto { target } => target < length,
        Instr::Call(Call::Create { or_else, .. }) => is_else_below(length, or_else),
        Instr::Call(Call::On(call)) => is_else_below(length, call.act.else_target()),
        _ => true,
    }
}

/// Whether the target for a failure, where one is named, is an instruction of code of this length.
fn is_else_below(length: usize, or_else: Option<usize>) -> bool
    ensures { IsTrue result ↔ IfSome or_else (λ target. target < length) }
{
    match or_else {
        Some(target) => target < length,
        None => true,
    }
}

/// The number of the first actor whose code doesn't end well.
pub fn first_falling_off(actors: &[Actor]) -> Option<usize>
    ensures { result ≡ position (λ a. not (ends_well (actor_of a))) actors.now }
{
    actors.iter().position(|actor| !ends_well(actor))
}

/// Whether the actor's code has a last instruction, and it is a `goto`, a `return` or
/// `vTaskDelete(NULL)`.
fn ends_well(actor: &Actor) -> bool
    ensures { result ≡ ends_well (actor_of actor.now) }
{
    match actor.code.last() {
        Some(Instr::Goto { .. }) => true,
        Some(Instr::Return) => true,
        Some(Instr::Call(Call::DeleteSelf)) => true,
        _ => false,
    }
}
