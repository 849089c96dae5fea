// What `App::build` refuses: each fault is looked for in turn.
ghost use Rattle.std.specs.Prelude.{◌≢◌, OnOk, IfErr, All};
ghost use Rattle.fr_program.specs.Fault.{IsFreeOf, IsFaultless};
ghost use Rattle.fr_program.specs.ListFault.{AreListsFaultless, AreNamesFaultless};
ghost use Rattle.fr_program.specs.InstrFault.{HasFault, HasFaultIn, IsInstrFaultless, IsCodeFaultless};
ghost use Rattle.fr_program.specs.View.{actor_of, program_of};

mod kinds;
mod limits;
mod names;
mod results;
mod targets;
mod uses;

use crate::fault::{BuildFault, CodeLine};
use crate::ids::ActorId;
use crate::instr::Instr;
use crate::parts::{Actor, Parts};
use kinds::{suits_actor, suits_kind};
use limits::{are_objects_in_limits, are_variables_in_limits, is_instr_in_limits, is_small};
pub use limits::{MOST_SIZE, MOST_TICKS};
pub use names::is_name;
use names::{are_distinct, are_names, are_owners_there, names_of};
use results::{operands_fit, results_fit};
use std::alloc::Global;
use targets::{are_targets_below, first_falling_off};
pub use uses::Uses;
use uses::{may_use_all, names_things, shares_at_most_one};

/// Ok where no fault is present; else a fault that is present, or `Memory` where an allocation was
/// refused.
pub fn check_parts(alloc: Global, parts: &Parts) -> Result<(), BuildFault>
    ensures faultless { OnOk result (IsFaultless (program_of parts.now)) }
    ensures err { IfErr result (λ f. f ≢ BuildFault.Memory → IsFreeOf (program_of parts.now) f → ⊥) }
{
    check_lists(parts)?;
    check_code(parts)?;
    check_names(alloc, parts)
}

/// Looks for the faults of the lists: too many things, variables and objects out of limits, code that
/// doesn't end well, owners that aren't there.
fn check_lists(parts: &Parts) -> Result<(), BuildFault>
    ensures ok { OnOk result (AreListsFaultless (program_of parts.now)) }
    ensures err { IfErr result (λ f. IsFreeOf (program_of parts.now) f → ⊥) }
{
    if !is_small(parts) {
        Err(BuildFault::TooMany)
    } else if !are_variables_in_limits(&parts.variables) {
        Err(BuildFault::BadRange(None))
    } else if !are_objects_in_limits(&parts.objects) {
        Err(BuildFault::BadRange(None))
    } else if let Some(actor) = first_falling_off(&parts.actors) {
        Err(BuildFault::FallsOff(ActorId(actor)))
    } else if !are_owners_there(&parts.variables, parts.actors.len()) {
        Err(BuildFault::Names(None))
    } else {
        Ok(())
    }
}

/// Looks for what is no name, and for a name that is given twice.
fn check_names(alloc: Global, parts: &Parts) -> Result<(), BuildFault>
    ensures ok { OnOk result (AreNamesFaultless (program_of parts.now)) }
    ensures err { IfErr result (λ f. f ≢ BuildFault.Memory → IsFreeOf (program_of parts.now) f → ⊥) }
{
    let names = names_of(alloc, parts)?;
    if !are_names(&names) {
        Err(BuildFault::Names(None))
    } else if !are_distinct(&names) {
        Err(BuildFault::Names(None))
    } else {
        Ok(())
    }
}

/// Looks for a fault in every actor's code.
fn check_code(parts: &Parts) -> Result<(), BuildFault>
    ensures ok { OnOk result (IsCodeFaultless (program_of parts.now)) }
    ensures err { IfErr result (λ f. IsFreeOf (program_of parts.now) f → ⊥) }
{
    for (a, actor) in parts.actors.iter().enumerate() {
        check_code_of(parts, ActorId(a), actor)?;
    }
    Ok(())
}

/// Looks for a fault in the code of this actor.
fn check_code_of(parts: &Parts, a: ActorId, actor: &Actor) -> Result<(), BuildFault>
    ensures ok { OnOk result
        (All (λ i. IsInstrFaultless (program_of parts.now) a.0 (actor_of actor.now) i)
        (actor_of actor.now).code) }
    ensures err { IfErr result (HasFaultIn (program_of parts.now) a (actor_of actor.now)) }
{
    for (pc, instr) in actor.code.iter().enumerate() {
        check_instr(parts, CodeLine { actor: a, pc }, actor, *instr)?;
    }
    Ok(())
}

/// Looks for a fault of this instruction, which is at this line.
fn check_instr(parts: &Parts, at: CodeLine, actor: &Actor, instr: Instr) -> Result<(), BuildFault>
    ensures ok { OnOk result
        (IsInstrFaultless (program_of parts.now) at.actor.0 (actor_of actor.now) instr) }
    ensures err { IfErr result (HasFault (program_of parts.now) at (actor_of actor.now) instr) }
{
    if !is_instr_in_limits(instr) {
        Err(BuildFault::BadRange(Some(at)))
    } else if !are_targets_below(actor.code.len(), instr) {
        Err(BuildFault::BadTarget(at))
    } else if !shares_at_most_one(parts, instr) {
        Err(BuildFault::TwoShared(at))
    } else if !may_use_all(parts, at.actor, instr) {
        Err(BuildFault::NotOwner(at))
    } else if !suits_kind(parts, instr) {
        Err(BuildFault::KindMismatch(at))
    } else if !suits_actor(actor, instr) {
        Err(BuildFault::FromIsrInTask(at))
    } else if !results_fit(parts, instr) {
        Err(BuildFault::ResultRange(at))
    } else if !operands_fit(instr) {
        Err(BuildFault::Operands(at))
    } else if !names_things(parts, instr) {
        Err(BuildFault::Names(Some(at)))
    } else {
        Ok(())
    }
}
