// Too many things, and numbers out of their limits.
ghost use Rattle.std.specs.Prelude.{◌≡◌, ◌≤◌, ◌↔◌, IsTrue, All, length};
ghost use Rattle.fr_program.specs.Fault.{IsSmall};
ghost use Rattle.fr_program.specs.Limits.{IsSize, VariableInLimits, KindInLimits, OperandInLimits, BlockTimeInLimits, TimingInLimits, ActInLimits, InstrInLimits, most_actors, most_variables, most_objects, most_instructions};
ghost use Rattle.fr_program.specs.Timings.{suits_timing};
ghost use Rattle.fr_program.specs.View.{variable_of, actor_of, program_of};

use crate::instr::{Act, Attempt, BlockTime, Call, Instr, SemaphoreForm, Timing};
use crate::parts::{Actor, Kind, Object, Parts, Variable};

/// The most actors that an application has.
const MOST_ACTORS: usize = 32;

/// The most variables that an application has.
const MOST_VARIABLES: usize = 64;

/// The most objects that an application has.
const MOST_OBJECTS: usize = 64;

/// The most instructions that an actor has.
const MOST_INSTRUCTIONS: usize = 512;

/// The greatest size of an object, and the greatest length of a buffer call.
pub const MOST_SIZE: u32 = 65535;

/// The greatest number of ticks in a block time or a delay.
pub const MOST_TICKS: u32 = 2147483647;

/// Whether there are no more actors, variables, objects and instructions than an application can have.
pub fn is_small(parts: &Parts) -> bool
    ensures { IsTrue result ↔ IsSmall (program_of parts.now) }
{
    are_lists_small(parts) && are_codes_small(&parts.actors)
}

/// Whether there are no more actors, variables and objects than an application can have.
fn are_lists_small(parts: &Parts) -> bool
    ensures { IsTrue result
        ↔ ((length (program_of parts.now).actors ≤ most_actors)
        × (length (program_of parts.now).variables ≤ most_variables)
        × (length (program_of parts.now).objects ≤ most_objects)) }
{
    parts.actors.len() <= MOST_ACTORS
        && parts.variables.len() <= MOST_VARIABLES
        && parts.objects.len() <= MOST_OBJECTS
}

/// Whether no actor has more instructions than it can have.
fn are_codes_small(actors: &[Actor]) -> bool
    ensures { IsTrue result ↔ All (λ a. length (actor_of a).code ≤ most_instructions) actors.now }
{
    actors
        .iter()
        .all(|actor| actor.code.len() <= MOST_INSTRUCTIONS)
}

/// Whether the range and the initial value of each variable are in their limits.
pub fn are_variables_in_limits(variables: &[Variable]) -> bool
    ensures { IsTrue result ↔ All (λ v. VariableInLimits (variable_of v)) variables.now }
{
    variables
        .iter()
        .all(|variable| is_variable_in_limits(variable))
}

/// Whether the variable's initial value is in its range.
fn is_variable_in_limits(variable: &Variable) -> bool
    ensures { IsTrue result ↔ VariableInLimits (variable_of variable.now) }
{
    variable.lo <= variable.init && variable.init <= variable.hi
}

/// Whether the numbers of each object's kind are in their limits.
pub fn are_objects_in_limits(objects: &[Object]) -> bool
    ensures { IsTrue result ↔ All (λ o. KindInLimits o.kind) objects.now }
{
    objects.iter().all(|object| is_kind_in_limits(object.kind))
}

/// Whether the numbers of a kind are in their limits: its size, its first count, its range.
fn is_kind_in_limits(kind: Kind) -> bool
    ensures { IsTrue result ↔ KindInLimits kind }
{
    match kind {
        Kind::Queue { size, lo, hi } => is_size(size) && lo <= hi,
        Kind::Counting { size, first } => is_size(size) && 0 <= first && first <= size,
        Kind::Stream { size } => is_size(size),
        Kind::Message { size } => is_size(size),
        Kind::Binary => true,
        Kind::Mutex => true,
        Kind::Recursive => true,
    }
}

/// Whether an object can have this size.
fn is_size(size: i64) -> bool
    ensures { IsTrue result ↔ IsSize size }
{
    1 <= size && size <= i64::from(MOST_SIZE)
}

/// Whether the numbers of an instruction, but for its target, are in their limits.
pub fn is_instr_in_limits(instr: Instr) -> bool
    ensures { IsTrue result ↔ InstrInLimits instr }
{
    match instr {
        Instr::Pick { target: _, lo, hi } => lo <= hi,
        Instr::Call(Call::Delay(ticks)) => ticks <= MOST_TICKS,
        Instr::Call(Call::On(call)) => {
            suits_timing(call.timing, call.act)
                && is_timing_in_limits(call.timing)
                && is_act_in_limits(call.act)
        }
        _ => true,
    }
}

/// Whether a call with this act can have this timing: gives and resets have no block time and all
/// others have one, and resets and the forms for recursive mutexes aren't for interrupts.
fn suits_timing(timing: Timing, act: Act) -> bool
    ensures { result ≡ suits_timing timing act }
{
    match (timing, act) {
        (_, Act::Move { .. }) => !matches!(timing, Timing::Now),
        (Timing::Now, Act::Try { attempt, .. }) => {
            matches!(attempt, Attempt::Give(_) | Attempt::Reset(_))
        }
        (Timing::FromIsr, Act::Try { attempt, .. }) => !matches!(
            attempt,
            Attempt::Take(SemaphoreForm::Recursive)
                | Attempt::Give(SemaphoreForm::Recursive)
                | Attempt::Reset(_)
        ),
        (Timing::Waits(_), Act::Try { attempt, .. }) => {
            !matches!(attempt, Attempt::Give(_) | Attempt::Reset(_))
        }
    }
}

/// Whether the length of an object call, where it has one, is in its limits.
fn is_act_in_limits(act: Act) -> bool
    ensures { IsTrue result ↔ ActInLimits act }
{
    match act {
        Act::Try { .. } => true,
        Act::Move { length, .. } => 1 <= length && length <= MOST_SIZE,
    }
}

/// Whether the block time, where there is one, is in its limits.
fn is_timing_in_limits(timing: Timing) -> bool
    ensures { IsTrue result ↔ TimingInLimits timing }
{
    match timing {
        Timing::Waits(time) => is_block_time_in_limits(time),
        _ => true,
    }
}

/// Whether a block time is in its limits, or `portMAX_DELAY`.
fn is_block_time_in_limits(time: BlockTime) -> bool
    ensures { IsTrue result ↔ BlockTimeInLimits time }
{
    match time {
        BlockTime::Ticks(ticks) => ticks <= MOST_TICKS,
        BlockTime::MaxDelay => true,
    }
}
