// Why a state breaches a rule, in words.
ghost use Rattle.fr_rules.specs.State.{IsWellFormed};

use super::words::kind_name;
use fr_calls::{Rule, State, span_of, value_in};
use fr_notes::Spot;
use fr_program::{
    Act, ActorId, App, Attempt, Call, Instr, Kind, ObjId, ObjectCall, Operand, Range, VarId,
};
use fr_wording::{
    actor_name, content_in, object_name, put_critical, put_suspended, put_three, put_two,
    suspension_in,
};
use std::alloc::{AllocError, Global};

/// The value of an operand in the state.
fn operand_in(app: &App, state: &State, operand: Operand) -> i64
    requires { IsWellFormed app.now state.now }
{
    match operand {
        Operand::Number(number) => number,
        Operand::Variable(variable) => value_in(app, state, variable),
    }
}

/// Appends the value that a `set` gives, and the range that it isn't in.
fn put_set(text: &mut String, app: &App, variable: VarId, value: Range) -> Result<(), AllocError> {
    let Some(declared) = app.variables().get(variable.0) else {
        return Ok(());
    };
    let (name, lo, hi, value) = (&declared.name, declared.lo, declared.hi, value.lo);
    write!(
        text,
        "{name} would be {value}, and its range is {lo} to {hi}"
    )
}

/// Appends the value that is sent to a queue, and the range that it isn't in.
fn put_sent(text: &mut String, app: &App, object: ObjId, value: i64) -> Result<(), AllocError> {
    let Some(declared) = app.objects().get(object.0) else {
        return Ok(());
    };
    let name = &declared.name;
    match declared.kind {
        Kind::Queue { lo, hi, .. } => {
            write!(
                text,
                "the value is {value}, and the range of {name} is {lo} to {hi}"
            )
        }
        _ => Ok(()),
    }
}

/// Appends which value is out of which range.
fn put_out(text: &mut String, app: &App, instr: &Instr, state: &State) -> Result<(), AllocError>
    requires { IsWellFormed app.now state.now }
{
    match instr {
        Instr::Set {
            target,
            left,
            operator,
            right,
        } => {
            let (left, right) = (
                operand_in(app, state, *left),
                operand_in(app, state, *right),
            );
            put_set(text, app, *target, span_of(*operator, left, right))
        }
        Instr::Call(
            Call::On(
                ObjectCall {
                    object,
                    act: Act::Try {
                        attempt: Attempt::QueueSend(value),
                        ..
                    },
                    ..
                },
            ),
        ) => put_sent(text, app, *object, operand_in(app, state, *value)),
        _ => Ok(()),
    }
}

/// Appends what the object of the instruction is: live or dead, or which kind.
fn put_object(
    text: &mut String,
    app: &App,
    instr: &Instr,
    state: &State,
    rule: Rule,
) -> Result<(), AllocError>
    requires { IsWellFormed app.now state.now }
{
    let Instr::Call(call) = instr else {
        return Ok(());
    };
    let Some(object) = call.object() else {
        return Ok(());
    };
    let name = object_name(app, object);
    if object.0 < app.objects().len() && rule == Rule::SuitsSemaphore {
        return put_three(text, name, "is a", kind_name(app.kind(object)));
    }
    match content_in(app, state, object) {
        Some(content) if content.is_dead() => put_two(text, name, "is dead"),
        _ => put_two(text, name, "is live"),
    }
}

/// Appends the first mutex that the actor holds.
fn put_mutex(text: &mut String, app: &App, actor: ActorId, state: &State) -> Result<(), AllocError>
    requires { IsWellFormed app.now state.now }
{
    let name = actor_name(app, actor);
    for number in 0..app.objects().len() {
        let object = ObjId(number);
        if state.content(object).count_held(actor) > 0 {
            return put_three(text, name, "holds", object_name(app, object));
        }
    }
    Ok(())
}

/// Appends why the actor can't end here: its depths, a mutex, or that it is a task.
fn put_end(
    text: &mut String,
    app: &App,
    actor: ActorId,
    instr: &Instr,
    state: &State,
) -> Result<(), AllocError>
    requires { IsWellFormed app.now state.now }
{
    let name = actor_name(app, actor);
    let (depth, suspended) = (state.depth(actor), suspension_in(app, state, actor));
    if depth > 0 {
        put_critical(text, name, depth)
    } else if matches!(instr, Instr::Return) {
        put_two(text, name, "is a task")
    } else if suspended > 0 {
        put_suspended(text, name, suspended)
    } else {
        put_mutex(text, app, actor, state)
    }
}

/// Appends what it is in this state that the rule forbids, for the actor before or inside this instruction.
/// Rules 1 and 2 are reported as guards.
fn put_breach(
    text: &mut String,
    app: &App,
    actor: ActorId,
    instr: &Instr,
    state: &State,
    rule: Rule,
) -> Result<(), AllocError>
    requires { IsWellFormed app.now state.now }
{
    let name = actor_name(app, actor);
    let is_resume = matches!(instr, Instr::Call(Call::ResumeAll));
    match rule {
        Rule::OneWriter | Rule::OneReader => Ok(()),
        Rule::GivenByHolder => put_two(text, name, "doesn't hold it"),
        Rule::AllowedInCritical => put_critical(text, name, state.depth(actor)),
        Rule::AllowedSuspended => put_suspended(text, name, suspension_in(app, state, actor)),
        Rule::AllowedInInterrupt => put_two(text, name, "is an interrupt"),
        Rule::DepthAboveZero if is_resume => put_suspended(text, name, 0),
        Rule::DepthAboveZero => put_critical(text, name, 0),
        Rule::EndsInOrder => put_end(text, app, actor, instr, state),
        Rule::InRange => put_out(text, app, instr, state),
        Rule::IsLive | Rule::LifeInOrder | Rule::SuitsSemaphore => {
            put_object(text, app, instr, state, rule)
        }
    }
}

/// What it is in this state that the rule forbids, for the actor of this spot.
pub(super) fn forbidden_text(
    alloc: Global,
    app: &App,
    spot: &Spot,
    state: &State,
    rule: Rule,
) -> Result<String, AllocError>
    requires { IsWellFormed app.now state.now }
{
    let mut text = String::new(alloc);
    put_breach(&mut text, app, spot.point.actor, spot.instr, state, rule)?;
    Ok(text)
}
