// A guard, in words.
ghost use Rattle.fr_rules.specs.State.{IsWellFormed};

use fr_calls::{State, value_in};
use fr_ends::Guard;
use fr_notes::Subject;
use fr_program::{ActorId, App, VarId};
use fr_wording::{
    actor_name, object_name, put_critical, put_held, put_three, put_two, variable_name,
};
use std::alloc::{AllocError, Global};
use std::collections::BTreeMap;

/// What the guard names: its mutex or its variable.
pub(super) fn guarded_by(guard: &Guard) -> Option<Subject> {
    match guard {
        Guard::Mutex(mutex) => Some(Subject::Object(*mutex)),
        Guard::Turn(variable, _) => Some(Subject::Variable(*variable)),
        Guard::Sole(_) | Guard::Critical => None,
    }
}

/// Appends who has a turn at which value.
fn put_turns(
    text: &mut String,
    app: &App,
    variable: VarId,
    values: &BTreeMap<ActorId, i64>,
) -> Result<(), AllocError> {
    text.push_str("the actor whose turn it is:")?;
    let (name, mut is_first) = (variable_name(app, variable), true);
    for (actor, value) in values {
        let (who, before) = (actor_name(app, *actor), if is_first { "" } else { "," });
        write!(text, "{before} {who} where {name} is {value}")?;
        is_first = false;
    }
    Ok(())
}

/// Appends who may be inside a call at the end of a buffer.
fn put_guard(text: &mut String, app: &App, guard: &Guard) -> Result<(), AllocError> {
    match guard {
        Guard::Sole(actor) => put_two(text, actor_name(app, *actor), "alone"),
        Guard::Mutex(mutex) => put_two(text, "whoever holds", object_name(app, *mutex)),
        Guard::Critical => text.push_str("whoever is in the critical section"),
        Guard::Turn(variable, values) => put_turns(text, app, *variable, values),
    }
}

/// Who may be inside a call at the end of a buffer.
pub(super) fn guard_text(alloc: Global, app: &App, guard: &Guard) -> Result<String, AllocError> {
    let mut text = String::new(alloc);
    put_guard(&mut text, app, guard)?;
    Ok(text)
}

/// Appends why the actor doesn't have the guard in the state.
fn put_unguarded(
    text: &mut String,
    app: &App,
    guard: &Guard,
    actor: ActorId,
    state: &State,
) -> Result<(), AllocError>
    requires { IsWellFormed app.now state.now }
{
    let name = actor_name(app, actor);
    match guard {
        Guard::Sole(only) => put_three(text, name, "isn't", actor_name(app, *only)),
        Guard::Mutex(mutex) => put_held(text, name, object_name(app, *mutex), 0),
        Guard::Critical => put_critical(text, name, state.depth(actor)),
        Guard::Turn(variable, _) => {
            let (of, value) = (
                variable_name(app, *variable),
                value_in(app, state, *variable),
            );
            write!(text, "{of} is {value}, so that it isn't the turn of {name}")
        }
    }
}

/// Why the actor doesn't have the guard in the state.
pub(super) fn unguarded_text(
    alloc: Global,
    app: &App,
    guard: &Guard,
    actor: ActorId,
    state: &State,
) -> Result<String, AllocError>
    requires { IsWellFormed app.now state.now }
{
    let mut text = String::new(alloc);
    put_unguarded(&mut text, app, guard, actor, state)?;
    Ok(text)
}
