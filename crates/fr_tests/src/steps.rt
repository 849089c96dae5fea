// Steps of an actor from a state that facts tell, by the calls with which a run takes them.
ghost use Rattle.std.specs.Prelude.{◌<◌, length};
ghost use Rattle.fr_rules.specs.State.{IsWellFormed};

use crate::states::state_in;
use fr_calls::{Rule, State};
use fr_instr::{Names, names_of};
use fr_program::{ActorId, App};
use std::alloc::{AllocError, Global};

/// The state as a text.
fn state_text(alloc: Global, state: &State) -> Result<String, AllocError> {
    format!(in alloc; "{state:?}")
}

/// The state after the actor's step by this choice; `no step` where the choice is none of its choices; and where a step isn't
/// taken, `out of range` since it breaches rule 12, or `too deep` since a depth or a count of the actor's is past 255.
fn after(
    alloc: Global,
    app: &App,
    state: &mut State,
    actor: ActorId,
    choice: i64,
) -> Result<String, AllocError>
    requires formed { IsWellFormed app.now state.old }
    requires actor { actor.0 < length app.now.actors }
{
    if !state.moves(app, actor).has(choice) {
        return String::from_str(alloc, "no step");
    }
    if state.breaches(app, actor, Rule::InRange) {
        return String::from_str(alloc, "out of range");
    }
    if !state.is_shallow(app, actor) {
        return String::from_str(alloc, "too deep");
    }
    state.apply(app, actor, choice)?;
    state_text(alloc, state)
}

/// What an actor's step by its choice leads to from the state that these facts tell.
fn step_text(alloc: Global, app: &App, names: &Names, facts: &str, step: &str) -> Option<String> {
    let (name, choice) = step.split_once(' ')?;
    let (actor, choice) = (names.actor(name)?, choice.parse().ok()?);
    if actor.0 >= app.actors().len() {
        return None;
    }
    let mut state = state_in(alloc, app, names, facts)?;
    after(alloc, app, &mut state, actor, choice).ok()
}

/// Whether these facts tell the state with this text. None where there is no memory.
fn tells(alloc: Global, app: &App, names: &Names, facts: &str, text: &str) -> Option<bool> {
    match &state_in(alloc, app, names, facts) {
        Some(state) => Some(state_text(alloc, state).ok()?.as_str() == text),
        None => Some(false),
    }
}

/// What comes of the step: this answer where it is that, or tells the state to which the step leads.
fn answer_by(
    alloc: Global,
    app: &App,
    names: &Names,
    facts: &str,
    step: &str,
    expected: &str,
) -> Option<String> {
    let got = step_text(alloc, app, names, facts, step)?;
    if tells(alloc, app, names, expected, got.as_str())? {
        String::from_str(alloc, expected).ok()
    } else {
        Some(got)
    }
}

/// The same, by the names of the application.
pub fn step_answer(
    alloc: Global,
    app: &App,
    facts: &str,
    step: &str,
    expected: &str,
) -> Option<String> {
    match &names_of(alloc, app) {
        Ok(names) => answer_by(alloc, app, names, facts, step, expected),
        Err(_) => None,
    }
}
