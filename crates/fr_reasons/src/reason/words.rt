// What a note says, and what is so in its place, in words.
ghost use Rattle.fr_rules.specs.State.{IsWellFormed};

use fr_calls::{Content, State, value_in};
use fr_notes::{Alternative, Claim, Subject};
use fr_program::{ActorId, ActorKind, App, Kind, ObjId};
use fr_wording::{
    actor_name, content_in, is_mutex, object_name, put_critical, put_held, put_suspended,
    put_three, put_two, suspension_in, variable_name,
};
use std::alloc::{AllocError, Global};

/// What a person calls an object of this kind.
pub(super) fn kind_name(kind: Kind) -> &'static str {
    match kind {
        Kind::Queue { .. } => "queue",
        Kind::Binary => "binary semaphore",
        Kind::Counting { .. } => "counting semaphore",
        Kind::Mutex => "mutex",
        Kind::Recursive => "recursive mutex",
        Kind::Stream { .. } => "stream buffer",
        Kind::Message { .. } => "message buffer",
    }
}

/// Whether the actor can hold the object: a task can hold mutexes, and nobody can hold anything else.
pub(super) fn can_hold(app: &App, actor: ActorId, object: ObjId) -> bool {
    match app.actors().get(actor.0) {
        Some(actor) => matches!(actor.kind, ActorKind::Task) && is_mutex(app, object),
        None => false,
    }
}

/// Appends a claim of an object.
pub(super) fn put_claim(
    text: &mut String,
    app: &App,
    actor: ActorId,
    object: ObjId,
    claim: Claim,
) -> Result<(), AllocError> {
    let (actor_name, name) = (actor_name(app, actor), object_name(app, object));
    match claim {
        Claim::NotHeld => put_held(text, actor_name, name, 0),
        Claim::Alive if can_hold(app, actor, object) => {
            write!(text, "{name} is live, and {actor_name} doesn't hold it")
        }
        Claim::Alive => put_two(text, name, "is live"),
        Claim::Gone => put_two(text, name, "is dead"),
        Claim::HeldTimes(count) => put_held(text, actor_name, name, count),
    }
}

/// Appends the numbers that a variable can have.
pub(super) fn put_range(
    text: &mut String,
    name: &str,
    lo: i128,
    hi: i128,
) -> Result<(), AllocError> {
    if lo == hi {
        write!(text, "{name} is {lo}")
    } else {
        write!(text, "{name} is from {lo} to {hi}")
    }
}

/// Appends what an alternative of an actor's note says of something.
pub(super) fn put_said(
    text: &mut String,
    app: &App,
    actor: ActorId,
    says: &Alternative,
    subject: Subject,
) -> Result<(), AllocError> {
    let name = actor_name(app, actor);
    match subject {
        Subject::Critical => put_critical(text, name, u32::from(says.critical())),
        Subject::Suspended => put_suspended(text, name, u32::from(says.suspended())),
        Subject::Object(object) => put_claim(text, app, actor, object, says.claim(object)),
        Subject::Variable(variable) => {
            let range = says.range(variable);
            put_range(text, variable_name(app, variable), range.lo, range.hi)
        }
    }
}

/// Appends what an object has, as an answer to a claim: that it is dead or live, or how often the actor
/// holds it.
fn put_against(
    text: &mut String,
    actor: ActorId,
    name: &str,
    object: &str,
    content: &Content,
    claim: Claim,
) -> Result<(), AllocError> {
    let count = content.count_held(actor);
    if content.is_dead() {
        put_two(text, object, "is dead")
    } else if count == 0 && matches!(claim, Claim::Gone) {
        put_two(text, object, "is live")
    } else {
        put_held(text, name, object, count)
    }
}

/// Appends what is so of something, where an alternative of the actor's note says otherwise.
fn put_otherwise(
    text: &mut String,
    app: &App,
    actor: ActorId,
    says: &Alternative,
    state: &State,
    subject: Subject,
) -> Result<(), AllocError>
    requires { IsWellFormed app.now state.now }
{
    let name = actor_name(app, actor);
    match subject {
        Subject::Critical => put_critical(text, name, state.depth(actor)),
        Subject::Suspended => put_suspended(text, name, suspension_in(app, state, actor)),
        Subject::Object(object) => match content_in(app, state, object) {
            Some(content) => {
                let (of, claim) = (object_name(app, object), says.claim(object));
                put_against(text, actor, name, of, content, claim)
            }
            None => Ok(()),
        },
        Subject::Variable(variable) => {
            let value = i128::from(value_in(app, state, variable));
            put_range(text, variable_name(app, variable), value, value)
        }
    }
}

/// What is so of something, where an alternative of the actor's note says otherwise.
pub(super) fn otherwise_text(
    alloc: Global,
    app: &App,
    actor: ActorId,
    says: &Alternative,
    state: &State,
    subject: Subject,
) -> Result<String, AllocError>
    requires { IsWellFormed app.now state.now }
{
    let mut text = String::new(alloc);
    put_otherwise(&mut text, app, actor, says, state, subject)?;
    Ok(text)
}
