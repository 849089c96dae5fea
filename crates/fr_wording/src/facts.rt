// What is so in a state, in words.
ghost use Rattle.std.specs.Prelude.{◌≡◌, ◌≤◌, IfSome, None, length};
ghost use Rattle.fr_rules.specs.State.{IsWellFormed, content_of, suspension_of};

use crate::lines::{put_three, put_two};
use crate::shown::{actor_name, object_name, variable_name};
use fr_calls::{Content, State, Stock, value_in};
use fr_notes::Subject;
use fr_program::{ActorId, App, ObjId, VarId};
use std::alloc::{AllocError, Global};
use std::collections::VecDeque;
use std::fmt;

/// The most values of a queue that are written out.
const MOST_VALUES: usize = 8;

/// What the object has in the state; None where the application has no such object.
pub fn content_in<'a>(app: &App, state: &'a State, object: ObjId) -> Option<&'a Content>
    requires { IsWellFormed app.now state.now }
    ensures some { IfSome result (λ content. content.now ≡ content_of state.now object.0) }
    ensures none { result ≡ None → length app.now.objects ≤ object.0 }
{
    if object.0 < app.objects().len() {
        Some(state.content(object))
    } else {
        None
    }
}

/// How deep the actor has suspended the scheduler in the state; 0 where the application has no such actor.
pub fn suspension_in(app: &App, state: &State, actor: ActorId) -> u32
    requires { IsWellFormed app.now state.now }
    ensures { result ≡ suspension_of state.now actor.0 }
{
    if actor.0 < app.actors().len() {
        state.suspension(actor)
    } else {
        0
    }
}

/// Appends that an actor holds a mutex, so often; where that is 0, that it doesn't hold it. Its error is that an allocation was refused. The
/// words are this project's own.
pub fn put_held(
    text: &mut String,
    actor: &str,
    object: &str,
    count: u32,
) -> Result<(), AllocError> {
    match count {
        0 => put_three(text, actor, "doesn't hold", object),
        1 => write!(text, "{actor} holds {object} once"),
        _ => write!(text, "{actor} holds {object} {count} times"),
    }
}

/// Appends how deep an actor is in the critical section, by the actor's name. Its error is that an allocation was refused. The words are this
/// project's own.
pub fn put_critical(text: &mut String, actor: &str, depth: u32) -> Result<(), AllocError> {
    match depth {
        0 => put_two(text, actor, "isn't in the critical section"),
        _ => write!(text, "{actor} is in the critical section at depth {depth}"),
    }
}

/// Appends how deep an actor has suspended the scheduler, by the actor's name. Its error is that an allocation was refused. The words are this
/// project's own.
pub fn put_suspended(text: &mut String, actor: &str, depth: u32) -> Result<(), AllocError> {
    match depth {
        0 => put_two(text, actor, "hasn't suspended the scheduler"),
        _ => write!(text, "{actor} has suspended the scheduler at depth {depth}"),
    }
}

/// Appends a text, and behind it each of the items with a blank before it.
fn put_each<T: fmt::Display>(
    text: &mut String,
    before: &str,
    items: &VecDeque<T>,
) -> Result<(), AllocError> {
    text.push_str(before)?;
    for item in items {
        write!(text, " {item}")?;
    }
    Ok(())
}

/// Appends the values of a queue, the first one first, or how many they are where they are many.
fn put_values(text: &mut String, values: &VecDeque<i64>) -> Result<(), AllocError> {
    match values.len() {
        0 => text.push_str("live, empty"),
        1 => put_each(text, "live, with the value", values),
        2..=MOST_VALUES => put_each(text, "live, with the values", values),
        count => write!(text, "live, with {count} values"),
    }
}

/// Appends the lengths of the messages of a buffer, or how many they are where they are many.
fn put_lengths(text: &mut String, lengths: &VecDeque<u32>) -> Result<(), AllocError> {
    let before = match lengths.len() {
        0 => return text.push_str("live, empty"),
        1 if lengths.front() == Some(&1) => return text.push_str("live, with a message of 1 byte"),
        1 => "live, with a message of",
        2..=MOST_VALUES => "live, with messages of",
        count => return write!(text, "live, with {count} messages"),
    };
    put_each(text, before, lengths)?;
    text.push_str(" bytes")
}

/// Appends what an object has.
fn put_stock(text: &mut String, app: &App, stock: &Stock) -> Result<(), AllocError> {
    match stock {
        Stock::Dead => text.push_str("dead"),
        Stock::Values(values) => put_values(text, values),
        Stock::Count(count) => write!(text, "live, at {count}"),
        Stock::Free => text.push_str("live, free"),
        Stock::Held { holder, count } => {
            let name = actor_name(app, *holder);
            match *count {
                1 => put_two(text, "live, held by", name),
                count => write!(text, "live, held by {name} {count} times"),
            }
        }
        Stock::Bytes(1) => text.push_str("live, with 1 byte"),
        Stock::Bytes(bytes) => write!(text, "live, with {bytes} bytes"),
        Stock::Lengths(messages) => put_lengths(text, messages.lengths()),
    }
}

/// Appends a text and, behind it, what an object has.
pub fn put_content(
    text: &mut String,
    app: &App,
    before: &str,
    content: &Content,
) -> Result<(), AllocError> {
    text.push_str(before)?;
    put_stock(text, app, content.stock())
}

/// Appends what is so in the state of something, for this actor.
fn put_fact(
    text: &mut String,
    app: &App,
    actor: ActorId,
    state: &State,
    subject: Subject,
) -> Result<(), AllocError>
    requires { IsWellFormed app.now state.now }
{
    let name = actor_name(app, actor);
    match subject {
        Subject::Critical => put_critical(text, name, state.depth(actor)),
        Subject::Suspended => put_suspended(text, name, suspension_in(app, state, actor)),
        Subject::Object(object) => {
            text.push_str(object_name(app, object))?;
            match content_in(app, state, object) {
                Some(content) => put_content(text, app, " ", content),
                None => text.push_str(" "),
            }
        }
        Subject::Variable(variable) => {
            let (of, value) = (variable_name(app, variable), value_in(app, state, variable));
            write!(text, "{of} = {value}")
        }
    }
}

/// What is so in the state of something, for this actor: an item of a list. Only the depths are the actor's own. Its error is that an
/// allocation was refused. The words are this project's own.
pub fn fact(
    alloc: Global,
    app: &App,
    actor: ActorId,
    state: &State,
    subject: Subject,
) -> Result<String, AllocError>
    requires { IsWellFormed app.now state.now }
{
    let mut text = String::new(alloc);
    put_fact(&mut text, app, actor, state, subject)?;
    Ok(text)
}

/// Whether something is otherwise after a step of this actor, so that `fact` tells it in other words. Its error is that an allocation was
/// refused.
pub fn has_changed(
    alloc: Global,
    app: &App,
    actor: ActorId,
    before: &State,
    after: &State,
    subject: Subject,
) -> Result<bool, AllocError>
    requires before { IsWellFormed app.now before.now }
    requires after { IsWellFormed app.now after.now }
{
    let was = fact(alloc, app, actor, before, subject)?;
    let is = fact(alloc, app, actor, after, subject)?;
    Ok(was != is)
}
