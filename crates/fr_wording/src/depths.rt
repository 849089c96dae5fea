// What an actor can be deep in, and what is so of everything else: a state, as a picture of a run shows it.
ghost use Rattle.fr_rules.specs.State.{IsWellFormed};

use crate::facts::{content_in, fact, put_content, suspension_in};
use crate::lines::add_text;
use crate::shown::{is_mutex, object_name};
use crate::subjects::{subject_at, subject_count};
use fr_calls::State;
use fr_notes::Subject;
use fr_program::{ActorId, App, ObjId};
use std::alloc::{AllocError, Global};

/// What an actor can be deep in.
#[derive(Clone, Copy)]
pub enum Depth {
    Critical,
    Suspended,
    /// A mutex, plain or recursive.
    Held(ObjId),
}

/// All that an actor of the application can be deep in: the critical section, suspension, and each mutex. Its error is that an allocation was
/// refused.
pub fn depths_of(alloc: Global, app: &App) -> Result<Vec<Depth>, AllocError> {
    let mut depths = Vec::new(alloc);
    depths.push(Depth::Critical)?;
    depths.push(Depth::Suspended)?;
    for number in 0..app.objects().len() {
        if is_mutex(app, ObjId(number)) {
            depths.push(Depth::Held(ObjId(number)))?;
        }
    }
    Ok(depths)
}

/// How deep an actor is in it in the state; 0 where the application has no such actor or mutex.
pub fn depth_in(app: &App, state: &State, actor: ActorId, depth: Depth) -> u32
    requires { IsWellFormed app.now state.now }
{
    match depth {
        Depth::Critical => state.depth(actor),
        Depth::Suspended => suspension_in(app, state, actor),
        Depth::Held(object) => match content_in(app, state, object) {
            Some(content) => content.count_held(actor),
            None => 0,
        },
    }
}

/// What each object and each variable is in the state, in words, an item each. Its error is that an allocation was refused. The words are this
/// project's own.
pub fn state_told(alloc: Global, app: &App, state: &State) -> Result<Vec<String>, AllocError>
    requires { IsWellFormed app.now state.now }
{
    let mut told = Vec::new(alloc);
    for place in 0..subject_count(app) {
        let subject = subject_at(app, place);
        if matches!(subject, Subject::Object(_) | Subject::Variable(_)) {
            add_text(&mut told, fact(alloc, app, ActorId(0), state, subject)?)?;
        }
    }
    Ok(told)
}

/// What the object has in the state, in words; no text where the application has no such object. Its error is that an allocation was refused.
/// The words are this project's own.
pub fn object_told(
    alloc: Global,
    app: &App,
    state: &State,
    object: ObjId,
) -> Result<String, AllocError>
    requires { IsWellFormed app.now state.now }
{
    let mut text = String::new(alloc);
    if let Some(content) = content_in(app, state, object) {
        text.push_str(object_name(app, object))?;
        put_content(&mut text, app, " is ", content)?;
    }
    Ok(text)
}
