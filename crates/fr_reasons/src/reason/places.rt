// Where all actors stand in a state.
ghost use Rattle.fr_rules.specs.State.{IsWellFormed};

use super::add_item;
use fr_calls::{Place, State};
use fr_program::{ActorId, App};
use fr_wording::{
    Explained, actor_name, actor_place, put_critical, put_suspended, put_two, suspension_in,
};
use std::alloc::{AllocError, Global};

/// Appends where an actor stands, and its depths where they aren't 0.
fn put_actor(text: &mut String, app: &App, actor: ActorId, state: &State) -> Result<(), AllocError>
    requires { IsWellFormed app.now state.now }
{
    let name = actor_name(app, actor);
    match actor_place(app, state, actor) {
        Place::At { pc, side } => write!(text, "{name} {pc} {}", side.text())?,
        Place::Done => put_two(text, name, "is done")?,
    }
    let (depth, suspended) = (state.depth(actor), suspension_in(app, state, actor));
    if depth > 0 {
        text.push_str("; ")?;
        put_critical(text, name, depth)?;
    }
    if suspended > 0 {
        text.push_str("; ")?;
        put_suspended(text, name, suspended)?;
    }
    Ok(())
}

/// Adds where each actor stands, with its depths, an item for each.
pub(super) fn add_actors(
    alloc: Global,
    items: &mut Vec<Explained>,
    app: &App,
    state: &State,
) -> Result<(), AllocError>
    requires { IsWellFormed app.now state.now }
{
    for number in 0..app.actors().len() {
        let mut text = String::new(alloc);
        put_actor(&mut text, app, ActorId(number), state)?;
        add_item(items, Explained::Actor(text))?;
    }
    Ok(())
}
