// What is said of deadlocks over mutexes.
ghost use Rattle.std.specs.Prelude.{◌≡◌, ◌++◌, IfOk, OnOk, flat_map, string_bytes};
ghost use Rattle.fr_report.specs.Waits.{
  cycle_text,
  deadlock_text,
  edge_after,
  edge_text,
  edges_text,
  held_after,
  holder_text,
  name_after,
  next_text,
  order_names,
  order_text,
  wait_text,
};

use fr_found::Deadlocked;
use fr_order::{Edge, Order};
use fr_program::{App, ObjId};
use fr_waits::Wait;
use fr_wording::{actor_name, object_name};
use std::alloc::{AllocError, Global};

/// Appends which mutex an actor waits for.
fn put_wait(text: &mut String, app: &App, wait: Wait) -> Result<(), AllocError>
    ensures { OnOk result (string_bytes text.new ≡ string_bytes text.old ++ wait_text app.now wait) }
{
    let (actor, mutex) = (actor_name(app, wait.actor), object_name(app, wait.mutex));
    write!(text, "{actor} waits for {mutex}")
}

/// Appends a text and a name behind it.
fn put_behind(text: &mut String, before: &str, name: &str) -> Result<(), AllocError>
    ensures { OnOk result (string_bytes text.new ≡ string_bytes text.old ++ (before.now ++ name.now)) }
{
    write!(text, "{before}{name}")
}

/// Appends that the actor is the holder.
fn put_holder(text: &mut String, app: &App, wait: Wait) -> Result<(), AllocError>
    ensures { OnOk result (string_bytes text.new ≡ string_bytes text.old ++ holder_text app.now wait) }
{
    put_behind(text, ", held by ", actor_name(app, wait.actor))
}

/// Appends one wait more, whose actor holds what the one before waits for.
#[tactic(auto, using(std::proofs::Common::append_assoc))]
fn put_next(text: &mut String, app: &App, wait: Wait) -> Result<(), AllocError>
    ensures { OnOk result (string_bytes text.new ≡ string_bytes text.old ++ next_text app.now wait) }
{
    put_holder(text, app, wait)?;
    text.push_str("; ")?;
    put_wait(text, app, wait)
}

/// Appends these waits.
fn put_others(text: &mut String, app: &App, waits: &[Wait]) -> Result<(), AllocError>
    ensures { OnOk result (string_bytes text.new ≡ string_bytes text.old ++ flat_map (next_text app.now) waits.now) }
{
    for wait in waits {
        put_next(text, app, *wait)?;
    }
    Ok(())
}

/// Appends the waits of a cycle: each mutex is held by the actor that comes next.
#[tactic(auto, using(std::proofs::Common::append_assoc))]
fn put_cycle(text: &mut String, app: &App, cycle: &[Wait]) -> Result<(), AllocError>
    ensures { OnOk result (string_bytes text.new ≡ string_bytes text.old ++ cycle_text app.now cycle.now) }
{
    let Some((first, others)) = cycle.split_first() else {
        return Ok(());
    };
    put_wait(text, app, *first)?;
    put_others(text, app, others)?;
    put_holder(text, app, *first)
}

/// What describes a deadlock: who waits for which mutex, who holds it, and after how many steps. Its error is that an allocation was
/// refused. The text's form is this project's own.
#[tactic(auto, using(std::proofs::Common::append_assoc))]
pub fn deadlock_text(alloc: Global, app: &App, found: &Deadlocked) -> Result<String, AllocError>
    ensures { IfOk result (λ text. string_bytes text ≡ deadlock_text app.now found.now) }
{
    let mut text = String::new(alloc);
    put_cycle(&mut text, app, &found.cycle)?;
    let steps = found.steps.len();
    write!(text, ", after {steps} steps")?;
    Ok(text)
}

/// Appends mutexes, each after the same text.
fn put_names(
    text: &mut String,
    app: &App,
    between: &str,
    mutexes: &[ObjId],
) -> Result<(), AllocError>
    ensures { OnOk result
        (string_bytes text.new ≡ string_bytes text.old ++ flat_map (name_after between.now app.now) mutexes.now) }
{
    for mutex in mutexes {
        put_behind(text, between, object_name(app, *mutex))?;
    }
    Ok(())
}

/// Appends the mutexes in their order; nothing where there is none.
#[tactic(auto, using(std::proofs::Common::append_assoc))]
fn put_order(text: &mut String, app: &App, mutexes: &[ObjId]) -> Result<(), AllocError>
    ensures { OnOk result (string_bytes text.new ≡ string_bytes text.old ++ order_names app.now mutexes.now) }
{
    let Some((first, others)) = mutexes.split_first() else {
        return Ok(());
    };
    put_behind(text, ": ", object_name(app, *first))?;
    put_names(text, app, " < ", others)
}

/// Appends where a mutex is taken while another one is held.
fn put_edge(text: &mut String, app: &App, edge: Edge) -> Result<(), AllocError>
    ensures { OnOk result (string_bytes text.new ≡ string_bytes text.old ++ edge_text app.now edge) }
{
    let (actor, pc) = (actor_name(app, edge.point.actor), edge.point.pc);
    let side = edge.point.side.text();
    let (taken, held) = (object_name(app, edge.taken), object_name(app, edge.held));
    write!(text, "{actor} {pc} {side} takes {taken} and holds {held}")
}

/// Appends the mutexes that are held at these places.
fn put_held(text: &mut String, app: &App, edges: &[Edge]) -> Result<(), AllocError>
    ensures { OnOk result (string_bytes text.new ≡ string_bytes text.old ++ flat_map (held_after app.now) edges.now) }
{
    for edge in edges {
        put_behind(text, ", ", object_name(app, edge.held))?;
    }
    Ok(())
}

/// Appends these places.
#[tactic(auto, using(std::proofs::Common::append_assoc))]
fn put_places(text: &mut String, app: &App, edges: &[Edge]) -> Result<(), AllocError>
    ensures { OnOk result (string_bytes text.new ≡ string_bytes text.old ++ flat_map (edge_after app.now) edges.now) }
{
    for edge in edges {
        text.push_str("; ")?;
        put_edge(text, app, *edge)?;
    }
    Ok(())
}

/// Appends a cycle of places: its mutexes, and then each place.
#[tactic(auto, using(std::proofs::Common::append_assoc))]
fn put_edges(text: &mut String, app: &App, edges: &[Edge]) -> Result<(), AllocError>
    ensures { OnOk result (string_bytes text.new ≡ string_bytes text.old ++ edges_text app.now edges.now) }
{
    let Some((first, others)) = edges.split_first() else {
        return Ok(());
    };
    put_behind(text, ": ", object_name(app, first.held))?;
    put_held(text, app, others)?;
    text.push_str(": ")?;
    put_edge(text, app, *first)?;
    put_places(text, app, others)
}

/// The line that says whether actors can deadlock over mutexes, without its newline: `no deadlock` with an order of the mutexes in
/// which each take that waits without limit goes upwards, or `may deadlock` with a cycle of takes. Its error is that an allocation
/// was refused. The line's form is this project's own.
#[tactic(auto, using(std::proofs::Common::append_assoc))]
pub fn order_line(alloc: Global, app: &App, order: &Order) -> Result<String, AllocError>
    ensures { IfOk result (λ line. string_bytes line ≡ order_text app.now order.now) }
{
    match order {
        Order::Upwards(mutexes) => {
            let mut line = String::from_str(alloc, "no deadlock")?;
            put_order(&mut line, app, mutexes)?;
            Ok(line)
        }
        Order::Cycle(edges) => {
            let mut line = String::from_str(alloc, "may deadlock")?;
            put_edges(&mut line, app, edges)?;
            Ok(line)
        }
    }
}
