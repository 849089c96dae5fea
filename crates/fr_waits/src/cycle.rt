// Cycles of waits. The walk goes from an actor to the one that it waits for, and so on, until an actor comes back.
ghost use Rattle.std.specs.Prelude.{◌≡◌, ◌≢◌, ◌<◌, ◌≤◌, ◌++◌, ℕ, nat_lt, length, take, drop, slice_index_or, All, IfOk, IfSome, IfNone};
ghost use Rattle.std.specs.List.{IsFirstBest};
ghost use Rattle.fr_rules.specs.State.{IsWellFormed};
ghost use Rattle.fr_waits.specs.declared.wait.Wait.{Wait as WaitOf};
ghost use Rattle.fr_waits.specs.Waits.{LeadsTo, IsCycle, IsInCycle, BeginsAtLeast, HasEachOnce, IsDeadlocked};

use crate::wait::Wait;
use crate::waiting::waits_for;
use fr_calls::State;
use fr_program::{ActorId, App};
use std::alloc::{AllocError, Global};

/// How many actors the application has.
fn count_actors(app: &App) -> usize
    ensures { result ≡ length app.now.actors }
{
    app.actors().len()
}

/// Where the actor is in the trail, if it is there.
fn place_in(trail: &[Wait], actor: ActorId) -> Option<usize>
    ensures some { IfSome result (λ k. (k < length trail.now) ×
        ((d : WaitOf) → (slice_index_or trail.now k d).actor.0 ≡ actor.0)) }
    ensures none { IfNone result (All (λ w. w.actor.0 ≢ actor.0) trail.now) }
{
    for (k, wait) in trail.iter().enumerate() {
        if wait.actor.0 == actor.0 {
            return Some(k);
        }
    }
    None
}

/// Where the actor with the least number is.
fn place_of_least(cycle: &[Wait]) -> usize
    requires { 0 < length cycle.now }
    ensures { IsFirstBest (λ v w. nat_lt v.actor.0 w.actor.0) cycle.now (length cycle.now) result }
{
    let mut best = 0;
    for i in 1..cycle.len() {
        if cycle[i].actor.0 < cycle[best].actor.0 {
            best = i;
        }
    }
    best
}

/// The waits from this one on, and then those before it.
fn begun_at(alloc: Global, cycle: &[Wait], first: usize) -> Result<Vec<Wait>, AllocError>
    requires { first < length cycle.now }
    ensures { IfOk result (λ v. v.items ≡ drop first cycle.now ++ take first cycle.now) }
{
    let mut waits = Vec::new(alloc);
    waits.extend_from_slice(&cycle[first..])?;
    waits.extend_from_slice(&cycle[..first])?;
    Ok(waits)
}

/// A cycle of waits to which this actor's waits lead, or None where they end at an actor that doesn't
/// wait; then this actor is in no cycle. A cycle begins with the actor that has the least number, and
/// has each actor once. State and actor are of the application. What counts as a deadlock is this
/// project's profile. Its error is that an allocation was refused.
pub fn deadlock_from(
    alloc: Global,
    app: &App,
    state: &State,
    actor: ActorId,
) -> Result<Option<Vec<Wait>>, AllocError>
    requires formed { IsWellFormed app.now state.now }
    requires actor { actor.0 < length app.now.actors }
    ensures cycle { IfOk result (λ found. IfSome found (λ c. IsCycle app.now state.now c.items)) }
    ensures reached { IfOk result
        (λ found. IfSome found (λ c. LeadsTo app.now state.now actor.0 c.items)) }
    ensures least { IfOk result (λ found. IfSome found (λ c. BeginsAtLeast c.items)) }
    ensures once { IfOk result (λ found. IfSome found (λ c. HasEachOnce c.items)) }
    ensures none { IfOk result
        (λ found. IfNone found (IsInCycle app.now state.now actor.0 → ⊥)) }
{
    let mut trail = Vec::new(alloc);
    let mut current = actor;
    let actors = count_actors(app);
    'walk: while trail.len() <= actors {
        if let Some(start) = place_in(&trail, current) {
            let cycle = &trail[start..];
            return Ok(Some(begun_at(alloc, cycle, place_of_least(cycle))?));
        }
        let Some(awaited) = waits_for(app, state, current) else {
            return Ok(None);
        };
        trail.push(Wait {
            actor: current,
            mutex: awaited.mutex,
        })?;
        current = awaited.holder;
    }
    unreachable!()
}

/// A cycle of waits in this state, or None exactly where the state has no deadlock over mutexes. The
/// cycle begins with the actor that has the least number, and has each actor once. Where there are
/// several cycles, which one is given is open. The state is of the application. Its error is that an allocation was refused.
pub fn deadlock_in(alloc: Global, app: &App, state: &State) -> Result<Option<Vec<Wait>>, AllocError>
    requires formed { IsWellFormed app.now state.now }
    ensures cycle { IfOk result (λ found. IfSome found (λ c. IsCycle app.now state.now c.items)) }
    ensures least { IfOk result (λ found. IfSome found (λ c. BeginsAtLeast c.items)) }
    ensures once { IfOk result (λ found. IfSome found (λ c. HasEachOnce c.items)) }
    ensures none { IfOk result (λ found. IfNone found (IsDeadlocked app.now state.now → ⊥)) }
{
    for actor in 0..count_actors(app) {
        if let Some(cycle) = deadlock_from(alloc, app, state, ActorId(actor))? {
            return Ok(Some(cycle));
        }
    }
    Ok(None)
}
