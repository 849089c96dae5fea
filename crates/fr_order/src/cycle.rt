// Cycles of edges.
ghost use Rattle.std.specs.Prelude.{◌≡◌, ◌≢◌, ◌<◌, ◌⊎◌, [], IfOk, IfSome, IfNone, All, Contains, length, vec_len};
ghost use Rattle.std.specs.List.{HoldsAt};
ghost use Rattle.fr_order.specs.Graph.{IsCycleOf};
ghost use Rattle.fr_order.specs.Peeled.{AreAmong, IsPeeled};

use crate::edge::Edge;
use crate::peeling::{Peeled, blocker};
use fr_program::ObjId;
use std::alloc::{AllocError, Global};

/// The place of the first of these edges that leads to the mutex.
fn arrival(edges: &[Edge], mutex: ObjId) -> Option<usize>
    ensures within { IfSome result (λ i. i < length edges.now) }
    ensures some { IfSome result (HoldsAt (λ e. e.taken.0 ≡ mutex.0) edges.now) }
    ensures none { IfNone result (All (λ e. e.taken.0 ≢ mutex.0) edges.now) }
{
    for (place, edge) in edges.iter().enumerate() {
        if edge.taken.0 == mutex.0 {
            return Some(place);
        }
    }
    None
}

/// The place of the mutex in the list.
fn found(mutexes: &[ObjId], mutex: ObjId) -> Option<usize>
    ensures within { IfSome result (λ i. i < length mutexes.now) }
    ensures some { IfSome result (HoldsAt (λ x. x.0 ≡ mutex.0) mutexes.now) }
    ensures none { IfNone result (All (λ x. x.0 ≢ mutex.0) mutexes.now) }
{
    for (place, other) in mutexes.iter().enumerate() {
        if other.0 == mutex.0 {
            return Some(place);
        }
    }
    None
}

/// A cycle among the rest, to each mutex of which an edge leads from another one of it: goes from mutex to mutex back along
/// the edges until one comes again.
pub(crate) fn walk(alloc: Global, edges: &[Edge], peeled: &Peeled) -> Result<Vec<Edge>, AllocError>
    requires some { 0 < length peeled.now.rest.items }
    requires peeled { IsPeeled edges.now peeled.now.order.items peeled.now.rest.items }
    ensures { IfOk result (λ cycle. IsCycleOf edges.now cycle.items) }
{
    let mut unvisited = Vec::from_slice(alloc, &peeled.rest)?;
    let mut path = Vec::new(alloc);
    let mut current = peeled.rest[0];
    'walk: while let Some(place) = found(&unvisited, current) {
        unvisited.remove(place);
        let Some(edge) = blocker(edges, &peeled.order, current) else {
            unreachable!()
        };
        path.insert(0, edge)?;
        current = edge.held;
    }
    match arrival(&path, current) {
        Some(last) => {
            path.truncate(last + 1);
            Ok(path)
        }
        None => unreachable!(),
    }
}

/// Adds each edge from the mutex to one that no edge reaches yet.
fn reach(edges: &[Edge], from: ObjId, mut reached: Vec<Edge>) -> Result<Vec<Edge>, AllocError>
    requires { AreAmong edges.now reached.items }
    ensures { IfOk result (λ more. AreAmong edges.now more.items) }
{
    for edge in edges {
        if edge.held.0 == from.0 && arrival(&reached, edge.taken).is_none() {
            reached.push(*edge)?;
        }
    }
    Ok(reached)
}

/// For each mutex that can be reached from the first one an edge that leads to it, on a shortest way; the nearest ones first.
fn reach_all(
    alloc: Global,
    edges: &[Edge],
    mutexes: usize,
    first: ObjId,
) -> Result<Vec<Edge>, AllocError>
    ensures { IfOk result (λ reached. AreAmong edges.now reached.items) }
{
    let mut reached = reach(edges, first, Vec::new(alloc))?;
    for done in 0..mutexes {
        if done < reached.len() {
            let next = reached[done].taken;
            reached = reach(edges, next, reached)?;
        }
    }
    Ok(reached)
}

/// The edges that lead from the mutex back to it, by those over which each mutex is reached; none where it isn't reached.
fn back(
    alloc: Global,
    reached: &[Edge],
    mutexes: usize,
    first: ObjId,
) -> Result<Option<Vec<Edge>>, AllocError>
    ensures { IfOk result (λ found. IfSome found (λ cycle. IsCycleOf reached.now cycle.items)) }
{
    let mut path = Vec::new(alloc);
    let mut current = first;
    'steps: for _ in 0..mutexes {
        let Some(place) = arrival(reached, current) else {
            return Ok(None);
        };
        let edge = reached[place];
        path.insert(0, edge)?;
        current = edge.held;
        if current.0 == first.0 {
            return Ok(Some(path));
        }
    }
    Ok(None)
}

/// A shortest cycle through the mutex.
fn cycle_through(
    alloc: Global,
    edges: &[Edge],
    mutexes: usize,
    first: ObjId,
) -> Result<Option<Vec<Edge>>, AllocError>
    ensures { IfOk result (λ found. IfSome found (λ cycle. IsCycleOf edges.now cycle.items)) }
{
    let reached = reach_all(alloc, edges, mutexes, first)?;
    let found = back(alloc, &reached, mutexes, first)?;
    Ok(found)
}

/// A shortest cycle; of several the one that begins with the least mutex.
pub(crate) fn shortest(
    alloc: Global,
    edges: &[Edge],
    mutexes: usize,
    cycle: Vec<Edge>,
) -> Result<Vec<Edge>, AllocError>
    requires { IsCycleOf edges.now cycle.items }
    ensures { IfOk result (λ shortest. IsCycleOf edges.now shortest.items) }
{
    let mut best = cycle;
    for more in 0..mutexes {
        let first = ObjId(mutexes - 1 - more);
        if let Some(other) = cycle_through(alloc, edges, mutexes, first)? {
            if other.len() <= best.len() {
                best = other;
            }
        }
    }
    Ok(best)
}
