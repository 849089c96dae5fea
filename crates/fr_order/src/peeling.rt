// An order of the mutexes in which each edge goes upwards: again and again the first mutex to which no edge leads from one
// that isn't in the order yet.
ghost use Rattle.std.specs.Prelude.{◌≡◌, ◌<◌, ◌↔◌, IsTrue, IfOk, IfSome, IfNone, All, length};
ghost use Rattle.std.specs.List.{HoldsAt};
ghost use Rattle.fr_order.specs.declared.edge.Edge.{Edge as EdgeOf};
ghost use Rattle.fr_order.specs.Graph.{place_in, IsListed};
ghost use Rattle.fr_order.specs.Peeled.{Blocks, HasEnds, IsFree, IsPeeled};

use crate::edge::Edge;
use fr_program::ObjId;
use std::alloc::{AllocError, Global};

/// Mutexes in order, and the rest, to each of which an edge leads from another one of the rest.
#[derive(Drop)]
pub(crate) struct Peeled {
    pub order: Vec<ObjId>,
    pub rest: Vec<ObjId>,
}

/// The first place of the mutex in the list, or the list's length where it isn't in it.
pub(crate) fn place_in(mutexes: &[ObjId], mutex: ObjId) -> usize
    ensures { result ≡ place_in mutexes.now mutex.0 }
{
    for (place, other) in mutexes.iter().enumerate() {
        if other.0 == mutex.0 {
            return place;
        }
    }
    mutexes.len()
}

/// Whether the mutex is in the list.
fn is_listed(mutexes: &[ObjId], mutex: ObjId) -> bool
    ensures { IsTrue result ↔ IsListed mutexes.now mutex.0 }
{
    place_in(mutexes, mutex) < mutexes.len()
}

/// The first edge that leads to the mutex from one that isn't in the order.
pub(crate) fn blocker(edges: &[Edge], order: &[ObjId], mutex: ObjId) -> Option<Edge>
    ensures some { IfSome result (λ e. Blocks edges.now order.now mutex.0 e) }
    ensures none { IfNone result (IsFree edges.now order.now mutex.0) }
{
    for edge in edges {
        if edge.taken.0 == mutex.0 && !is_listed(order, edge.held) {
            return Some(*edge);
        }
    }
    None
}

/// The place of the first mutex of the rest to which no edge leads from one that isn't in the order.
fn first_free(edges: &[Edge], order: &[ObjId], rest: &[ObjId]) -> Option<usize>
    ensures within { IfSome result (λ i. i < length rest.now) }
    ensures some { IfSome result (HoldsAt (λ x. IsFree edges.now order.now x.0) rest.now) }
    ensures none { IfNone result (All (λ x. (e : EdgeOf) × Blocks edges.now order.now x.0 e) rest.now) }
{
    for (place, mutex) in rest.iter().enumerate() {
        if blocker(edges, order, *mutex).is_none() {
            return Some(place);
        }
    }
    None
}

/// Takes the free mutexes out of the rest, as long as there is one, and puts them in order.
pub(crate) fn peel(
    alloc: Global,
    edges: &[Edge],
    mut rest: Vec<ObjId>,
) -> Result<Peeled, AllocError>
    requires { HasEnds edges.now rest.items }
    ensures { IfOk result (λ p. IsPeeled edges.now p.order.items p.rest.items) }
{
    let mut order = Vec::new(alloc);
    'free: while let Some(place) = first_free(edges, &order, &rest) {
        order.push(rest.remove(place))?;
    }
    Ok(Peeled { order, rest })
}
