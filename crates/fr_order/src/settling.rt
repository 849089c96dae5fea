// Whether edges go upwards in some order, or close a cycle.
ghost use Rattle.std.specs.Prelude.{◌≡◌, ◌≢◌, true, false, IfOk, All};
ghost use Rattle.fr_order.specs.Graph.{IsEnd};
ghost use Rattle.fr_order.specs.Peeled.{IsWithin, HasEnds};
ghost use Rattle.fr_order.specs.Settled.{IsSettled};

use crate::cycle::{shortest, walk};
use crate::edge::Edge;
use crate::order::Order;
use crate::peeling::peel;
use fr_program::ObjId;
use std::alloc::{AllocError, Global};

/// Whether the mutex is at an end of an edge.
fn is_end(edges: &[Edge], mutex: ObjId) -> bool
    ensures yes { result ≡ true → IsEnd edges.now mutex.0 }
    ensures no { result ≡ false → All (λ e. (e.held.0 ≢ mutex.0) × (e.taken.0 ≢ mutex.0)) edges.now }
{
    for edge in edges {
        if edge.held.0 == mutex.0 || edge.taken.0 == mutex.0 {
            return true;
        }
    }
    false
}

/// The mutexes at the ends of the edges, in the order of their numbers.
fn ends(alloc: Global, edges: &[Edge], mutexes: usize) -> Result<Vec<ObjId>, AllocError>
    requires { IsWithin edges.now mutexes }
    ensures { IfOk result (λ ends. HasEnds edges.now ends.items) }
{
    let mut ends = Vec::new(alloc);
    for number in 0..mutexes {
        let mutex = ObjId(number);
        if is_end(edges, mutex) {
            ends.push(mutex)?;
        }
    }
    Ok(ends)
}

/// An order in which each edge goes upwards; where there is none, a shortest cycle.
pub(crate) fn settle(alloc: Global, edges: &[Edge], mutexes: usize) -> Result<Order, AllocError>
    requires { IsWithin edges.now mutexes }
    ensures { IfOk result (λ order. IsSettled edges.now order) }
{
    let peeled = peel(alloc, edges, ends(alloc, edges, mutexes)?)?;
    if peeled.rest.is_empty() {
        return Ok(Order::Upwards(peeled.order));
    }
    let cycle = walk(alloc, edges, &peeled)?;
    Ok(Order::Cycle(shortest(alloc, edges, mutexes, cycle)?))
}
