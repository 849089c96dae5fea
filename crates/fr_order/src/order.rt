// The order of the mutexes, or a cycle of edges.
ghost use Rattle.std.specs.Prelude.{IfOk};
ghost use Rattle.fr_ends.specs.Fits.{CertificateFits};
ghost use Rattle.fr_order.specs.Order.{IsOrderOf, NamesThings};

use crate::edge::Edge;
use crate::edges::edges_of;
use crate::settling::settle;
use fr_ends::Certificate;
use fr_notes::object_count;
use fr_program::{App, ObjId};
use std::alloc::{AllocError, Global};

/// How the mutexes of an application are taken.
#[derive(Drop)]
pub enum Order {
    /// The mutexes at the ends of edges, each once, in an order in which each edge leads from one of them to a later one. Wherever
    /// the edges leave a choice, the mutex with the least number comes first.
    Upwards(Vec<ObjId>),
    /// Edges that lead from the first one's mutex back to it, as few as there can be: in no order do all edges go upwards. The
    /// cycle begins with the least number of a mutex in it, and each edge has the first of its points.
    Cycle(Vec<Edge>),
}

/// The order in which the application takes its mutexes, by the notes of the certificate, which fits it: `Upwards` where each edge
/// goes upwards in some order, and else `Cycle`. At a point inside a take of a mutex with `portMAX_DELAY` there is an edge from each
/// mutex that some alternative of the point's note holds to the one that is taken. A recursive mutex that its holder takes again
/// gives no edge; a plain one gives an edge from itself to itself.
///
/// Where the certificate passed and the answer is `Upwards`, no state of any run is deadlocked, as
/// `an_order_excludes_deadlock` says. The answer is the same each time. Each point is looked
/// at once, and then, for each object, each point inside a take without limit.
///
/// # Errors
///
/// An allocation was refused.
pub fn order_of(alloc: Global, app: &App, certificate: &Certificate) -> Result<Order, AllocError>
    requires fits { CertificateFits app.now certificate.now }
    ensures order { IfOk result (λ order. IsOrderOf app.now certificate.now order) }
    ensures names { IfOk result (λ order. NamesThings app.now order) }
{
    app.recall_faultless();
    let edges = edges_of(alloc, app, &certificate.notes)?;
    let order = settle(alloc, &edges, object_count(app))?;
    Ok(order)
}
