// Whether the actors of an application can wait for one another over mutexes: an order of the mutexes, or a cycle, read off a
// certificate. The note of a point says exactly which mutexes its actor holds there, so the edges between mutexes are known
// (`edges`); they go upwards in some order (`peeling`) or close a cycle (`cycle`). Where each edge goes upwards and the
// certificate passed, no state of any run is deadlocked (`laws`, by fr_judge's `certified_is_safe`). What a deadlock is,
// fr_waits says. The crates above print the answer of `order_of`.
#![tactic(auto)]

mod cycle;
mod edge;
mod edges;
mod laws;
mod order;
mod peeling;
mod settling;

pub use edge::Edge;
pub use laws::an_order_excludes_deadlock;
pub use order::{Order, order_of};
