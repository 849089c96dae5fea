// Parts of an application: actors that have nothing to do with those of other parts. The definitions are in specs/Parts.antt.
// `Division::of` divides an application. The laws are functions that do nothing: an application is safe exactly where each of its
// parts alone is, and has no deadlock where no part has one.
#![tactic(auto)]

mod division;
mod laws;

pub use division::Division;
pub use laws::{parts_decide_deadlocks, parts_decide_safety, parts_share_nothing};
