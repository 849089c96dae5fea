// How far a search is, for somebody who waits for it: the search notes numbers as it goes on, and another thread makes a line of them.
#![tactic(auto)]

mod meter;

pub use meter::Meter;
