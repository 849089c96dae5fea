// What a verdict may hide (`warnings_for`): points that are never reached, variables and objects that are never used or used one way,
// mutexes that are held for long, updates that can be lost, buffers that are used in critical sections, and an application without
// actors. Contracts say nothing of the words.
#![tactic(auto)]

mod critical;
mod mutexes;
mod reached;
mod updates;
mod uses;
mod warning;

pub use warning::{Warning, warnings_for};
