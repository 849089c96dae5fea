// The meaning of an application: its states, the twelve rules of use and their breaches, the step table, runs, and what
// safe means. The other crates take these definitions from specs/. The code is what needs no state: which rules an actor's
// kind, its depths and its mutexes decide (`first_forbidden`), and where each row of the step table leads (`lands_at`).
#![tactic(auto)]

mod forms;
mod rules;
mod way;

pub use forms::{can_time_out, given_kind};
pub use rules::{Condition, Rule, first_forbidden, forbids, is_at_end, is_unsuited, rule_of};
pub use way::{Landing, Way, lands_at};
