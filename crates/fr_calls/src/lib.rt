// States that run: what an actor can do next (`State::moves`), the state after a step (`State::apply`), and which rules
// of use are breached (`State::breaches`). What a state, a step and a breach are is defined in `fr_rules`, which is handed
// on from here. The laws are functions that do nothing: each is there for its contract.
#![tactic(auto)]

mod breach;
mod content;
mod freedom;
mod laws;
mod moves;
mod state;
mod step;

pub use breach::span_of;
pub use content::{Content, Messages, Stock};
pub use fr_rules::{
    Condition, Landing, Rule, Way, can_time_out, first_forbidden, forbids, given_kind, is_at_end,
    is_unsuited, lands_at, rule_of,
};
pub use laws::{steps_stay_well_formed, the_start_is_well_formed};
pub use moves::Moves;
pub use state::{Place, State, value_in};
