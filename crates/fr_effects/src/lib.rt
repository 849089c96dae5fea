// What the steps of one actor do to the notes of others: what an instruction can change of what they say, whether a step
// disturbs a note, and an index of the points whose steps change something.
#![tactic(auto)]

mod disturbance;
mod effects;
mod index;

pub use disturbance::undisturbed;
pub use effects::{Effect, effect_at, is_free, is_unclaimed, stays};
pub use index::Index;
