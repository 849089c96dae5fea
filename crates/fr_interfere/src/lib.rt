// What a point owes to the steps of other actors: none of them disturbs its note. The least point whose steps do is
// looked for among those that the index lists, and by what the notes of many points say together.
#![tactic(auto)]

mod hull;
mod interference;
mod laws;
mod rows;
mod spoilers;
mod staying;

pub use fr_effects::{Index, undisturbed};
pub use hull::{claims_said, cover_ranges, excludes_claim, excludes_range, ranges_said};
pub use interference::{Interference, spoiler_by};
pub use laws::an_index_is_exact;
pub use rows::Hulls;
pub use spoilers::spoiler;
