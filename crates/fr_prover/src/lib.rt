// Certificates that are worked out: notes of all actors that are stable under all steps, with alternatives where one range
// is not enough. What is found fits the application; whether it passes is for the judge to say, so nothing here has to be
// believed.
#![tactic(auto)]

mod candidates;
mod closing;
mod effect;
mod growth;
mod learning;
mod lists;
mod measure;
mod merging;
mod needs;
mod order;
mod place;
mod plan;
mod pool;
mod rising;
mod search;
mod separation;
mod settling;
mod stepping;
mod table;
mod thinning;
mod thresholds;
mod trial;

pub use search::best_certificate;
pub use thinning::thinned;
