// Names, places and states in words, for all that a person reads: an actor, an object, a rule, where an actor is with its line of code
// (`Standing`), what is so in a state (`fact`, `state_told`), the listing of an application's points (`points_text`). Why a verdict is no is
// an `Explanation`, a list of values; its text is `explanation_text`. Below it are states (fr_calls) and the writing of a line (fr_instr).
#![tactic(auto)]

mod depths;
mod facts;
mod lines;
mod listing;
mod places;
mod shown;
mod sources;
mod standing;
mod steps;
mod subjects;
mod told;

pub use depths::{Depth, depth_in, depths_of, object_told, state_told};
pub use facts::{
    content_in, fact, has_changed, put_content, put_critical, put_held, put_suspended,
    suspension_in,
};
pub use lines::{add_text, put_listed, put_three, put_two, text_of};
pub use listing::{line_of_code, points_text};
pub use places::{actor_place, standing_at, standing_in};
pub use shown::{actor_name, is_mutex, number_of, object_name, rule_text, variable_name};
pub use sources::{Sources, put_source};
pub use standing::{Line, Standing};
pub use steps::outcome_text;
pub use subjects::{subject_at, subject_count};
pub use told::{Explained, Explanation, Named, ShownState, explanation_text};
