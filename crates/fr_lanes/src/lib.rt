// What a page shows of an application and of a run: the actors side by side with their code, and the steps of a run as lanes, from the
// start to a breach or a deadlock. The pages of a verdict and of a search (fr_shown) and that of a trace (fr_traces) are put together by
// these calls on a `Body`; the page itself is written by fr_page.
#![tactic(auto)]

mod actors;
mod body;
mod code;
mod steps;

pub use actors::{count_text, put_actors, put_point};
pub use body::{Body, empty_body, page_kind, page_with};
pub use code::Code;
pub use steps::{
    RowPosition, is_shown, omitted_before, put_deadlock, put_end, put_run, put_start, put_step,
    put_tracks, row_of, rule_told,
};
