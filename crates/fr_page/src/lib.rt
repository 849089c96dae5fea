// A page to look at: plain data in, the text of one HTML file out (`page_text`). It knows nothing of applications and
// certificates: fr_lanes makes a `Page`, for fr_shown and fr_traces. Each text of a `Page` is escaped by `push_html` of
// fr_escape, whose contract says to the letter what it becomes. The contract of `page_text` says to the letter how a page
// begins (`specs/Whole`): with the mark and the word of its kind, so that it says yes exactly where its kind is `Yes`.
#![tactic(auto)]

mod code;
mod page;
mod run;
mod script;
mod style;
mod whole;
mod writer;

pub use page::{
    ActorAfter, ActorShown, Doing, Kind, LineShown, Moved, Page, PointShown, PointState, Reason,
    RowShown, Track, TrackKind, WaitShown,
};
pub use whole::page_text;
