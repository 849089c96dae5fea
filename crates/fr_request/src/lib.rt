// What a command line asks for, as data: which command of which files, with its numbers, and the form of the answer. The crate
// fr_words makes it from the words; the crates that answer read it.
#![tactic(auto)]

mod detail;
mod format;
mod request;
mod warns;

pub use detail::Detail;
pub use format::{Format, VERSION};
pub use request::{
    CheckRequest, CheckedFiles, FindRequest, FollowRequest, ProveRequest, RefuteRequest, Request,
    RunRequest, TranslateRequest,
};
pub use warns::Warns;
