// The text of the application that a command was asked about.
use fr_source::Message;
use std::alloc::Global;

/// The text of an application.
#[derive(Drop)]
pub struct AppText {
    pub bytes: Vec<u8>,
    /// What is never reached in the source that the application was translated from, and left out.
    pub left_out: Vec<Message>,
}

impl AppText {
    /// No text.
    pub fn none(alloc: Global) -> AppText {
        AppText {
            bytes: Vec::new(alloc),
            left_out: Vec::new(alloc),
        }
    }
}
