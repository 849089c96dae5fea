// Why workers gave no verdict.
use thiserror::Error;

/// Why there is no verdict.
#[derive(Clone, Copy, Debug, PartialEq, Eq, Error)]
pub enum ParFault {
    /// Memory was refused.
    #[error("memory was refused")]
    Memory,
    /// The number of workers is 0 or over 64.
    #[error("there are 1 to 64 workers")]
    Workers,
    /// A thread couldn't be started; those that were started have ended.
    #[error("a thread couldn't be started")]
    Threads,
}
