// Why guards are not the guards of an application's ends.

/// Why guards are refused.
#[derive(Clone, Copy, Debug, PartialEq, Eq)]
pub enum EndsFault {
    /// An allocation was refused. Never given, since `Ends::build` takes no memory.
    Memory,
    /// The buffer is neither a stream nor a message buffer, the mutex is none, two actors of a turn
    /// have one value, or something is named that the application doesn't have.
    Guard,
    /// Two guards are of one end.
    EndTwice,
}
