// The exit statuses of a command (this project's profile).

/// The verdict is yes, or what was asked for was printed or found.
pub const DONE: u8 = 0;

/// The verdict is no, or nothing was found.
pub const NO: u8 = 1;

/// The input or the words are refused.
pub const REFUSED: u8 = 2;

/// The machine failed: an allocation, a thread or a file.
pub const MACHINE: u8 = 3;
