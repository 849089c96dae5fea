// Why a file couldn't be read or written.
ghost use Rattle.std.specs.Prelude.{◌≡◌};
ghost use Rattle.std.specs.IoError.{error_kind};

use std::alloc::Global;
use std::fmt::Write;
use std::io::ErrorKind;
use std::{fmt, io};

/// Why a file couldn't be read or written.
#[derive(Drop)]
pub enum FileFault {
    /// An allocation was refused.
    Memory,
    /// Another reason, and the file as it was named.
    Failed { path: String, reason: io::Error },
}

impl FileFault {
    ghost use Rattle.fr_files.specs.Named.{IsOf};

    /// The fault of the file with this name, for this reason: `Memory` where the reason is want of memory, or where there is
    /// none left to keep the name.
    pub fn new(alloc: Global, path: &str, reason: io::Error) -> FileFault
        ensures of { IsOf path.now result }
        ensures memory { error_kind reason ≡ ErrorKind.OutOfMemory → result ≡ FileFault.Memory }
    {
        if matches!(reason.kind(), ErrorKind::OutOfMemory) {
            return FileFault::Memory;
        }
        match String::from_str(alloc, path) {
            Ok(path) => FileFault::Failed { path, reason },
            Err(_) => FileFault::Memory,
        }
    }
}

/// `PATH: REASON`, with each control character of the path as `\u{1b}` in its place, so that a name can't move a terminal's cursor.
impl fmt::Display for FileFault {
    fn fmt<W: fmt::Write>(&self, f: &mut fmt::Formatter<W>) -> fmt::Result {
        match self {
            FileFault::Memory => write!(f, "out of memory"),
            FileFault::Failed { path, reason } => {
                for c in path.as_str().chars() {
                    if c.is_control() {
                        write!(f, "{}", c.escape_unicode())?;
                    } else {
                        f.write_char(c)?;
                    }
                }
                write!(f, ": {reason}")
            }
        }
    }
}
