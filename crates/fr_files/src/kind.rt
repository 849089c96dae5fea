// What is at a path.
ghost use Rattle.std.specs.Prelude.{IfErr};
ghost use Rattle.fr_files.specs.Named.{IsOf};

use crate::fault::FileFault;
use std::fs;
use std::io::ErrorKind;

/// What a path leads to, through all links.
#[derive(Clone, Copy, PartialEq, Eq)]
pub enum Kind {
    /// There is nothing; a link that leads to nothing is this, too.
    Missing,
    /// A regular file.
    Regular,
    /// A folder.
    Folder,
    /// A pipe, a terminal or another device.
    Other,
}

/// What the path leads to. It doesn't wait, and it opens nothing.
///
/// # Errors
///
/// `Memory` where an allocation was refused; `Failed` where the system doesn't tell, as in a folder that can't be searched.
pub fn kind_of(rt: &HostRuntime, path: &str) -> Result<Kind, FileFault>
    ensures { IfErr result (IsOf path.now) }
{
    match fs::metadata(rt, path) {
        Ok(found) if found.is_file() => Ok(Kind::Regular),
        Ok(found) if found.is_dir() => Ok(Kind::Folder),
        Ok(_) => Ok(Kind::Other),
        Err(error) if matches!(error.kind(), ErrorKind::NotFound) => Ok(Kind::Missing),
        Err(error) => Err(FileFault::new(rt.alloc(), path, error)),
    }
}
