// Whether two paths lead to one file.
ghost use Rattle.std.specs.Prelude.{◌≡◌, ◌⊎◌, IfErr, IfOk, IsTrue};
ghost use Rattle.fr_files.specs.Named.{IsOf};

use crate::fault::FileFault;
use crate::links::{Node, followed, node_at};
use std::io;
use std::path::Path;

/// Where a file that isn't there yet would be: its folder, and its name there.
#[derive(PartialEq, Eq, Drop)]
struct Site {
    folder: Node,
    name: String,
}

/// Where the file would be; None where there is no such folder.
fn site_of(rt: &HostRuntime, path: &str) -> io::Result<Option<Site>> {
    let target = followed(rt, path)?;
    let (Some(folder), Some(name)) = (target.parent(), target.file_name()) else {
        return Ok(None);
    };
    let here = Path::new(".");
    let folder = if folder.as_os_str().is_empty() {
        here
    } else {
        folder
    };
    match node_at(rt, folder)? {
        Some(folder) => {
            let name = String::from_str(rt.alloc(), name)?;
            Ok(Some(Site { folder, name }))
        }
        None => Ok(None),
    }
}

/// The same, where a fault names the file.
fn place_at(rt: &HostRuntime, path: &str) -> Result<Option<Site>, FileFault>
    ensures { IfErr result (IsOf path.now) }
{
    match site_of(rt, path) {
        Ok(place) => Ok(place),
        Err(reason) => Err(FileFault::new(rt.alloc(), path, reason)),
    }
}

/// The file that is there; None where there is none. A fault names the file.
fn found_at(rt: &HostRuntime, path: &str) -> Result<Option<Node>, FileFault>
    ensures { IfErr result (IsOf path.now) }
{
    match node_at(rt, Path::new(path)) {
        Ok(node) => Ok(node),
        Err(reason) => Err(FileFault::new(rt.alloc(), path, reason)),
    }
}

/// Whether two files that aren't there yet would be one.
fn is_same_site(rt: &HostRuntime, a: &str, b: &str) -> Result<bool, FileFault>
    ensures { IfErr result (λ fault. IsOf a.now fault ⊎ IsOf b.now fault) }
{
    match (place_at(rt, a)?, place_at(rt, b)?) {
        (Some(a), Some(b)) => Ok(a == b),
        _ => Ok(false),
    }
}

/// Whether both paths lead to one file, through whatever folders and links: one that is there, by all of its names, or one that
/// would be created.
///
/// # Errors
///
/// `Memory` where an allocation was refused; `Failed` where the system doesn't tell, with the path that it doesn't tell of.
pub fn is_same_file(rt: &HostRuntime, a: &str, b: &str) -> Result<bool, FileFault>
    ensures same { IfOk result (λ same. a.now ≡ b.now → IsTrue same) }
    ensures named { IfErr result (λ fault. IsOf a.now fault ⊎ IsOf b.now fault) }
{
    if a == b {
        return Ok(true);
    }
    match (found_at(rt, a)?, found_at(rt, b)?) {
        (Some(a), Some(b)) => Ok(a == b),
        (None, None) => is_same_site(rt, a, b),
        _ => Ok(false),
    }
}
