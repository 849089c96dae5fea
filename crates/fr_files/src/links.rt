// Where links lead.
use std::io::ErrorKind;
use std::os::unix::fs::MetadataExt;
use std::path::{Path, PathBuf};
use std::{fs, io};

/// How many links are followed, one after the other: as many as Linux follows.
const MOST_LINKS: u32 = 40;

/// What tells a file from all others of the machine.
#[derive(Clone, Copy, PartialEq, Eq)]
pub struct Node {
    device: u64,
    number: u64,
}

impl Node {
    pub fn of(found: &fs::Metadata) -> Node {
        Node {
            device: found.dev(),
            number: found.ino(),
        }
    }
}

/// The file that the path leads to; None where there is none.
pub fn node_at(rt: &HostRuntime, path: Path<'_>) -> io::Result<Option<Node>> {
    match fs::metadata(rt, path) {
        Ok(found) => Ok(Some(Node::of(&found))),
        Err(error) if matches!(error.kind(), ErrorKind::NotFound) => Ok(None),
        Err(error) => Err(error),
    }
}

fn is_link(rt: &HostRuntime, path: Path<'_>) -> io::Result<bool> {
    match fs::symlink_metadata(rt, path) {
        Ok(found) => Ok(found.is_symlink()),
        Err(error) if matches!(error.kind(), ErrorKind::NotFound) => Ok(false),
        Err(error) => Err(error),
    }
}

/// The path behind all links: of a file, or of one that isn't there yet.
pub fn followed(rt: &HostRuntime, path: &str) -> io::Result<PathBuf> {
    let mut at = PathBuf::from_str(rt.alloc(), path)?;
    for _ in 0..MOST_LINKS {
        if !is_link(rt, at.as_path())? {
            return Ok(at);
        }
        let next = fs::read_link(rt, at.as_path())?;
        let _had_name = at.pop();
        at.push(next.as_path())?;
    }
    Err(io::Error::from(ErrorKind::FilesystemLoop))
}
