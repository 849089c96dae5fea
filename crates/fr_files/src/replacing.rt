// Giving a file other bytes, whole or not at all.
ghost use Rattle.std.specs.Prelude.{IfErr};
ghost use Rattle.fr_files.specs.Named.{IsOf};

use crate::fault::FileFault;
use crate::kind::{Kind, kind_of};
use crate::links::{Node, followed, node_at};
use std::fs::{self, File, Metadata};
use std::io::{ErrorKind, Write};
use std::os::unix::fs::{MetadataExt, fchown};
use std::path::{Path, PathBuf};
use std::{io, process};

/// How many names are tried for the new file.
const MOST_NAMES: u32 = 100;

/// How often an old file is looked at that is another one by then.
const MOST_LOOKS: u32 = 100;

/// The longest name that the new file's name repeats. A name has at most 255 bytes, and 28 are for what is added.
const MOST_REPEATED: usize = 200;

/// What the old file was that the path leads to, if it can be written. It stays as it is.
fn old_file(rt: &HostRuntime, path: &str, target: &PathBuf) -> io::Result<Metadata> {
    for _ in 0..MOST_LOOKS {
        let old = File::options().write(true).open(rt, target.as_path())?;
        let found = old.metadata()?;
        match node_at(rt, Path::new(path))? {
            Some(node) if node == Node::of(&found) => return Ok(found),
            // Another process has replaced it meanwhile.
            _ => {}
        }
    }
    // The link leads to an open file, as those of /dev/fd do, whose name is gone or another file's.
    Err(io::Error::from(ErrorKind::NotFound))
}

/// A new file in the folder of this one, with a name of its own: `.NAME.PROCESS.NUMBER.tmp`.
fn create_beside(rt: &HostRuntime, target: &PathBuf) -> io::Result<(PathBuf, File)> {
    let alloc = rt.alloc();
    let Some(name) = target.file_name() else {
        return Err(io::Error::from(ErrorKind::NotFound));
    };
    let name = if name.len() > MOST_REPEATED {
        "fr_check"
    } else {
        name
    };
    let process = process::id(rt.process());
    for number in 0..MOST_NAMES {
        let mut path = target.clone()?;
        path.set_file_name(&format!(in alloc; ".{name}.{process}.{number}.tmp")?)?;
        match File::create_new(rt, path.as_path()) {
            Ok(file) => return Ok((path, file)),
            Err(error) if matches!(error.kind(), ErrorKind::AlreadyExists) => {}
            Err(error) => return Err(error),
        }
    }
    Err(io::Error::from(ErrorKind::AlreadyExists))
}

/// Gives the new file the old one's owner and group, as far as the system allows, and its permissions.
fn keep_rights(file: &File, old: &Metadata) -> io::Result<()> {
    let new = file.metadata()?;
    if new.uid() != old.uid() || new.gid() != old.gid() {
        let _given = fchown(file, Some(old.uid()), Some(old.gid()));
    }
    if new.permissions() == old.permissions() {
        return Ok(());
    }
    file.set_permissions(old.permissions())
}

/// Fills the new file, and waits until the disk has all of it.
fn fill(file: &mut File, old: &Option<Metadata>, bytes: &[u8]) -> io::Result<()> {
    if let Some(old) = old {
        keep_rights(file, old)?;
    }
    file.write_all(bytes)?;
    file.sync_all()
}

/// Puts a new file with these bytes in the place of the target. If that can't be done, the new file is removed.
fn put(rt: &HostRuntime, target: &PathBuf, old: &Option<Metadata>, bytes: &[u8]) -> io::Result<()> {
    let (path, mut file) = create_beside(rt, target)?;
    let done = match fill(&mut file, old, bytes) {
        Ok(()) => fs::rename(rt, path.as_path(), target.as_path()),
        Err(error) => Err(error),
    };
    if done.is_err() {
        let _removed = fs::remove_file(rt, path.as_path());
    }
    done
}

/// Writes to what is no file, as a pipe or a terminal. It is never read.
fn pour(rt: &HostRuntime, path: &str, bytes: &[u8]) -> io::Result<()> {
    let mut to = File::options().write(true).open(rt, path)?;
    to.write_all(bytes)
}

fn give(rt: &HostRuntime, path: &str, kind: Kind, bytes: &[u8]) -> io::Result<()> {
    match kind {
        Kind::Folder => Err(io::Error::from(ErrorKind::IsADirectory)),
        Kind::Other => pour(rt, path, bytes),
        Kind::Missing => put(rt, &followed(rt, path)?, &None, bytes),
        Kind::Regular => {
            let target = followed(rt, path)?;
            let old = old_file(rt, path, &target)?;
            put(rt, &target, &Some(old), bytes)
        }
    }
}

/// Gives the file these bytes in place of what it had, or creates it: whole, or not at all. A new file beside it gets the bytes,
/// and then the old one's name; until then the old one is as it was, and on an error it stays so, and the new file is removed. A
/// link stays, and the file that it leads to is replaced. The permissions are kept. A pipe, a terminal or another device is
/// written straight.
///
/// # Errors
///
/// `Memory` where an allocation was refused; `Failed` where the path leads to a folder or to a file that can't be written, or
/// where the new file can't be created, filled or renamed.
pub fn replace(rt: &HostRuntime, path: &str, bytes: &[u8]) -> Result<(), FileFault>
    ensures { IfErr result (IsOf path.now) }
{
    let kind = kind_of(rt, path)?;
    match give(rt, path, kind, bytes) {
        Ok(()) => Ok(()),
        Err(reason) => Err(FileFault::new(rt.alloc(), path, reason)),
    }
}
