// Reading a file.
ghost use Rattle.std.specs.Prelude.{◌≤◌, ◌<◌, ◌+◌, ◌^◌, IfErr, IfOk, vec_len};
ghost use Rattle.fr_files.specs.Named.{IsOf};

use crate::bytes::load;
use crate::fault::FileFault;
use std::fs::File;
use std::io;

fn bytes_of(rt: &HostRuntime, path: &str, limit: usize) -> io::Result<Vec<u8>>
    requires { limit < 2 ^ 32 }
    ensures { IfOk result (λ bytes. vec_len bytes ≤ limit + 1) }
{
    let mut file = File::open(rt, path)?;
    load(rt.alloc(), &mut file, limit)
}

/// The file's bytes, at most one more than the limit, so that a text that is too long shows as such.
///
/// # Errors
///
/// `Memory` where an allocation was refused; `Failed` where the file can't be opened, as a missing one, or a read fails.
pub fn read(rt: &HostRuntime, path: &str, limit: usize) -> Result<Vec<u8>, FileFault>
    requires { limit < 2 ^ 32 }
    ensures most { IfOk result (λ bytes. vec_len bytes ≤ limit + 1) }
    ensures named { IfErr result (IsOf path.now) }
{
    match bytes_of(rt, path, limit) {
        Ok(bytes) => Ok(bytes),
        Err(reason) => Err(FileFault::new(rt.alloc(), path, reason)),
    }
}
