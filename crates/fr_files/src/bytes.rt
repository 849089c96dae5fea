// Reading the bytes of a reader.
ghost use Rattle.std.specs.Prelude.{◌≤◌, ◌<◌, ◌+◌, ◌^◌, IfOk, vec_len};
ghost use Rattle.std.specs.Io.KnownBytes.{Consumes, IsAtEnd};

use std::alloc::Global;
use std::io;
use std::io::Read;

/// Reads to the end, or to `limit` plus 1 bytes, so that a text that is too long shows as such. Ok is what was read. A
/// read that fails isn't tried again.
pub fn load<R: Read>(alloc: Global, reader: &mut R, limit: usize) -> io::Result<Vec<u8>>
    requires { limit < 2 ^ 32 }
    ensures read { IfOk result
        (λ bytes. Consumes (R.remaining reader.old) (R.remaining reader.new) bytes.items) }
    ensures most { IfOk result (λ bytes. vec_len bytes ≤ limit + 1) }
    ensures whole { IfOk result (λ bytes. vec_len bytes ≤ limit → IsAtEnd (R.remaining reader.new)) }
{
    let mut bytes = Vec::new(alloc);
    let mut chunk = [0u8; 4096];
    while bytes.len() <= limit {
        let want = (limit + 1 - bytes.len()).min(chunk.len());
        let got = match reader.read(&mut chunk[..want]) {
            Ok(0) => return Ok(bytes),
            Ok(got) => got,
            Err(error) => return Err(error),
        };
        bytes.extend_from_slice(&chunk[..got])?;
    }
    Ok(bytes)
}
