// Reading the files that a command names.
ghost use Rattle.std.specs.Prelude.{◌≡◌, ◌≤◌, ◌<◌, ◌^◌, IfOk, IfErr};
ghost use Rattle.fr_outcome.specs.Checked.{fault_status};
ghost use Rattle.fr_inputs.specs.Inputs.{AsApp, Reads};

use crate::files::Files;
use crate::refusals::refusal_of_file;
use crate::source::{is_source, translation};
use fr_outcome::{AppText, Refusal};
use fr_reader::MOST_APPLICATION_BYTES;
use fr_source::Translation;
use std::alloc::Global;

/// The bytes of a file that a command reads, at most one more than the limit. Its error says that the file can't be read; with `names`, which
/// one and why.
pub fn input<F: Files>(
    alloc: Global,
    files: &F,
    path: &str,
    limit: usize,
    names: bool,
) -> Result<Vec<u8>, Refusal>
    requires { limit < 2 ^ 32 }
    ensures gives { IfOk result (λ bytes. F.Gives files.now path.now limit bytes.items) }
    ensures fault { IfErr result (λ refusal. fault_status refusal.fault ≡ 3) }
{
    match files.read(path, limit) {
        Ok(bytes) => Ok(bytes),
        Err(fault) => Err(refusal_of_file(alloc, &fault, names)),
    }
}

/// The text of the application in this file, or that the source in it means, where its name ends in `.frc`. Its error says why the file can't be
/// read, or what is wrong in the source, and where.
pub fn application<F: Files>(
    alloc: Global,
    files: &F,
    path: &str,
    names: bool,
) -> Result<AppText, Refusal>
    ensures reads { IfOk result (λ text. Reads (F.Gives files.now) F.Means AsApp path.now text.bytes.items) }
    ensures fault { IfErr result (λ refusal. 2 ≤ fault_status refusal.fault) }
{
    if is_source(path) {
        let Translation { text, warnings } = translation(alloc, files, path, names)?;
        return Ok(AppText {
            bytes: text.into_bytes(),
            left_out: warnings,
        });
    }
    Ok(AppText {
        bytes: input(alloc, files, path, MOST_APPLICATION_BYTES, names)?,
        left_out: Vec::new(alloc),
    })
}
