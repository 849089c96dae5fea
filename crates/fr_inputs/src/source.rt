// A source in a file, translated into the text of an application.
ghost use Rattle.std.specs.Prelude.{◌≡◌, ◌≤◌, IfErr, IfOk, string_bytes};
ghost use Rattle.fr_outcome.specs.Checked.{fault_status};
ghost use Rattle.fr_inputs.specs.Inputs.{AsSource, Reads, is_source};

use crate::files::Files;
use crate::reading::input;
use crate::refusals::refusal_of_source;
use fr_outcome::Refusal;
use fr_source::{MOST_SOURCE_BYTES, Translation};
use std::alloc::Global;

/// Whether the path is that of a source: whether it ends in `.frc`.
pub(crate) fn is_source(path: &str) -> bool
    ensures { result ≡ is_source path.now }
{
    path.as_bytes().ends_with(b".frc")
}

/// The application that the source in this file means. Its error says why the file can't be read, or what is wrong in the source, and where.
pub fn translation<F: Files>(
    alloc: Global,
    files: &F,
    path: &str,
    names: bool,
) -> Result<Translation, Refusal>
    ensures reads { IfOk result
        (λ found. Reads (F.Gives files.now) F.Means AsSource path.now (string_bytes found.text)) }
    ensures fault { IfErr result (λ refusal. 2 ≤ fault_status refusal.fault) }
{
    let source = input(alloc, files, path, MOST_SOURCE_BYTES, names)?;
    match files.translate(alloc, path, &source) {
        Ok(found) => Ok(found),
        Err(refused) => Err(refusal_of_source(alloc, path, refused)),
    }
}
