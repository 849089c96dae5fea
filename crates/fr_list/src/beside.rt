// Where the files of a list lie.
ghost use Rattle.std.specs.Prelude.{◌≡◌, IfOk, string_bytes};
ghost use Rattle.fr_list.specs.Beside.{beside};

use std::alloc::{AllocError, Global};
use std::path::Path;

/// The path of a file that a list names: relative to the list's folder, if it isn't one from the root on. An error says
/// that an allocation was refused.
pub fn path_beside(alloc: Global, list: &str, path: &str) -> Result<String, AllocError>
    ensures { IfOk result (λ text. string_bytes text ≡ beside list.now path.now) }
{
    match Path::new(list).parent() {
        Some(folder) => Ok(folder.join(alloc, path)?.into_string()),
        None => String::from_str(alloc, path),
    }
}
