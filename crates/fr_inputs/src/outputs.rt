// The files that a command is asked to write.
ghost use Rattle.std.specs.Prelude.{◌≡◌, IfSome, option_copied, option_map};

use fr_files::{Holds, Output};

/// The file at this path as an output that replaces what this says; None where no file is asked for.
pub fn output_at(path: Option<&str>, replaces: Holds) -> Option<Output<'_>>
    ensures path { option_map (λ output. output.path.now) result ≡ option_copied path.entry }
    ensures replaces { IfSome result (λ output. output.replaces ≡ replaces) }
{
    match path {
        Some(path) => Some(Output { path, replaces }),
        None => None,
    }
}
