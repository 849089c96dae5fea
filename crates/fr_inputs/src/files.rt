// The files that a command reads and writes.
ghost use Rattle.std.specs.Prelude.{◌≡◌, ◌<◌, ◌^◌, IfOk, IfErr, OnOk, Some, slice_get, string_bytes};

use fr_files::{FileFault, Output, OutputFault};
use fr_progress::Meter;
use fr_source::{Refused, Translation};
use std::alloc::Global;

/// What a command needs of its host: files by their paths, the host's or others that whoever runs a command has, what a source means, so that
/// the promise of a command can speak of it, and whether somebody watches how far a search is.
pub trait Files {
    ghost use Rattle.std.specs.Prelude.{ℕ, List};

    // The file at this path gives these bytes where it is read up to one byte more than a limit.
    ghost Gives: { Self → List ℕ → ℕ → List ℕ → Type 0 };

    // What the files can be after the one at this path was given these bytes.
    ghost Puts: { Self → List ℕ → List ℕ → Self → Type 0 };

    // These bytes of a source mean the application with this text.
    ghost Means: { List ℕ → List ℕ → Type 0 };

    // The file at this path was looked at, and may be replaced.
    ghost May: { Self → List ℕ → Type 0 };

    /// The bytes of the file at this path, at most one more than the limit. Its error says that the file can't be read, and
    /// why, or that an allocation was refused.
    fn read(&self, path: &str, limit: usize) -> Result<Vec<u8>, FileFault>
        requires { limit < 2 ^ 32 }
        ensures { IfOk result (λ bytes. Gives self.now path.now limit bytes.items) };

    /// The application that these bytes of the source at this path mean. Its error says what is wrong in the source, and where, or that
    /// an allocation was refused.
    fn translate(&self, alloc: Global, path: &str, source: &[u8]) -> Result<Translation, Refused>
        ensures { IfOk result (λ found. Means source.now (string_bytes found.text)) };

    /// Gives the file at this path, which was looked at, these bytes in place of what it had, whole or not at all. Its error says
    /// that it can't be written, and why; all files are as they were then.
    fn replace(&mut self, path: &str, bytes: &[u8]) -> Result<(), FileFault>
        requires { May self.old path.now }
        ensures may { (other : List ℕ) → May self.old other → May self.new other }
        ensures put { OnOk result (Puts self.old path.now bytes.now self.new) }
        ensures kept { IfErr result (λ _. self.new ≡ self.old) };

    /// Looks at the outputs that a command is asked for, before anything is done: none of them may be one of its inputs, another
    /// output, or hold something that isn't to be replaced. Only what passed may be replaced. Its error says what is the case.
    fn check_outputs(&self, inputs: &[&str], outputs: &[Option<Output>]) -> Result<(), OutputFault>
        ensures { OnOk result ((k : ℕ) (output : Output) → slice_get outputs.now k ≡ Some (Some output) → May self.now output.path.now) };

    /// Where a search notes how far it is; None where nobody watches.
    fn meter(&self) -> Option<&Meter>;
}
