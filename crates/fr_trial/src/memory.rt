// Files in memory.
ghost use Rattle.std.specs.Prelude.{◌≡◌, [], Contains, IfErr, IsTrue, OnOk, map, option_copied, string_bytes};
ghost use Rattle.fr_trial.specs.Memory.{IsFree, IsGiven, IsPut, bytes_at};

use fr_answer::Files;
use fr_files::{FileFault, Output, OutputFault};
use fr_progress::Meter;
use fr_source::{Refused, Translation, translated};
use std::alloc::{AllocError, Global};
use std::collections::BTreeMap;
use std::io::{self, ErrorKind};
use std::marker::Model;
use std::sync::atomic::{AtomicU64, Ordering};

/// Files in memory, of which some may not be replaced. They count how often one is read.
#[derive(Drop)]
pub struct MemoryFiles {
    alloc: Global,
    files: BTreeMap<String, Vec<u8>>,
    protected: Vec<String>,
    reads: AtomicU64,
}

impl Model for MemoryFiles {
    ghost use Rattle.std.specs.Prelude.{map, string_bytes};
    ghost use Rattle.fr_trial.specs.Memory.{Memory, shown};

    ghost Value = { Memory };

    ghost view = { λ m. record { files = map shown m.files.entries; protected = map string_bytes m.protected.items } };
}

/// Whether the path is one of these.
fn is_among(paths: &[String], path: &str) -> bool
    ensures { Contains (map string_bytes paths.now) path.now → IsTrue result }
{
    for other in paths {
        if other.as_str() == path {
            return true;
        }
    }
    false
}

/// Whether the path is one of the inputs, or one of these outputs.
fn is_taken(inputs: &[&str], outputs: &[Option<Output>], path: &str) -> bool {
    inputs.iter().any(|input| *input == path)
        || outputs.iter().flatten().any(|output| output.path == path)
}

impl MemoryFiles {
    /// No files, and these paths that may not be replaced.
    pub fn new(alloc: Global, protected: Vec<String>) -> MemoryFiles
        ensures files { result.files ≡ [] }
        ensures protected { result.protected ≡ map string_bytes protected.items }
    {
        MemoryFiles {
            alloc,
            files: BTreeMap::new(alloc),
            protected,
            reads: AtomicU64::new(0),
        }
    }

    /// Gives the file at this path these bytes. An error says that an allocation was refused; all is as it was then.
    pub fn put(&mut self, path: &str, bytes: &[u8]) -> Result<(), AllocError>
        ensures put { OnOk result (IsPut self.old path.now bytes.now self.new) }
        ensures kept { IfErr result (λ _. self.new ≡ self.old) }
    {
        let path = String::from_str(self.alloc, path)?;
        let bytes = Vec::from_slice(self.alloc, bytes)?;
        self.files.insert(path, bytes)?;
        Ok(())
    }

    /// The bytes of the file at this path; None where there is none. It isn't counted.
    pub fn bytes(&self, path: &str) -> Option<&[u8]>
        ensures { option_copied result ≡ bytes_at self.now path.now }
    {
        match self.files.get(path) {
            Some(bytes) => Some(bytes.as_slice()),
            None => None,
        }
    }

    /// How often a file was read.
    pub fn reads(&self) -> u64 {
        self.reads.load(Ordering::SeqCst)
    }
}

impl Files for MemoryFiles {
    ghost use Rattle.std.specs.Prelude.{◌≤◌, length};

    ghost Gives = { IsGiven };

    ghost Puts = { IsPut };

    ghost Means = { λ _ text. length text ≤ 1048576 };

    ghost May = { IsFree };

    fn read(&self, path: &str, limit: usize) -> Result<Vec<u8>, FileFault> {
        let _before = self.reads.fetch_add(1, Ordering::SeqCst);
        let Some(bytes) = self.bytes(path) else {
            let reason = io::Error::from(ErrorKind::NotFound);
            return Err(FileFault::new(self.alloc, path, reason));
        };
        let given = &bytes[..bytes.len().min(limit + 1)];
        Vec::from_slice(self.alloc, given).map_err(|_| FileFault::Memory)
    }

    fn translate(&self, alloc: Global, path: &str, source: &[u8]) -> Result<Translation, Refused> {
        translated(alloc, path, source)
    }

    fn replace(&mut self, path: &str, bytes: &[u8]) -> Result<(), FileFault> {
        self.put(path, bytes).map_err(|_| FileFault::Memory)
    }

    fn check_outputs(
        &self,
        inputs: &[&str],
        outputs: &[Option<Output>],
    ) -> Result<(), OutputFault> {
        for (number, output) in outputs.iter().enumerate() {
            if let Some(output) = output
                && (is_among(&self.protected, output.path)
                    || is_taken(inputs, &outputs[..number], output.path))
            {
                return Err(OutputFault::Refused);
            }
        }
        Ok(())
    }

    fn meter(&self) -> Option<&Meter> {
        None
    }
}
