// The files of the host.

use fr_answer::Files;
use fr_files::{FileFault, Output, OutputFault, check_outputs, read, replace};
use fr_progress::Meter;
use fr_source::{Refused, Translation, translated};
use std::alloc::Global;

/// The host's files, and the meter of a search. No clause can say what a disk holds.
#[derive(Drop)]
pub struct HostFiles<'a> {
    pub rt: &'a HostRuntime,
    /// Where a search notes how far it is, where that is printed.
    pub meter: Option<&'a Meter>,
}

impl<'a> Files for HostFiles<'a> {
    ghost Gives = { λ _ _ _ _. Unit {0} };

    ghost Puts = { λ _ _ _ _. Unit {0} };

    ghost Means = { λ _ _. Unit {0} };

    ghost May = { λ _ _. Unit {0} };

    fn read(&self, path: &str, limit: usize) -> Result<Vec<u8>, FileFault> {
        read(self.rt, path, limit)
    }

    fn translate(&self, alloc: Global, path: &str, source: &[u8]) -> Result<Translation, Refused> {
        translated(alloc, path, source)
    }

    fn replace(&mut self, path: &str, bytes: &[u8]) -> Result<(), FileFault> {
        replace(self.rt, path, bytes)
    }

    fn check_outputs(
        &self,
        inputs: &[&str],
        outputs: &[Option<Output>],
    ) -> Result<(), OutputFault> {
        check_outputs(self.rt, inputs, outputs)
    }

    fn meter(&self) -> Option<&Meter> {
        self.meter
    }
}
