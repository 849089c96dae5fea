// Commands over files in memory: `MemoryFiles` are files for `run` of fr_answer whose contracts say exactly what they hold, and the
// tests run each command over them, up to what is printed and written.
#![tactic(auto)]

mod memory;
#[cfg(test)]
mod trials;

pub use memory::MemoryFiles;
