//! Tests of what a command line does, over files in memory.
#![tactic(auto)]

mod at_path;
#[cfg(test)]
mod commands;
mod memory_host;

pub use at_path::AtPath;
pub use memory_host::MemoryHost;
