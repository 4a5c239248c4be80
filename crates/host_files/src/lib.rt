//! A host over a real directory, the standard input and the standard output.
#![tactic(auto)]

mod directory;
mod fault_counts;
mod file_fault;
mod files_host;
mod held_file;
#[cfg(test)]
mod tests;

pub use files_host::FilesHost;
