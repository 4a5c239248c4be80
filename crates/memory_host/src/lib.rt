//! Hosts in memory: one that keeps every moment, and a quiet one.
#![tactic(auto)]

mod crash;
mod event;
mod file_map;
mod memory_host;
mod moments;
mod overlay;
mod pick;
mod plan;
mod quiet_host;
mod script;

pub use memory_host::MemoryHost;
pub use pick::Pick;
pub use quiet_host::QuietHost;

#[cfg(test)]
mod tests;
