//! What a cluster does over hosts in memory: with a stop within each call of the host, and how much it asks of the host.
//!
//! It is a trial, and no part of the program. All of it is this project's own.
#![tactic(auto)]

mod counting_host;
mod counts;
#[cfg(test)]
mod tests;

pub use counting_host::CountingHost;
pub use counts::Counts;
