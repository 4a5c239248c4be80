//! The memories of the tablets that are on live servers, by the metadata rows of the tablets: what a server keeps of a tablet beside
//! its files, and which server it is.
//!
//! That a tablet server keeps what was written to its tablets since their last flush in memory, which is lost with the server, is
//! Apache Accumulo 2.1's; that one map has those of all servers is this project's own.
#![tactic(auto)]

mod hosting;
mod memories;
#[cfg(test)]
mod tests;

pub use memories::HostedMemories;
