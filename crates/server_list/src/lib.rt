//! The tablet servers of a cluster in order of start, live or killed, its clock, and where a tablet is.
//!
//! That a tablet is on the server whose session its `loc` column names is Apache Accumulo 2.1's; the clock, and the expiry
//! 30 ticks after a server was killed, are this project's own.
#![tactic(auto)]

mod entry;
mod list;
#[cfg(test)]
mod tests;

pub use entry::{Place, ServerEntry};
pub use list::ServerList;
