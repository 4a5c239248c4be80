//! The station of a cluster: the tablet servers and what they host, the rows of every level read and written, and the history of the
//! run.
//!
//! Tablets on servers, write-ahead logs and the levels of tablet records follow Apache Accumulo 2.1; that all servers of a cluster
//! are in one process, and the clock, are this project's own.
#![tactic(auto)]

mod asking;
mod changing;
mod cluster;
mod ending;
mod entries;
mod entry;
mod opening;
mod passing;
mod reading;
mod servers;
mod speaking;
mod starting;
mod writing;

pub use cluster::Cluster;
pub use entry::ServerEntry;
