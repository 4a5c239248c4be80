//! Queues of locks on tables: which transaction may work on a table, and which has to wait for which.
//!
//! Locks by numbered nodes, of the kinds READ and WRITE, are those of Apache Accumulo 2.1's distributed read-write lock.
#![tactic(auto)]

mod entry_text;
mod grants;
mod laws;
mod queues;
#[cfg(test)]
mod tests;

pub use grants::{LockEntry, LockKind, granted};
pub use laws::{earlier_first, first_is_granted, reads_go_together};
pub use queues::{queue, release_op};
