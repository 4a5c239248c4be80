//! The history of a run: the entries that have committed, the one that is offered, and the lines that transactions come from.
//!
//! An entry is offered right before the action of the host that commits it, so that the one that is still offered when a run
//! ends is the one in doubt. All of it is this project's own.
#![tactic(auto)]

mod book;
#[cfg(test)]
mod tests;

pub use book::EntryBook;
