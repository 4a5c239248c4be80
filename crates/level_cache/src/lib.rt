//! The records of all levels of a running store, as a cluster asks for them: the root record is a node's, and each of the two upper
//! levels is read from files and memories once, and kept from then on.
//!
//! That the records of tablets stand in three levels is Apache Accumulo 2.1's; that two of them are kept in memory once they have been
//! read is this project's own.
#![tactic(auto)]

mod cache;
mod down;
mod joining;
mod listed;
mod loading;
mod marks;
mod reading;
mod records;
mod root;
mod rows;
mod tables;

pub use cache::LevelCache;
