//! The two upper levels of a running store, read from its files and from the memories of its tablets: the records of the metadata
//! table's tablets, which the root tablet has, and those of all other tables' tablets, which the metadata table's tablets have.
//!
//! That a root tablet has the rows of the metadata table's tablets, and those the rows of all tablets, is Apache Accumulo 2.1's;
//! that the root record is a node, and how the cells are read, is this project's own.
#![tactic(auto)]

mod cells;
mod index;
mod levels;
mod nodes_fault;
mod root;
mod stopping;
mod tablets;

pub use levels::{metadata_level, users_level};
pub use root::root_of_nodes;
