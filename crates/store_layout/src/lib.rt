//! What stands where on the disk of a store: the names of its files, the paths of its nodes, and what a new store has.
//!
//! All of this is this project's own, but for the names of Apache Accumulo 2.1's tables and directories.
#![tactic(auto)]

mod counters;
mod first_nodes;
mod laws;
mod names;
mod new_store;
mod tables;
#[cfg(test)]
mod tests;

pub use counters::{draw_ops, next_name_path, next_number};
pub use first_nodes::{a_new_store_begins, first_ops, first_root, root_value};
pub use laws::{
    a_root_value_has_one_record, columns_of_records_are_updates, tables_are_one_to_one,
    tables_are_spelled_so, words_are_one_to_one,
};
pub use names::{file_of, name_of_bytes, nodes_name};
pub use new_store::{first_cells, root_file_name, root_file_path};
pub use tables::{Mark, Phase, TableNode, TableState};
