//! Files of cells, written whole once and then only read.
//!
//! A file has its cells in key order, and an index of where each sixty-fourth of them begins, so that it can be read by
//! blocks. The format is this project's own.
#![tactic(auto)]

mod cell_bytes;
mod data_file;
mod file_bytes;
mod laws;
mod order;
mod sizes;
#[cfg(test)]
mod tests;

pub use data_file::{DataFile, read_file, write_file};
pub use laws::{
    a_file_has_one_list_of_cells, blocks_stand_where_the_index_says,
    cells_of_files_are_written_again, no_cell_begins_another,
};
