//! What the cells of one level of tablet records tell, kept in memory: the records of tablets, the paths to be deleted and the
//! flags of loads, by the rows at which they stand. A row that is written changes one entry.
//!
//! That tablet records, `~del` and `~blip` are rows of the metadata table is Apache Accumulo 2.1's; how they are kept in memory is
//! this project's own.
#![tactic(auto)]

mod columns;
mod entry;
mod index;
mod laws;
mod listing;
mod pending;
mod reading;
mod rows;
#[cfg(test)]
mod tests;
mod writing;

pub use index::LevelIndex;
pub use laws::{
    a_row_is_made_once, a_written_index_is_the_level, updates_that_lead_make_the_row,
    updates_without_idle_ones_lead_to_the_row,
};
pub use pending::WriteFault;
pub use writing::PreparedRow;
