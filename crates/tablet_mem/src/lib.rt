//! What is kept of a hosted tablet beside its files: the cells that are in no file yet, and the time of its next mutation.
//!
//! That unflushed cells are kept in memory and written to a log first, and that a tablet's times only rise, is Apache
//! Accumulo 2.1's; how the next time is reckoned is this project's own.
#![tactic(auto)]

mod laws;
mod memory;
mod ready;
mod spot;
#[cfg(test)]
mod tests;
mod unflushed;

pub use laws::{
    a_mutation_past_all_cells_counts, newest_cells_stand_for_all, the_cells_are_those_put,
    the_clock_is_the_greatest_time,
};
pub use memory::{Prepared, TabletMem};
