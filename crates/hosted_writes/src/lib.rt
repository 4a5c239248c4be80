//! A write of cells into a hosted tablet, as one durable action: the memory that it takes is taken first, then its mutation is added to
//! a log, and only then, with no further want of memory, the memory of the tablet has it, and for a row of a level the level's index.
//!
//! That a write is in a log before it counts in memory, and that its time is past all times of its tablet, is Apache Accumulo 2.1's; that
//! all memory is taken before the log is written, so that what a log has is never answered by want of memory, is this project's own.
#![tactic(auto)]

mod laws;
mod level_writes;
mod memories;
mod putting;
mod row_updates;
#[cfg(test)]
mod tests;

pub use laws::{
    a_put_changes_one_memory, a_put_memory_is_the_tablets, a_written_row_stands_in_its_holder,
    other_memories_stay,
};
pub use level_writes::write_level_row;
pub use putting::put_hosted;
pub use row_updates::RowUpdates;
