//! Cells, and what the keys of some cells have: the value of the cell of greatest time.
//!
//! That the cell of greatest time counts, and that a removal is a cell, is Apache Accumulo 2.1's; the forms are this
//! project's own.
#![tactic(auto)]

mod cell;
mod clipping;
mod latest;
mod laws;
mod merging;
#[cfg(test)]
mod tests;

pub use cell::{Cell, Cells, Pair};
pub use clipping::clip;
pub use laws::{
    appended_cells_count_where_later, clipping_keeps_the_rows_inside,
    covering_cells_keep_the_newest, later_cells_count_over_earlier_ones, merged_cells_are_one_list,
    merged_cells_keep_the_newest, newest_is_one_list, one_later_cell_changes_its_key_alone,
    the_latest_cell_has_the_greatest_time,
};
pub use merging::{merge_sources, newest};
