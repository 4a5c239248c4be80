//! The chain of a table: the way of its tablets by effective previous rows, and the records that are left over.
//!
//! That a tablet's row names the end row of the one before, and that a split writes the old one beside it for a while, is Apache
//! Accumulo 2.1's; when the old one counts is this project's own.
#![tactic(auto)]

mod changes;
mod effective;
mod ends;
mod laws;
mod left;
#[cfg(test)]
mod tests;
mod way;

pub use changes::{
    a_merge_leaves_one_record_for_its_piece, a_record_of_the_same_extent_takes_its_place,
    a_record_takes_the_place_of_all_that_it_reaches, a_row_taken_out_is_gone,
    a_split_changes_the_chain_with_its_lower_half, a_written_record_takes_its_row,
    linked_rows_are_a_chain_once_whole, records_that_stand_as_before_are_the_chain,
    rows_outside_the_chain_leave_it,
};
pub use effective::effective_prev;
pub use laws::{
    a_chain_is_not_broken, a_table_has_one_chain, each_row_lies_in_one_extent,
    left_over_records_are_one_list, records_are_found_by_name, records_in_row_order_are_distinct,
    tablets_follow_each_other, the_tablets_of_a_range_are_one_piece,
};
pub use left::leftover;
pub use way::chain;
