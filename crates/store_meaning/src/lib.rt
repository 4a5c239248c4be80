//! What a still image of a store means: its nodes and files as four look-ups, the levels of tablet records that these give,
//! which images can be read, and for which plain state one stands. There are definitions and their laws here alone, each law the
//! contract of a call that does nothing.
//!
//! The levels, the columns and what a tablet's cells are follow Apache Accumulo 2.1; all else is this project's own.
#![tactic(auto)]

mod aside;
mod chain_writes;
mod contents;
mod example;
mod laws;
mod stands;
mod tables;
#[cfg(test)]
mod tests;
mod writes;

pub use aside::{unnamed_files_leave_an_image_kept, unnamed_files_leave_the_state};
pub use chain_writes::{
    a_metadata_record_takes_its_place, a_replaced_piece_leaves_the_rest,
    a_row_aside_leaves_a_chain, a_written_record_is_one_of_its_table,
    a_written_record_replaces_its_piece, a_written_row_replaces_a_piece_of_its_chain,
    cells_put_count_in_their_table_alone,
};
pub use contents::{
    a_flush_keeps_the_cells, a_narrower_extent_has_its_part_of_the_cells, holders_change_no_cells,
    replaced_files_keep_the_cells, tablets_that_name_nothing_have_no_cells,
};
pub use example::a_small_store_stands_for_its_table;
pub use laws::{
    a_ground_may_tell_less, a_new_store_is_readable, a_root_record_has_one_reading,
    each_action_changes_one_look_up, grounds_of_an_image_agree, nodes_aside_count_for_nothing,
    unused_files_count_for_nothing,
};
pub use stands::{
    a_ground_has_one_reading, a_new_store_stands_for_nothing, an_image_stands_for_one_state,
    what_does_not_count_changes_no_state, what_is_kept_stands,
};
pub use tables::{
    a_key_has_what_its_tablet_has, a_table_has_what_its_tablets_have,
    a_tablet_lacks_a_mark_until_all_is_loaded, an_import_mark_counts_where_it_is_lacking,
    the_last_layer_counts, the_state_has_the_online_tables,
};
pub use writes::{
    a_mutation_adds_its_cells, a_new_store_may_be_written, a_written_row_leaves_a_readable_ground,
    a_written_row_replaces_that_row_alone, nodes_that_fit_leave_a_readable_ground,
    updates_lead_to_each_row,
};
