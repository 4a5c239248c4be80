//! What each named change of a station does to the plain state for which it stands, and under which guard it keeps what every image
//! keeps. There are definitions and their laws here alone, each law the contract of a call that does nothing.
//!
//! Which changes a station makes follows Apache Accumulo 2.1; how they are told apart is this project's own.
#![tactic(auto)]

mod drawn;
mod example;
mod images;
mod nodes;
mod puts;
mod rows;
#[cfg(test)]
mod tests;
mod upper_rows;

pub use drawn::{a_drawn_id_is_new, a_drawn_name_is_new, a_drawn_session_is_new};
pub use example::a_pair_of_the_small_store_is_removed;
pub use images::{
    a_file_may_come_before_it_counts, a_mutation_is_whole_or_absent, changed_nodes_are_kept,
};
pub use nodes::{
    a_counter_may_rise, a_new_table_is_created, a_number_may_be_drawn, a_table_comes_online,
    servers_may_come_and_go,
};
pub use puts::{cells_put_change_the_state, cells_put_keep_the_rest};
pub use rows::{
    a_holder_may_change, a_record_in_its_place_keeps_the_state, a_row_aside_keeps_the_state,
    a_tablet_may_be_flushed, an_unseen_row_keeps_the_state, files_of_a_tablet_may_be_replaced,
    rows_are_aside_by_their_form,
};
pub use upper_rows::{a_metadata_row_keeps_the_state, the_root_record_keeps_the_state};
