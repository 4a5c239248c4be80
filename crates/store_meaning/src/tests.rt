// The laws, called.
use super::*;
use store_layout::{tables_are_one_to_one, tables_are_spelled_so, words_are_one_to_one};

#[test]
fn laws_of_grounds_hold() {
    grounds_of_an_image_agree();
    a_ground_may_tell_less();
    each_action_changes_one_look_up();
    unused_files_count_for_nothing();
    nodes_aside_count_for_nothing();
    a_root_record_has_one_reading();
    a_new_store_is_readable();
}

#[test]
fn laws_of_states_hold() {
    a_ground_has_one_reading();
    an_image_stands_for_one_state();
    what_does_not_count_changes_no_state();
    what_is_kept_stands();
    unnamed_files_leave_the_state();
    unnamed_files_leave_an_image_kept();
    a_new_store_stands_for_nothing();
    a_small_store_stands_for_its_table();
}

#[test]
fn laws_of_tables_hold() {
    the_state_has_the_online_tables();
    a_table_has_what_its_tablets_have();
    a_key_has_what_its_tablet_has();
    an_import_mark_counts_where_it_is_lacking();
    a_tablet_lacks_a_mark_until_all_is_loaded();
    the_last_layer_counts();
}

#[test]
fn laws_of_writes_hold() {
    a_mutation_adds_its_cells();
    a_written_row_replaces_that_row_alone();
    a_written_row_leaves_a_readable_ground();
    nodes_that_fit_leave_a_readable_ground();
    updates_lead_to_each_row();
    a_new_store_may_be_written();
}

#[test]
fn laws_of_chains_hold() {
    a_written_record_is_one_of_its_table();
    a_row_aside_leaves_a_chain();
    a_replaced_piece_leaves_the_rest();
    a_written_record_replaces_its_piece();
    a_written_row_replaces_a_piece_of_its_chain();
    a_metadata_record_takes_its_place();
    cells_put_count_in_their_table_alone();
}

#[test]
fn laws_of_contents_hold() {
    a_flush_keeps_the_cells();
    replaced_files_keep_the_cells();
    holders_change_no_cells();
    a_narrower_extent_has_its_part_of_the_cells();
    tablets_that_name_nothing_have_no_cells();
}

#[test]
fn laws_of_nodes_hold() {
    words_are_one_to_one();
    tables_are_one_to_one();
    tables_are_spelled_so();
}
