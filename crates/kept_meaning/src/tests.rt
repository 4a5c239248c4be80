// The laws, called.
use super::*;

#[test]
fn laws_of_drawn_numbers_hold() {
    a_drawn_name_is_new();
    a_drawn_id_is_new();
    a_drawn_session_is_new();
}

#[test]
fn laws_of_cells_put_hold() {
    cells_put_change_the_state();
    cells_put_keep_the_rest();
    a_pair_of_the_small_store_is_removed();
}

#[test]
fn laws_of_rows_hold() {
    a_row_aside_keeps_the_state();
    rows_are_aside_by_their_form();
    an_unseen_row_keeps_the_state();
    a_record_in_its_place_keeps_the_state();
    a_holder_may_change();
    a_tablet_may_be_flushed();
    files_of_a_tablet_may_be_replaced();
}

#[test]
fn laws_of_upper_rows_hold() {
    a_metadata_row_keeps_the_state();
    the_root_record_keeps_the_state();
}

#[test]
fn laws_of_nodes_hold() {
    a_number_may_be_drawn();
    a_counter_may_rise();
    servers_may_come_and_go();
    a_table_comes_online();
    a_new_table_is_created();
}

#[test]
fn laws_of_images_hold() {
    a_mutation_is_whole_or_absent();
    changed_nodes_are_kept();
    a_file_may_come_before_it_counts();
}
