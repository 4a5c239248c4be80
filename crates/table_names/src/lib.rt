//! The tables and staged files that the nodes of a store name, and the changes that write them.
//!
//! That a table has a node with its state is Apache Accumulo 2.1's; how the node spells it is this project's own.
#![tactic(auto)]

mod changes;
mod draws;
mod laws;
mod marks;
mod parts;
mod paths;
mod staged_nodes;
mod table_nodes;
#[cfg(test)]
mod tests;
mod texts;
mod values;
mod words;

pub use changes::{make_table_op, set_table_op, stage_op, unstage_op};
pub use draws::draw_table;
pub use laws::{
    a_set_table_changes_that_table_alone, a_staged_file_is_told, a_told_table_is_among_all,
    drawn_ids_differ, names_stand_apart, names_stay_apart,
};
pub use staged_nodes::{files_at, staged, staged_files};
pub use table_nodes::{table_by_id, table_by_name, tables, tables_at};
