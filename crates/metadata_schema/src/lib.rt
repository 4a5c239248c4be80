//! Tablet records, the columns of a metadata row that spell them, and the updates that lead from one record to another.
//!
//! The columns are Apache Accumulo 2.1's, cut to what this project has; how their values are spelled is this project's own.
#![tactic(auto)]

mod between;
mod copies;
mod fault;
mod files;
mod holders;
mod kind;
mod laws;
mod lists;
mod loaded;
mod logs;
mod mutation;
mod numbers;
mod parts;
mod paths;
mod reading;
#[cfg(test)]
mod reading_tests;
mod singles;
mod state;
mod tablet;
#[cfg(test)]
mod tests;
mod writing;

pub use between::updates_between;
pub use fault::SchemaFault;
pub use laws::{
    columns_are_in_order, columns_of_records_are_read, new_tablets_are_well_formed,
    numbers_have_one_spelling, paths_have_one_spelling, records_are_one_to_one,
    rows_have_one_record, updates_lead_to_the_new_columns,
};
pub use mutation::{Mutation, Update, Updates};
pub use paths::{is_drawn_text, is_file_path};
pub use reading::record_of;
pub use state::{TabletState, tablet_state};
pub use tablet::{
    FileEntries, FileEntry, Holder, LoadedEntries, LoadedEntry, LogNames, TabletRecord,
};
pub use writing::columns_of;
