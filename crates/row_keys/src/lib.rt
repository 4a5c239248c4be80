//! Bytes, rows, keys, extents, names and ids, with the lists that hold them.
//!
//! How metadata rows and previous rows are spelled is Apache Accumulo 2.1's; how long rows, names and ids may be is this
//! project's own.
#![tactic(auto)]

mod extent;
mod forms;
mod key;
mod laws;
mod lists;
mod metadata_rows;
mod octets;
mod prev_values;
mod row;
mod spelled;
#[cfg(test)]
mod tests;

pub use extent::Extent;
pub use forms::{
    LogName, LogNameForm, Path, PathForm, ServerName, ServerNameForm, SessionId, SessionIdForm,
    StagedName, StagedNameForm, TableId, TableIdForm, TableName, TableNameForm,
};
pub use key::Key;
pub use laws::{
    keys_are_ordered_by_bytes, metadata_rows_are_one_to_one, prev_values_are_one_to_one,
    ranges_meet_where_they_share, tables_stand_apart, tablets_are_ordered_by_end_row,
};
pub use lists::{ListOf, Paths, Rows, StagedNames, Texts, Words};
pub use metadata_rows::{metadata_row, read_metadata_row};
pub use octets::Octets;
pub use prev_values::{prev_value, read_prev_value};
pub use row::{KeyForm, Row};
pub use spelled::{Form, Spelled};
