//! Write-ahead logs, and the sorted logs that recovery reads.
//!
//! A log is a journal whose records are mutations. That a tablet server logs each mutation before it takes it up, and that
//! recovery sorts a dead server's log first, are Apache Accumulo 2.1's; the bytes are this project's own.
#![tactic(auto)]

mod laws;
mod logs;
mod names;
mod order;
mod payload;
mod records;
mod sorted_bytes;
mod sorted_log;
#[cfg(test)]
mod tests;
mod updates;
mod whole_file;

pub use laws::{
    a_log_has_one_list_of_mutations, a_payload_has_one_mutation, a_sorted_log_has_one_list,
    mutations_have_one_stable_sort, no_mutation_begins_another,
    what_follows_the_closed_gate_is_free,
};
pub use logs::{Log, create_log, mutations};
pub use names::{log_file, sorted_file};
pub use payload::mutation_bytes;
pub use sorted_log::{read_sorted, write_sorted};
pub use updates::{put_updates, take_updates};
