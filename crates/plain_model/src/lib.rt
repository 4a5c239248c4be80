//! What every operation means: a plain state of tables and staged files, and what each operation makes of it.
//!
//! The state knows no tablets, files, logs or locks. What the operations do is Apache Accumulo 2.1's, where it has them; the
//! plain state, the staged files and the order of refusals are this project's own.
#![tactic(auto)]

mod edits;
mod index;
mod laws;
mod operation;
mod pairs;
mod points;
mod ranges;
mod stop;
mod store;
mod tables;
#[cfg(test)]
mod tests;

pub use laws::{
    clones_stand_apart, delete_rows_absorbs_those_within, histories_join, lists_rise,
    merge_absorbs_merges_within, names_stay_apart, operations_apart_commute,
    refused_is_in_no_history,
};
pub use operation::{Entries, Entry, Op, Pair, Pairs, Source};
pub use stop::PlainStop;
pub use store::PlainStore;
pub use tables::{PlainStaged, PlainTable};
