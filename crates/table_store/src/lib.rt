//! The tables of a store, kept in its nodes.
#![tactic(auto)]

mod appending;
mod creating;
mod ids;
mod index;
mod laws;
mod nodes;
mod reading;
mod stop;
mod store;
mod values;

pub use laws::{a_new_store_is_kept, created_is_applied, tables_are_one, texts_are_plain};
pub use store::TableStore;
