//! The plain state for which a still ground stands, computed.
//!
//! Each function's contract is the definition of `store_meaning` that it computes, so that tests can see these definitions at
//! work. All of it is this project's own.
#![tactic(auto)]

mod consistent;
mod fault;
mod lists;
#[cfg(test)]
mod made;
mod marks;
mod parts;
mod put;
mod stands;
mod table;
#[cfg(test)]
mod tests;

pub use fault::{PutFault, TableFault};
pub use parts::TableParts;
pub use stands::put_table;
pub use table::table_parts;
