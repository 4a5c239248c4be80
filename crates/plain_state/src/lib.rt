//! The one plain state for which a still ground stands, computed, or why there is none.
//!
//! It is for tests, so that they can see the definitions of `store_meaning` at work over whole grounds: it goes by these
//! definitions, one after another, copies what it reads, and is slow. All of it is this project's own.
#![tactic(auto)]

mod catalog;
mod consistent;
mod fault;
mod in_use;
mod listed;
mod log_nodes;
mod logs;
mod marked;
mod order;
mod paths;
mod put;
mod reading;
mod records;
mod same;
mod sorted;
mod staged;
mod state;

pub use fault::StateFault;
pub use state::state_of;
