//! How a row of any level is written, as one durable action: a mutation is added to a log, or the record of the root tablet is set in
//! its node. Either is whole or absent in whatever a crash leaves.
//!
//! That a mutation is written to a log before it counts, and that the root tablet's record is kept apart from all others, are Apache
//! Accumulo 2.1's; that it is the value of one node, spelled as updates, is this project's own.
#![tactic(auto)]

mod cells;
mod fault;
mod laws;
mod logging;
mod setting;
mod stops;
mod updating;

pub use fault::RootFault;
pub use laws::{a_logged_mutation_is_in_the_ground, a_set_root_is_in_the_ground};
pub use logging::log_mutation;
pub use setting::set_root;
pub use updating::updated_root;
