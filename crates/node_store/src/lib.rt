//! The nodes of a cluster: a journalled map from paths to values and versions.
#![tactic(auto)]

mod changes;
mod fold;
mod laws;
mod multi_text;
mod path_map;
mod staged;
mod store;
#[cfg(test)]
mod tests;

pub use changes::{Node, NodeOp, NodeStop};
pub use laws::{node_files_decide, nodes_are_one, stored_nodes_are_there, unborn_stays_unborn};
pub use store::{NodeStore, is_born};
