//! The ground of a store: its nodes, data files and logs, over a host that it owns.
//!
//! Each call that changes something is one durable action, whole or absent in whatever a crash leaves. A ground that has
//! stopped asks nothing of the host any more, and answers the same stop. All of this is this project's own.
#![tactic(auto)]

mod again;
mod drawing;
mod files;
mod ground;
mod log_map;
mod logs;
mod making;
mod nodes;
mod opening;
mod removing;
mod speaking;
mod stop;
mod stopping;

pub use ground::Ground;
pub use making::init_nodes;
pub use opening::open_nodes;
pub use stop::GroundStop;
