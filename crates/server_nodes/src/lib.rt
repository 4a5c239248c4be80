//! The nodes of tablet servers and of their logs: a server starts under a new session, is taken out, and those of an earlier run
//! go.
//!
//! A server's node `/servers/NAME` has its session, which is a drawn number in 16 hexadecimal digits; `/logs/SESSION` has the name
//! of its log. Each call is an event of the ground that is whole or absent in whatever a crash leaves. All of it is this project's
//! own.
#![tactic(auto)]

mod ending;
mod laws;
mod paths;
mod planning;
mod sessions;
mod starting;
mod stops;

pub use ending::{clear, end};
pub use laws::{a_server_may_start, servers_may_be_taken_out};
pub use starting::start;
