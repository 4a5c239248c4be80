// A server, and a place on one.
use row_keys::{ServerName, SessionId};

/// A tablet server.
#[derive(Debug, Drop)]
pub struct ServerEntry {
    pub name: ServerName,
    pub session: SessionId,
    /// In ticks of the clock: when it expires, exactly where it was killed.
    pub expires: Option<u64>,
}

/// Where a tablet is.
#[derive(Debug, Drop)]
pub enum Place {
    /// On this live server.
    Live(ServerName),
    /// On this server, which was killed and expires at this value of the clock.
    Unreachable(ServerName, u64),
    /// On no server, or on one that has expired or isn't in the list.
    Unhosted,
}
