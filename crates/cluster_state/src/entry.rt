// A server in the list.
use row_keys::{ServerName, SessionId};

/// A tablet server, live or killed, with the number of tablets that it hosts.
#[derive(Debug, Drop)]
pub struct ServerEntry {
    pub name: ServerName,
    pub session: SessionId,
    /// In ticks of the clock: when it expires, exactly where it was killed.
    pub expires: Option<u64>,
    /// Of a live server; a killed one hosts none.
    pub tablets: u64,
}
