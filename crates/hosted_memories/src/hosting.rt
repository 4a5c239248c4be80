// Where a hosted tablet is, and its memory.
use row_keys::SessionId;
use tablet_mem::TabletMem;

/// The session of the server that hosts a tablet, and the tablet's memory.
#[derive(Drop)]
pub struct Hosting {
    pub session: SessionId,
    pub memory: TabletMem,
}
