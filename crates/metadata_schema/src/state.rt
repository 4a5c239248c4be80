// Where a tablet stands.
ghost use Rattle.std.specs.Prelude.{◌≡◌};
ghost use Rattle.metadata_schema.specs.State.{state_of, is_live};

use crate::tablet::{Holder, TabletRecord};
use row_keys::SessionId;

/// Where a tablet stands, by the sessions of the live servers.
#[derive(Clone, Copy, Debug, PartialEq, Eq, Drop)]
pub enum TabletState {
    /// No server has it or is to have it.
    Unassigned,
    /// A live server is to host it.
    Assigned,
    /// A live server hosts it.
    Hosted,
    /// The server that hosts it, or without one the server that is to, isn't live.
    AssignedToDeadServer,
}

fn is_live(holder: &Holder, sessions: &[SessionId]) -> bool
    ensures { result ≡ is_live sessions.now holder.now }
{
    sessions.contains(&holder.session)
}

/// Where a tablet stands, by the sessions of the live servers: by `loc`, and without one by `future`. Takes no memory; time goes
/// with the number of sessions.
pub fn tablet_state(tablet: &TabletRecord, sessions: &[SessionId]) -> TabletState
    ensures { result ≡ state_of tablet.now.loc tablet.now.future sessions.now }
{
    match (&tablet.loc, &tablet.future) {
        (Some(loc), _) if is_live(loc, sessions) => TabletState::Hosted,
        (None, Some(future)) if is_live(future, sessions) => TabletState::Assigned,
        (None, None) => TabletState::Unassigned,
        _ => TabletState::AssignedToDeadServer,
    }
}
