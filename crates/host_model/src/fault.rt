// What a call of a host may answer in place of its work.
ghost use Rattle.std.specs.Prelude.{◌≡◌};
ghost use Rattle.host_model.specs.declared.fault.Stop.TheVariants.{Host, NoMemory};

use crate::Name;
use std::alloc::AllocError;

/// A fault of the outside. Each is counted by the host that answers it.
#[derive(Clone, Copy, Debug, PartialEq, Eq)]
pub enum HostFault {
    /// A file, or the directory, could not be read or written.
    Disk,
    /// The script could not be heard.
    Source,
    /// A reply could not be said.
    Sink,
    /// The host found no memory for the call.
    Memory,
}

/// Why work was stopped. A value that answered one is not used again, or answers the same one.
#[derive(Debug, Drop)]
pub enum Stop {
    /// The host answered a fault.
    Host(HostFault),
    /// The file of this name isn't there, or its bytes aren't in its grammar.
    Damaged(Name),
    /// A journal would pass its greatest length, a record would be too long, or a number would reach its end.
    Full,
    /// The program found no memory.
    NoMemory,
}

impl From<HostFault> for Stop {
    ghost from_gives = { λ fault stop. stop ≡ Host fault };

    fn from(fault: HostFault) -> Self {
        Stop::Host(fault)
    }
}

impl From<AllocError> for Stop {
    ghost from_gives = { λ _ stop. stop ≡ NoMemory };

    fn from(_: AllocError) -> Self {
        Stop::NoMemory
    }
}
