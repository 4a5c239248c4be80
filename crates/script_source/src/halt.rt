// Why a script is heard no further.
ghost use Rattle.std.specs.Prelude.{◌≡◌};
ghost use Rattle.script_source.specs.Hearing.{stop_of};
ghost use Rattle.script_source.specs.declared.halt.Halt.TheVariants.{Fault, NoMemory};

use host_model::{HostFault, Stop};
use std::alloc::AllocError;

/// Why a script is heard no further. It names no file, so that its stop can be answered again.
#[derive(Clone, Copy, Debug, PartialEq, Eq)]
pub enum Halt {
    /// The host could not hear.
    Fault(HostFault),
    /// There was no memory for a line.
    NoMemory,
}

impl Halt {
    /// The stop that it is answered as.
    pub fn stop(self) -> Stop
        ensures { result ≡ stop_of self }
    {
        match self {
            Halt::Fault(fault) => Stop::Host(fault),
            Halt::NoMemory => Stop::NoMemory,
        }
    }
}

impl From<HostFault> for Halt {
    ghost from_gives = { λ fault halt. halt ≡ Fault fault };

    fn from(fault: HostFault) -> Self {
        Halt::Fault(fault)
    }
}

impl From<AllocError> for Halt {
    ghost from_gives = { λ _ halt. halt ≡ NoMemory };

    fn from(_: AllocError) -> Self {
        Halt::NoMemory
    }
}
