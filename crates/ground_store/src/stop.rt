// Why there is no ground.
ghost use Rattle.std.specs.Prelude.{◌≡◌};
ghost use Rattle.host_model.specs.declared.fault.Stop.TheVariants.{Host, NoMemory};
ghost use Rattle.ground_store.specs.declared.stop.GroundStop.TheVariants.{Stop as Stopped};

use host_model::{HostFault, Stop as HostStop};
use std::alloc::AllocError;

/// Why there is no ground.
#[derive(Debug, Drop)]
pub enum GroundStop {
    /// The file of the nodes was never begun.
    NotInit,
    /// The file of the nodes was begun, or a file that no new store has is there.
    NotBlank,
    /// The disk, the memory or the room for it failed, or a file is damaged.
    Stop(HostStop),
}

impl From<HostStop> for GroundStop {
    ghost from_gives = { λ stop answer. answer ≡ Stopped stop };

    fn from(stop: HostStop) -> Self {
        GroundStop::Stop(stop)
    }
}

impl From<HostFault> for GroundStop {
    ghost from_gives = { λ fault answer. answer ≡ Stopped (Host fault) };

    fn from(fault: HostFault) -> Self {
        GroundStop::Stop(HostStop::Host(fault))
    }
}

impl From<AllocError> for GroundStop {
    ghost from_gives = { λ _ answer. answer ≡ Stopped NoMemory };

    fn from(_: AllocError) -> Self {
        GroundStop::Stop(HostStop::NoMemory)
    }
}
