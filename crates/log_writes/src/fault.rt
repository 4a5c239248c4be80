// Why the record of the root tablet isn't updated.
ghost use Rattle.std.specs.Prelude.{◌≡◌};
ghost use Rattle.log_writes.specs.declared.fault.RootFault.TheVariants.{NoMemory};

use std::alloc::AllocError;
use thiserror::Error;

/// Why the record of the root tablet isn't updated.
#[derive(Clone, Copy, Debug, PartialEq, Eq, Drop, Error)]
pub enum RootFault {
    /// The columns would be those of no record of the root tablet.
    #[error("columns of no record of the root tablet")]
    BadColumns,
    /// No memory for it.
    #[error("out of memory")]
    NoMemory,
}

impl From<AllocError> for RootFault {
    ghost from_gives = { λ _ fault. fault ≡ NoMemory };

    fn from(_: AllocError) -> Self {
        RootFault::NoMemory
    }
}
