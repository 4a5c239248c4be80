// Why columns are no record's.
ghost use Rattle.std.specs.Prelude.{◌≡◌};
ghost use Rattle.metadata_schema.specs.declared.fault.SchemaFault.TheVariants.{NoMemory};

use std::alloc::AllocError;
use thiserror::Error;

/// Why the columns of a row are no record's. Of several refusals the first in this order is answered.
#[derive(Clone, Copy, Debug, PartialEq, Eq, Drop, Error)]
pub enum SchemaFault {
    /// The column `~tab:~pr` isn't there.
    #[error("no previous row")]
    NoPrev,
    /// A column is none of a tablet's, or a second `loc` or `future` is there.
    #[error("a column of no tablet")]
    BadColumn,
    /// A value isn't of its form, or `srv:dir` or `srv:time` isn't there.
    #[error("a value that isn't of its form")]
    BadValue,
    /// No memory for it.
    #[error("out of memory")]
    NoMemory,
}

impl From<AllocError> for SchemaFault {
    ghost from_gives = { λ _ fault. fault ≡ NoMemory };

    fn from(_: AllocError) -> Self {
        SchemaFault::NoMemory
    }
}
