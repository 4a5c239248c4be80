// Why an operation isn't done.
ghost use Rattle.std.specs.Prelude.{◌≡◌};
ghost use Rattle.plain_model.specs.declared.stop.PlainStop.TheVariants.{NoMemory};

use std::alloc::AllocError;
use thiserror::Error;

/// Why an operation isn't done. Of several refusals the first in this order is answered.
#[derive(Clone, Copy, Debug, PartialEq, Eq, Drop, Error)]
pub enum PlainStop {
    /// No table has the id.
    #[error("no such table")]
    NoTable,
    /// The new table name, the split point or the staged name is there already.
    #[error("it exists already")]
    Exists,
    /// An imported name isn't staged.
    #[error("no such staged file")]
    NoStaged,
    /// Both bounds are given, and the first isn't below the second.
    #[error("the range is empty or turned")]
    BadRange,
    /// No memory for it. This is no refusal: the operation may be done later.
    #[error("out of memory")]
    NoMemory,
}

impl From<AllocError> for PlainStop {
    ghost from_gives = { λ _ stop. stop ≡ NoMemory };

    fn from(_: AllocError) -> Self {
        PlainStop::NoMemory
    }
}
