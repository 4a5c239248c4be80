// A row that is about to be written, and why one isn't.
ghost use Rattle.std.specs.Prelude.{◌≡◌};
ghost use Rattle.level_index.specs.declared.pending.WriteFault.TheVariants.{NoMemory};

use crate::entry::LevelEntry;
use row_keys::Row;
use std::alloc::AllocError;
use thiserror::Error;

/// How far a row is written.
#[derive(Debug, Drop)]
pub enum Pending {
    /// The entry stands at the row, and this is what stood there before.
    Put(Row, Option<LevelEntry>),
    /// What stands at the row is to be removed.
    Removal(Row),
}

/// Why a row isn't written.
#[derive(Clone, Copy, Debug, PartialEq, Eq, Drop, Error)]
pub enum WriteFault {
    /// The row is none of a tablet of the level, of a path to be deleted, or of a path that is loaded.
    #[error("no row of the level")]
    NoRow,
    /// The row's columns would be those of no record, candidate or flag.
    #[error("columns of no record, candidate or flag")]
    BadColumns,
    /// No memory for it.
    #[error("out of memory")]
    NoMemory,
}

impl From<AllocError> for WriteFault {
    ghost from_gives = { λ _ fault. fault ≡ NoMemory };

    fn from(_: AllocError) -> Self {
        WriteFault::NoMemory
    }
}
