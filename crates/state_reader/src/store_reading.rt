// What is read of a ground, and why nothing is.
ghost use Rattle.std.specs.Prelude.{◌≡◌};
ghost use Rattle.state_reader.specs.declared.store_reading.ChainFault.TheVariants.{NoMemory as NoRoom};
ghost use Rattle.state_reader.specs.declared.store_reading.ReadFault.TheVariants.{NoMemory};

use crate::level::{BadRow, LevelRows};
use cell_merge::Cells;
use metadata_schema::TabletRecord;
use row_keys::{ListOf, LogName, Path, Row};
use std::alloc::AllocError;

/// What a ground tells, level by level.
#[derive(Debug, Drop)]
pub struct StoreReading {
    /// The record of the root tablet.
    pub root: TabletRecord,
    /// Its cells.
    pub root_cells: Cells,
    /// What these tell of `!0`.
    pub metadata: LevelRows,
    /// The tablets of `!0`, from the last one down.
    pub chain: ListOf<TabletRecord>,
    /// Their cells.
    pub metadata_cells: Cells,
    /// What these tell of all tables.
    pub users: LevelRows,
}

/// A file or log of which nothing is told.
#[derive(Debug, Drop)]
pub enum Untold {
    File(Path),
    Log(LogName),
}

/// Why the cells of tablets of a table aren't told.
#[derive(Debug, Drop)]
pub enum ChainFault {
    /// The tablet of this end row names this file or log.
    Lacks(Option<Row>, Untold),
    /// No memory for them.
    NoMemory,
}

impl From<AllocError> for ChainFault {
    ghost from_gives = { λ _ fault. fault ≡ NoRoom };

    fn from(_: AllocError) -> Self {
        ChainFault::NoMemory
    }
}

/// Why nothing is read of a ground.
#[derive(Debug, Drop)]
pub enum ReadFault {
    /// The node `/root` isn't there, or is no record of the root tablet.
    NoRoot,
    /// The value of `/root` has 2^32 bytes or more, so that no multi can have written it.
    LongRoot,
    /// The root tablet has this lower bound.
    BoundedRoot(Row),
    /// The root tablet names this file or log, of which nothing is told.
    RootLacks(Untold),
    /// The cells of the root tablet tell of no level at this row.
    BadMetadata(BadRow),
    /// The records of `!0` make up no chain.
    NoChain,
    /// The tablet of `!0` with this end row names this file or log, of which nothing is told.
    MetadataLacks(Option<Row>, Untold),
    /// The cells of `!0` tell of no level at this row.
    BadUsers(BadRow),
    /// No memory for it.
    NoMemory,
}

impl From<AllocError> for ReadFault {
    ghost from_gives = { λ _ fault. fault ≡ NoMemory };

    fn from(_: AllocError) -> Self {
        ReadFault::NoMemory
    }
}
