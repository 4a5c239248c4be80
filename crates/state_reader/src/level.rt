// What the cells of a level tell.
ghost use Rattle.std.specs.Prelude.{◌≡◌};
ghost use Rattle.state_reader.specs.declared.level.LevelFault.TheVariants.{NoMemory};

use metadata_schema::TabletRecord;
use row_keys::{ListOf, Path, Paths, Row};
use std::alloc::AllocError;

/// Of which tablets a level tells.
#[derive(Clone, Copy, Debug, PartialEq, Eq)]
pub enum LevelKind {
    /// Those of `!0`: the level of the root tablet's cells.
    Metadata,
    /// Those of all tables: the level of the cells of `!0`.
    Users,
}

/// A flag of a file that is being loaded.
#[derive(Debug, Drop)]
pub struct LoadFlag {
    pub path: Path,
    /// The transaction of the import.
    pub tid: u64,
    /// The number of the file.
    pub number: u64,
}

/// What the cells of a level tell, each row once.
#[derive(Debug, Drop)]
pub struct LevelRows {
    /// The records of tablets.
    pub records: ListOf<TabletRecord>,
    /// The paths of files to be deleted.
    pub candidates: Paths,
    /// The flags of files that are being loaded.
    pub flags: ListOf<LoadFlag>,
}

/// A row at which cells tell of no level.
#[derive(Debug, Drop)]
pub enum BadRow {
    /// What stands at this row of a tablet is no record.
    Tablet(Row),
    /// What stands at this row of a path to be deleted is no candidate.
    Candidate(Row),
    /// What stands at this row of a path that is loaded is no flag.
    Flag(Row),
}

/// Why no level is read.
#[derive(Debug, Drop)]
pub enum LevelFault {
    /// The cells tell of none.
    Bad(BadRow),
    /// No memory for it.
    NoMemory,
}

impl From<AllocError> for LevelFault {
    ghost from_gives = { λ _ fault. fault ≡ NoMemory };

    fn from(_: AllocError) -> Self {
        LevelFault::NoMemory
    }
}
