// Why a ground stands for no state.
ghost use Rattle.std.specs.Prelude.{◌≡◌};
ghost use Rattle.plain_state.specs.declared.fault.StateFault.TheVariants.{NoMemory};

use plain_reader::TableFault;
use row_keys::{LogName, Octets, Path, TableId, TableName};
use state_reader::{ReadFault, Untold};
use std::alloc::AllocError;

/// Why a ground stands for no state: what of the definition fails.
#[derive(Debug, Drop)]
pub enum StateFault {
    /// Its levels can't be read.
    Unread(ReadFault),
    /// The root tablet isn't consistent.
    Root(TableFault),
    /// The tablets of `!0` aren't consistent.
    Metadata(TableFault),
    /// A record names this file or log, of which nothing is told.
    Lacks(Untold),
    /// A flag of a load stands for this file, of which nothing is told.
    LacksFlagged(Path),
    /// A node under `/logs` names this log, of which nothing is told.
    LacksLog(Octets),
    /// A record names this log, and no node under `/logs` does.
    Unlisted(LogName),
    /// A node under `/sorted` names this log, and no node under `/logs` does.
    UnlistedSorted(Octets),
    /// A node under `/sorted` names this log, and its sorted log isn't told, or isn't its stable sort.
    Unsorted(Octets),
    /// A node under `/tables` is no table's.
    StrayTable,
    /// A node under `/staged` is no staged file's.
    StrayFile,
    /// The import mark of a table names this file, of which nothing is told.
    LacksMarked(Path),
    /// The ONLINE table of this id has no state.
    Table(TableId, TableFault),
    /// Two ONLINE tables have this name.
    NameTaken(TableName),
    /// A staged file has this path, of which nothing is told.
    LacksStaged(Path),
    /// No memory for it.
    NoMemory,
}

impl From<AllocError> for StateFault {
    ghost from_gives = { λ _ fault. fault ≡ NoMemory };

    fn from(_: AllocError) -> Self {
        StateFault::NoMemory
    }
}
