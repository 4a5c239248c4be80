// Why a ground stands for no state.
ghost use Rattle.std.specs.Prelude.{◌≡◌};
ghost use Rattle.plain_reader.specs.declared.fault.TableFault.TheVariants.{NoMemory};
ghost use Rattle.plain_reader.specs.declared.fault.PutFault.TheVariants.{NoMemory as NoRoom};

use row_keys::{Path, Row};
use state_reader::Untold;
use std::alloc::AllocError;

/// Why a table has no state.
#[derive(Debug, Drop)]
pub enum TableFault {
    /// Its records make up no chain.
    NoChain,
    /// The tablet of this end row names this file or log, of which nothing is told.
    Lacks(Option<Row>, Untold),
    /// In the tablet of this end row two different cells have the same key and time.
    Twice(Option<Row>),
    /// The import mark names this file, of which nothing is told.
    LacksMarked(Path),
    /// No memory for it.
    NoMemory,
}

impl From<AllocError> for TableFault {
    ghost from_gives = { λ _ fault. fault ≡ NoMemory };

    fn from(_: AllocError) -> Self {
        TableFault::NoMemory
    }
}

/// Why a table isn't put into a state.
#[derive(Debug, Drop)]
pub enum PutFault {
    /// It has no state.
    Table(TableFault),
    /// A table of the state has its name.
    NameTaken,
    /// No memory for it.
    NoMemory,
}

impl From<AllocError> for PutFault {
    ghost from_gives = { λ _ fault. fault ≡ NoRoom };

    fn from(_: AllocError) -> Self {
        PutFault::NoMemory
    }
}
