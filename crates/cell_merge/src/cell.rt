// A cell, and a pair.
ghost use Rattle.std.specs.Prelude.{◌≡◌, IfOk};

use row_keys::{Key, ListOf, Octets};
use std::alloc::{AllocError, Global};

/// What was written at a key at a time: a value, or that the key's value is removed.
#[derive(Debug, PartialEq, Eq, Drop)]
pub struct Cell {
    /// The key.
    pub key: Key,
    /// When it was written, in ticks of the tablet's logical time.
    pub time: u64,
    /// The value, or none for a removal.
    pub value: Option<Octets>,
}

/// A list of cells.
pub type Cells = ListOf<Cell>;

/// A key and the value that it has.
#[derive(Debug, PartialEq, Eq, Drop)]
pub struct Pair {
    /// The key.
    pub key: Key,
    /// The value.
    pub value: Octets,
}

impl Cell {
    /// The same cell again. Takes memory for a copy.
    pub fn copy(&self, alloc: Global) -> Result<Cell, AllocError>
        ensures { IfOk result (λ cell. cell ≡ self.now) }
    {
        let value = match &self.value {
            Some(value) => Some(value.copy(alloc)?),
            None => None,
        };
        Ok(Cell {
            key: self.key.copy(alloc)?,
            time: self.time,
            value,
        })
    }
}
