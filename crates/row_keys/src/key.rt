// The key of a cell.
ghost use Rattle.std.specs.Prelude.{◌≡◌, IfOk};

use crate::octets::Octets;
use crate::row::Row;
use std::alloc::{AllocError, Global};

/// A cell's row, column family and column qualifier. Ordered in this order, each by its bytes.
#[derive(Debug, PartialEq, Eq, PartialOrd, Ord, Hash, Drop)]
pub struct Key {
    /// The row.
    pub row: Row,
    /// The column family.
    pub family: Octets,
    /// The column qualifier.
    pub qualifier: Octets,
}

impl Key {
    /// The same key again. Takes memory for a copy.
    pub fn copy(&self, alloc: Global) -> Result<Key, AllocError>
        ensures { IfOk result (λ key. key ≡ self.now) }
    {
        Ok(Key {
            row: self.row.copy(alloc)?,
            family: self.family.copy(alloc)?,
            qualifier: self.qualifier.copy(alloc)?,
        })
    }
}
