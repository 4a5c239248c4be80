// Mutations of rows.
ghost use Rattle.std.specs.Prelude.{◌≡◌, Some, IfOk};
ghost use Rattle.metadata_schema.specs.Columns.{written};

use row_keys::{ListOf, Octets, Row, TableId};
use std::alloc::{AllocError, Global};

/// A new value of a column, or none where the column is removed.
#[derive(Debug, Drop)]
pub struct Update {
    /// The column family.
    pub family: Octets,
    /// The column qualifier.
    pub qualifier: Octets,
    pub value: Option<Octets>,
}

/// A list of updates.
pub type Updates = ListOf<Update>;

/// Updates of one row at one time.
#[derive(Debug, Drop)]
pub struct Mutation {
    pub table: TableId,
    pub row: Row,
    /// Below 2^63.
    pub time: u64,
    /// Strictly increasing by family and qualifier.
    pub updates: Updates,
}

/// The update that writes this value. Takes memory for the name.
pub(crate) fn written(
    alloc: Global,
    family: &[u8],
    qualifier: &[u8],
    value: Octets,
) -> Result<Update, AllocError>
    ensures { IfOk result (λ update. update ≡ written family.now qualifier.now value) }
{
    Ok(Update {
        family: Octets::new(alloc, family)?,
        qualifier: Octets::new(alloc, qualifier)?,
        value: Some(value),
    })
}
