// The effective previous row of a tablet.
ghost use Rattle.std.specs.Prelude.{◌≡◌, IfOk};
ghost use Rattle.std.specs.Option.{option_copied};
ghost use Rattle.level_rows.specs.Chain.{rows_of, ends_at, effective_prev};

use metadata_schema::TabletRecord;
use row_keys::{Row, TableId};
use std::alloc::{AllocError, Global};

/// The first of the records with this table and end row.
pub fn find<'a>(
    records: &'a [TabletRecord],
    table: &TableId,
    end: &Option<Row>,
) -> Option<&'a TabletRecord>
    ensures { option_copied result ≡ rows_of table.now records.now end.now }
{
    records
        .iter()
        .find(|tablet| tablet.table == *table && tablet.end == *end)
}

/// Whether a record of the table ends at the row.
fn ends_at(records: &[TabletRecord], table: &TableId, row: &Option<Row>) -> bool
    ensures { result ≡ ends_at (rows_of table.now records.now) row.now }
{
    row.is_some() && find(records, table, row).is_some()
}

fn copy_of(alloc: Global, row: &Option<Row>) -> Result<Option<Row>, AllocError>
    ensures { IfOk result (λ copy. copy ≡ row.now) }
{
    match row {
        Some(row) => Ok(Some(row.copy(alloc)?)),
        None => Ok(None),
    }
}

/// The effective previous row of a tablet among the records of its level: the old previous row where that is there and no record
/// of the tablet's table ends at the new one, else the new one. The record itself need not be among them. `AllocError` comes only
/// at want of memory. Takes memory for the row, and one pass over the records where there is an old previous row.
pub fn effective_prev(
    alloc: Global,
    tablet: &TabletRecord,
    records: &[TabletRecord],
) -> Result<Option<Row>, AllocError>
    ensures { IfOk result (λ prev. prev ≡ effective_prev (rows_of tablet.now.table records.now) tablet.now) }
{
    match &tablet.old_prev {
        Some(old) if !ends_at(records, &tablet.table, &tablet.prev) => copy_of(alloc, old),
        _ => copy_of(alloc, &tablet.prev),
    }
}
