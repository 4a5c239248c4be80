// What updates of its columns make of the root tablet's record.
ghost use Rattle.std.specs.Prelude.{◌≡◌, None, IfErr, IfOk};
ghost use Rattle.row_keys.specs.MetadataRow.{metadata_row};
ghost use Rattle.metadata_schema.specs.Refusals.{IsTabletRow};
ghost use Rattle.store_meaning.specs.Levels.{root_id};
ghost use Rattle.log_writes.specs.Updating.{UpdatesRoot, UpdateCause, FaultOf};

use crate::cells::updated_cells;
use crate::fault::RootFault;
use metadata_schema::{SchemaFault, TabletRecord, Update, columns_of, record_of};
use row_keys::{Row, TableId, metadata_row};
use state_reader::row_columns;
use std::alloc::{AllocError, Global};

const ROOT_TABLE: &[u8] = b"+r";

/// The metadata row of the root tablet.
fn root_row(alloc: Global) -> Result<Row, AllocError>
    ensures is { IfOk result (λ row. row ≡ metadata_row root_id None) }
    ensures tablet { IfOk result IsTabletRow }
{
    let table = TableId::new(alloc, ROOT_TABLE)?.unwrap();
    metadata_row(alloc, &table, None)
}

fn fault_of(fault: SchemaFault) -> RootFault
    ensures { FaultOf fault result }
{
    match fault {
        SchemaFault::NoMemory => RootFault::NoMemory,
        _ => RootFault::BadColumns,
    }
}

/// The record of the root tablet that these updates of its columns make of this one. `BadColumns` comes exactly where the columns
/// would be those of no record of the root tablet; in its place only `NoMemory` may. Takes memory for the columns, and time n log n
/// for n of them.
pub fn updated_root(
    alloc: Global,
    root: &TabletRecord,
    updates: &[Update],
) -> Result<TabletRecord, RootFault>
    ensures ok { IfOk result (UpdatesRoot root.now updates.now) }
    ensures cause { IfErr result (UpdateCause root.now updates.now) }
{
    let row = root_row(alloc)?;
    let old = columns_of(alloc, root)?;
    let cells = updated_cells(alloc, &old, &row, updates)?;
    let columns = row_columns(alloc, &cells, &row)?;
    match record_of(alloc, &row, columns.as_slice()) {
        Ok(updated) => Ok(updated),
        Err(fault) => Err(fault_of(fault)),
    }
}
