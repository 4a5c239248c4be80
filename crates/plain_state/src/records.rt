// The records that count.
ghost use Rattle.std.specs.Prelude.{◌≡◌, IfOk};
ghost use Rattle.std.specs.Option.{option_copied};
ghost use Rattle.level_rows.specs.Chain.{rows_of};
ghost use Rattle.state_reader.specs.LevelRows.{level_of};
ghost use Rattle.state_reader.specs.Reads.{reading_of};
ghost use Rattle.plain_state.specs.Records.{AreOfLevel, AreRecords};

use metadata_schema::TabletRecord;
use row_keys::{Row, TableId};
use state_reader::{LevelRows, StoreReading};
use std::alloc::{AllocError, Global};

/// The first of the records with this table and end row.
fn find<'a>(
    records: &'a [TabletRecord],
    table: &TableId,
    end: &Option<Row>,
) -> Option<&'a TabletRecord>
    ensures { option_copied result ≡ rows_of table.now records.now end.now }
{
    records
        .iter()
        .find(|tablet| tablet.table == *table && tablet.end == *end)
}

/// Copies of the records of a level that count: of several of one table and end row the first.
fn records_in(alloc: Global, rows: &LevelRows) -> Result<Vec<TabletRecord>, AllocError>
    ensures { IfOk result (λ records. AreOfLevel (level_of rows.now) records.items) }
{
    let all = rows.records.as_slice();
    let mut records = Vec::new(alloc);
    for tablet in all {
        if let Some(first) = find(all, &tablet.table, &tablet.end) {
            records.push(first.copy(alloc)?)?;
        }
    }
    Ok(records)
}

/// Copies of all records of a reading: the root tablet's, and those of both levels, in their chains or left over.
pub fn records_of(alloc: Global, read: &StoreReading) -> Result<Vec<TabletRecord>, AllocError>
    ensures { IfOk result (λ records. AreRecords (reading_of read.now) records.items) }
{
    let mut records = records_in(alloc, &read.metadata)?;
    records.append(&mut records_in(alloc, &read.users)?)?;
    records.push(read.root.copy(alloc)?)?;
    Ok(records)
}
