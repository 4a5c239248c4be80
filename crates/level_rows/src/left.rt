// The records that aren't in the chain of their table.
ghost use Rattle.std.specs.Prelude.{◌≡◌, List, filter, IfOk};
ghost use Rattle.metadata_schema.specs.declared.tablet.TabletRecord.{TabletRecord as Tablet};
ghost use Rattle.level_rows.specs.Chain.{rows_of, IsChain, HasChain};
ghost use Rattle.level_rows.specs.LeftOver.{AreDistinct, AreLeftOver};
ghost use Rattle.level_rows.specs.Index.{is_apart, records_in};

use crate::effective::find;
use crate::ends::{Ends, ends_of, found};
use crate::way::way_down;
use metadata_schema::TabletRecord;
use row_keys::TableId;
use std::alloc::{AllocError, Global};

/// Copies of the records whose end rows have none among the others.
fn apart_from<'b, 'a: 'b>(
    alloc: Global,
    ends: Ends<'a>,
    others: &Ends<'b>,
) -> Result<Vec<TabletRecord>, AllocError>
    ensures { IfOk result (λ left. left.items ≡ filter (is_apart others.now) (records_in ends.entry)) }
{
    let mut left = Vec::new(alloc);
    for tablet in ends.into_values() {
        if found(others, &tablet.end).is_none() {
            left.push(tablet.copy(alloc)?)?;
        }
    }
    Ok(left)
}

/// The records of a table, among those of its level, that aren't in its chain, in the order of their end rows. No two of the
/// records may have the same table and end row, and the table must have a chain. `AllocError` comes only at want of memory. Takes
/// memory for copies of the chain and of these records, and time n log n for n records.
pub fn leftover(
    alloc: Global,
    table: &TableId,
    records: &[TabletRecord],
) -> Result<Vec<TabletRecord>, AllocError>
    requires distinct { AreDistinct records.now }
    requires chained { HasChain (rows_of table.now records.now) }
    ensures { IfOk result (λ left. (chain : List Tablet) → IsChain (rows_of table.now records.now) chain
        → AreLeftOver table.now records.now chain left.items) }
{
    let last = find(records, table, &None).unwrap();
    let ends = ends_of(alloc, table, records)?;
    let way = way_down(alloc, &ends, last)?.unwrap();
    let chained = ends_of(alloc, table, &way)?;
    apart_from(alloc, ends, &chained)
}
