// The chain of a table.
ghost use Rattle.std.specs.Prelude.{◌≡◌, Some, None, IfOk, IfSome, IfNone};
ghost use Rattle.level_rows.specs.Chain.{rows_of, IsChain, IsChainOf};
ghost use Rattle.level_rows.specs.Broken.{IsBroken};
ghost use Rattle.level_rows.specs.Index.{found_at, is_below_end, FindsOwn};

use crate::effective::find;
use crate::ends::{Ends, ends_of, found, reach};
use metadata_schema::TabletRecord;
use row_keys::{Row, TableId};
use std::alloc::{AllocError, Global};

fn is_below_end(low: &Row, end: &Option<Row>) -> bool
    ensures { result ≡ is_below_end low.now end.now }
{
    match end {
        Some(end) => low < end,
        None => true,
    }
}

/// Copies of the records of the chain, from the last tablet down, or none where there is no chain.
pub fn way_down<'a>(
    alloc: Global,
    ends: &Ends<'a>,
    last: &'a TabletRecord,
) -> Result<Option<Vec<TabletRecord>>, AllocError>
    requires own { FindsOwn ends.now }
    requires last { found_at ends.now None ≡ Some last.now }
    ensures way { IfOk result (λ found. IfSome found (λ way. IsChain (found_at ends.now) way.items)) }
    ensures none { IfOk result (λ found. IfNone found (IsBroken (found_at ends.now))) }
{
    let mut way = Vec::new(alloc);
    let mut tablet = last;
    'down: loop {
        way.push(tablet.copy(alloc)?)?;
        let prev = reach(ends, tablet);
        let Some(low) = prev else {
            return Ok(Some(way));
        };
        if !is_below_end(low, &tablet.end) {
            return Ok(None);
        }
        let Some(next) = found(ends, prev) else {
            return Ok(None);
        };
        tablet = next;
    }
}

/// The chain of a table among the records of its level, in rising order: from the record without end row it follows effective
/// previous rows down to none. None comes exactly where a row on this way isn't there, or where an effective previous row on it
/// isn't below its end row. `AllocError` comes only at want of memory. Takes memory for copies of the records, and time n log n
/// for n records.
pub fn chain(
    alloc: Global,
    table: &TableId,
    records: &[TabletRecord],
) -> Result<Option<Vec<TabletRecord>>, AllocError>
    ensures chain { IfOk result (λ found. IfSome found (λ tablets. IsChainOf table.now records.now tablets.items)) }
    ensures none { IfOk result (λ found. IfNone found (IsBroken (rows_of table.now records.now))) }
{
    let Some(last) = find(records, table, &None) else {
        return Ok(None);
    };
    let ends = ends_of(alloc, table, records)?;
    let Some(mut tablets) = way_down(alloc, &ends, last)? else {
        return Ok(None);
    };
    tablets.reverse();
    Ok(Some(tablets))
}
