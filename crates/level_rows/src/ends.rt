// The records of a table by their end rows.
ghost use Rattle.std.specs.Prelude.{◌≡◌, IfOk};
ghost use Rattle.std.specs.Option.{option_copied};
ghost use Rattle.level_rows.specs.Chain.{Rows, effective_prev};
ghost use Rattle.level_rows.specs.Index.{IsIndexOf, found_at};

use metadata_schema::TabletRecord;
use row_keys::{Row, TableId};
use std::alloc::{AllocError, Global};
use std::collections::BTreeMap;

/// The records of a table by their end rows.
pub type Ends<'a> = BTreeMap<&'a Option<Row>, &'a TabletRecord>;

/// The records of a table among these, by their end rows; of several with one name the first. Takes memory for the map alone,
/// and time n log n for n records.
pub fn ends_of<'a>(
    alloc: Global,
    table: &TableId,
    records: &'a [TabletRecord],
) -> Result<Ends<'a>, AllocError>
    ensures { IfOk result (λ ends. IsIndexOf table.now records.now ends) }
{
    let mut ends = BTreeMap::new(alloc);
    for tablet in records {
        if tablet.table == *table && !ends.contains_key(&&tablet.end) {
            ends.insert(&tablet.end, tablet)?;
        }
    }
    Ok(ends)
}

/// The record at an end row.
pub fn found<'a>(ends: &Ends<'a>, end: &'a Option<Row>) -> Option<&'a TabletRecord>
    ensures { option_copied result ≡ found_at ends.now end.now }
{
    ends.get(&end).copied()
}

/// The effective previous row of a tablet among the records found. Takes time with the logarithm of their number.
pub fn reach<'a>(ends: &Ends<'a>, tablet: &'a TabletRecord) -> &'a Option<Row>
    ensures { result.now ≡ effective_prev (found_at ends.now) tablet.now }
{
    match &tablet.old_prev {
        Some(old) if tablet.prev.is_none() || found(ends, &tablet.prev).is_none() => old,
        _ => &tablet.prev,
    }
}
