// Worked chains, and what is left over.
ghost use Rattle.std.specs.Prelude.{◌≡◌, ◌≢◌, IfOk};
ghost use Rattle.std.specs.Option.{option_copied};
ghost use Rattle.level_rows.specs.LeftOver.{AreDistinct};

use super::*;
use metadata_schema::TabletRecord;
use row_keys::{ListOf, Octets, Row, TableId};
use std::alloc::Global;
use std::test::Fail;

fn row(alloc: Global, bytes: Option<&[u8]>) -> Result<Option<Row>, Fail>
    ensures { IfOk result (λ row. row ≡ option_copied bytes.entry) }
{
    match bytes {
        Some(bytes) => Ok(Some(Row::new(alloc, bytes)?)),
        None => Ok(None),
    }
}

fn id(alloc: Global, bytes: &[u8]) -> Result<TableId, Fail> {
    Ok(TableId::new(alloc, bytes)?.ok_or("an id")?)
}

fn record(
    alloc: Global,
    table: TableId,
    end: Option<Row>,
    prev: Option<Row>,
    dir: Octets,
) -> TabletRecord
    ensures { result.end ≡ end }
{
    TabletRecord {
        table,
        end,
        prev,
        old_prev: None,
        dir,
        time: 1,
        loc: None,
        future: None,
        files: ListOf::new(alloc),
        logs: ListOf::new(alloc),
        loaded: ListOf::new(alloc),
        chopped: false,
        merged: None,
    }
}

fn tablet(
    alloc: Global,
    table: &[u8],
    end: Option<&[u8]>,
    prev: Option<&[u8]>,
) -> Result<TabletRecord, Fail>
    ensures { IfOk result (λ tablet. tablet.end ≡ option_copied end.entry) }
{
    let table = id(alloc, table)?;
    let end = row(alloc, end)?;
    let prev = row(alloc, prev)?;
    let dir = Octets::new(alloc, b"default_tablet")?;
    Ok(record(alloc, table, end, prev, dir))
}

// The metadata rows of some tablets, each with a blank behind it.
fn spelled(alloc: Global, tablets: &[TabletRecord]) -> Result<Vec<u8>, Fail> {
    let mut text = Vec::new(alloc);
    for tablet in tablets {
        text.extend_from_slice(tablet.table.as_bytes())?;
        if let Some(row) = &tablet.end {
            text.push(b';')?;
            text.extend_from_slice(row.as_bytes())?;
        } else {
            text.push(b'<')?;
        }
        text.push(b' ')?;
    }
    Ok(text)
}

fn chained(alloc: Global, table: &[u8], records: &[TabletRecord]) -> Result<Vec<u8>, Fail> {
    match chain(alloc, &id(alloc, table)?, records)? {
        Some(tablets) => spelled(alloc, &tablets),
        None => Ok(b"none".to_vec(alloc)?),
    }
}

#[test]
fn a_new_store_has_two_metadata_tablets(rt: HostRuntime) -> Result<(), Fail> {
    let alloc = rt.alloc();
    let first = tablet(alloc, b"!0", Some(b"~"), None)?;
    let last = tablet(alloc, b"!0", None, Some(b"~"))?;
    let records = [first, last];
    let rows = chained(alloc, b"!0", &records)?;
    assert_eq!(rt; rows.as_slice(), b"!0;~ !0< ".as_slice());
    let last = tablet(alloc, b"!0", None, Some(b"~"))?;
    let broken = chained(alloc, b"!0", &[last])?;
    assert_eq!(rt; broken.as_slice(), b"none".as_slice());
    Ok(())
}

fn begun(alloc: Global) -> Result<TabletRecord, Fail> {
    let mut high = tablet(alloc, b"1", None, Some(b"m"))?;
    high.old_prev = Some(None);
    Ok(high)
}

#[test]
fn a_split_shows_with_its_lower_half(rt: HostRuntime) -> Result<(), Fail> {
    let alloc = rt.alloc();
    let records = [begun(alloc)?, tablet(alloc, b"1", Some(b"m"), None)?];
    let before = chained(alloc, b"1", &records[..1])?;
    assert_eq!(rt; before.as_slice(), b"1< ".as_slice());
    let after = chained(alloc, b"1", &records)?;
    assert_eq!(rt; after.as_slice(), b"1;m 1< ".as_slice());
    Ok(())
}

#[test]
fn a_done_split_has_two_tablets(rt: HostRuntime) -> Result<(), Fail> {
    let alloc = rt.alloc();
    let high = tablet(alloc, b"1", None, Some(b"m"))?;
    let low = tablet(alloc, b"1", Some(b"m"), None)?;
    let rows = chained(alloc, b"1", &[high, low])?;
    assert_eq!(rt; rows.as_slice(), b"1;m 1< ".as_slice());
    Ok(())
}

#[test]
fn an_old_previous_row_counts_until_the_lower_half_is_there(rt: HostRuntime) -> Result<(), Fail> {
    let alloc = rt.alloc();
    let records = [begun(alloc)?, tablet(alloc, b"1", Some(b"m"), None)?];
    let before = effective_prev(alloc, &records[0], &records[..1])?;
    assert!(rt; before.is_none());
    let after = effective_prev(alloc, &records[0], &records)?;
    assert!(rt; after == row(alloc, Some(b"m"))?);
    Ok(())
}

// Three tablets, of which the highest has taken in the lower ones.
fn merged(alloc: Global) -> Result<[TabletRecord; 3], Fail>
    ensures { IfOk result (λ records. AreDistinct records) }
{
    let first = tablet(alloc, b"1", Some(b"a"), None)?;
    let second = tablet(alloc, b"1", Some(b"m"), Some(b"a"))?;
    let last = tablet(alloc, b"1", None, None)?;
    Ok([first, second, last])
}

fn left(alloc: Global, records: &[TabletRecord]) -> Result<Vec<u8>, Fail>
    requires { AreDistinct records.now }
{
    let table = id(alloc, b"1")?;
    let Some(_tablets) = chain(alloc, &table, records)? else {
        return Ok(b"none".to_vec(alloc)?);
    };
    spelled(alloc, &leftover(alloc, &table, records)?)
}

#[test]
fn a_merge_leaves_the_lower_rows_over(rt: HostRuntime) -> Result<(), Fail> {
    let records = merged(rt.alloc())?;
    let rows = chained(rt.alloc(), b"1", &records)?;
    assert_eq!(rt; rows.as_slice(), b"1< ".as_slice());
    let over = left(rt.alloc(), &records)?;
    assert_eq!(rt; over.as_slice(), b"1;a 1;m ".as_slice());
    Ok(())
}

#[test]
fn laws_hold() {
    a_table_has_one_chain();
    a_chain_is_not_broken();
    each_row_lies_in_one_extent();
    tablets_follow_each_other();
    the_tablets_of_a_range_are_one_piece();
    records_are_found_by_name();
    records_in_row_order_are_distinct();
    left_over_records_are_one_list();
    a_written_record_takes_its_row();
    a_row_taken_out_is_gone();
    records_that_stand_as_before_are_the_chain();
    a_record_of_the_same_extent_takes_its_place();
    a_record_takes_the_place_of_all_that_it_reaches();
    a_split_changes_the_chain_with_its_lower_half();
    a_merge_leaves_one_record_for_its_piece();
    rows_outside_the_chain_leave_it();
    linked_rows_are_a_chain_once_whole();
}
