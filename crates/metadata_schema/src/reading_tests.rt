// Worked rows, as records.
ghost use Rattle.std.specs.Prelude.{◌≡◌, Some, IsTrue, IfOk, map};
ghost use Rattle.metadata_schema.specs.Bytes.{is_rising};
ghost use Rattle.metadata_schema.specs.Columns.{written, update_cmp};
ghost use Rattle.metadata_schema.specs.Refusals.{IsTabletRow};

use super::*;
use crate::mutation::written;
use row_keys::{Octets, Row, TableId, metadata_row};
use std::alloc::Global;
use std::test::Fail;

const FIRST: &[u8] = b"a/t-0000001/A0000002.rf";

const SECOND: &[u8] = b"a/t-0000001/F0000003.rf";

// The row of the last tablet of the table `a`.
fn last_row(alloc: Global) -> Result<Row, Fail>
    ensures { IfOk result IsTabletRow }
{
    let table = TableId::new(alloc, b"a")?.ok_or("an id")?;
    Ok(metadata_row(alloc, &table, None)?)
}

// Each is a family, a qualifier and a value.
fn columns(alloc: Global, cells: &[(&[u8], &[u8], &[u8])]) -> Result<Vec<Update>, Fail>
    ensures { IfOk result (λ updates. updates.items ≡ map (λ cell. written cell.0.now cell.1.now cell.2.now) cells.now) }
{
    let mut columns = Vec::new(alloc);
    for (family, qualifier, value) in cells {
        let value = Octets::new(alloc, value)?;
        columns.push(written(alloc, family, qualifier, value)?)?;
    }
    Ok(columns)
}

fn read(
    alloc: Global,
    cells: &[(&[u8], &[u8], &[u8])],
) -> Result<Result<TabletRecord, SchemaFault>, Fail>
    requires { IsTrue (is_rising update_cmp (map (λ cell. written cell.0.now cell.1.now cell.2.now) cells.now)) }
{
    let row = last_row(alloc)?;
    let columns = columns(alloc, cells)?;
    Ok(record_of(alloc, &row, &columns))
}

fn fault(alloc: Global, cells: &[(&[u8], &[u8], &[u8])]) -> Result<Option<SchemaFault>, Fail>
    requires { IsTrue (is_rising update_cmp (map (λ cell. written cell.0.now cell.1.now cell.2.now) cells.now)) }
{
    Ok(read(alloc, cells)?.err())
}

// The refusal of a row with this value of `srv:time`.
fn fault_of_time(alloc: Global, time: &[u8]) -> Result<Option<SchemaFault>, Fail> {
    fault(
        alloc,
        &[
            (b"srv", b"dir", b"t-0000001"),
            (b"srv", b"time", time),
            (b"~tab", b"~pr", b"\x00"),
        ],
    )
}

#[test]
fn a_bar_has_one_spelling(rt: HostRuntime) -> Result<(), Fail> {
    for time in [b"L".as_slice(), b"L01", b"M1", b"L9223372036854775808"] {
        let fault = fault_of_time(rt.alloc(), time)?;
        assert_eq!(rt; fault, Some(SchemaFault::BadValue));
    }
    assert_eq!(rt; fault_of_time(rt.alloc(), b"L9223372036854775807")?, None);
    Ok(())
}

#[test]
fn a_second_loc_is_refused(rt: HostRuntime) -> Result<(), Fail> {
    let fault = fault(
        rt.alloc(),
        &[
            (b"loc", b"00000000000000a1", b"s1"),
            (b"loc", b"00000000000000a2", b"s2"),
            (b"~tab", b"~pr", b"\x00"),
        ],
    )?;
    assert_eq!(rt; fault, Some(SchemaFault::BadColumn));
    Ok(())
}

#[test]
fn a_row_without_prev_is_refused_first(rt: HostRuntime) -> Result<(), Fail> {
    let fault = fault(rt.alloc(), &[(b"loc", b"nobody", b"s1")])?;
    assert_eq!(rt; fault, Some(SchemaFault::NoPrev));
    Ok(())
}

#[test]
fn files_are_read(rt: HostRuntime) -> Result<(), Fail> {
    let read = read(
        rt.alloc(),
        &[
            (b"file", FIRST, b"222,6"),
            (b"file", SECOND, b"222,6,5"),
            (b"srv", b"dir", b"t-0000001"),
            (b"srv", b"time", b"L7"),
            (b"~tab", b"~pr", b"\x01m"),
        ],
    )?;
    let tablet = read.ok().ok_or("a record")?;
    assert_eq!(rt; tablet.time, 7);
    let files = tablet.files.as_slice();
    assert_eq!(rt; files.len(), 2);
    assert_eq!(rt;
        (files[0].size, files[0].entries, files[0].time),
        (222, 6, None)
    );
    assert_eq!(rt; files[1].time, Some(5));
    Ok(())
}
