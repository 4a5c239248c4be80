// Levels made by hand.
use super::*;
use cell_merge::Cell;
use metadata_schema::{TabletRecord, Update, columns_of};
use row_keys::{Key, ListOf, Octets, Path, Row, TableId};
use state_reader::{BadRow, LevelFault, LevelKind};
use std::alloc::Global;
use std::test::Fail;

const FILE: &[u8] = b"1/default_tablet/F0000001.rf";

const OTHER: &[u8] = b"1/default_tablet/A0000002.rf";

// A tablet with this bar.
fn tablet(alloc: Global, time: u64) -> Result<TabletRecord, Fail> {
    Ok(TabletRecord {
        table: TableId::new(alloc, b"1")?.ok_or("no id")?,
        end: None,
        prev: None,
        old_prev: None,
        dir: Octets::new(alloc, b"default_tablet")?,
        time,
        loc: None,
        future: None,
        files: ListOf::new(alloc),
        logs: ListOf::new(alloc),
        loaded: ListOf::new(alloc),
        chopped: false,
        merged: None,
    })
}

// One update.
fn update(
    alloc: Global,
    family: &[u8],
    qualifier: &[u8],
    value: Option<&[u8]>,
) -> Result<Vec<Update>, Fail> {
    let mut columns = Vec::new(alloc);
    let value = match value {
        Some(bytes) => Some(Octets::new(alloc, bytes)?),
        None => None,
    };
    columns.push(Update {
        family: Octets::new(alloc, family)?,
        qualifier: Octets::new(alloc, qualifier)?,
        value,
    })?;
    Ok(columns)
}

// One update of an empty family and qualifier.
fn lone(alloc: Global, value: Option<&[u8]>) -> Result<Vec<Update>, Fail> {
    update(alloc, b"", b"", value)
}

// Adds the cells of a row.
fn push_row(
    alloc: Global,
    cells: &mut Vec<Cell>,
    row: &[u8],
    columns: Vec<Update>,
) -> Result<(), Fail> {
    for column in columns {
        cells.push(Cell {
            key: Key {
                row: Row::new(alloc, row)?,
                family: column.family,
                qualifier: column.qualifier,
            },
            time: 1,
            value: column.value,
        })?;
    }
    Ok(())
}

// Two paths to be deleted, and a flag.
fn push_marks(alloc: Global, cells: &mut Vec<Cell>) -> Result<(), Fail> {
    let rows: [(&[u8], &[u8]); 3] = [
        (b"~del1/default_tablet/F0000001.rf", b""),
        (b"~del1/default_tablet/A0000002.rf", b""),
        (b"~blip1/default_tablet/F0000001.rf", b"7,3"),
    ];
    for (row, value) in rows {
        push_row(alloc, cells, row, lone(alloc, Some(value))?)?;
    }
    Ok(())
}

// Two tablets of table 1, and one of table 1x.
fn push_tablets(alloc: Global, cells: &mut Vec<Cell>) -> Result<(), Fail> {
    let rows: [(&[u8], u64); 3] = [(b"1<", 5), (b"1;m", 6), (b"1x<", 7)];
    for (row, time) in rows {
        push_row(alloc, cells, row, columns_of(alloc, &tablet(alloc, time)?)?)?;
    }
    Ok(())
}

fn users(alloc: Global) -> Result<LevelIndex, Fail> {
    let mut cells = Vec::new(alloc);
    push_marks(alloc, &mut cells)?;
    push_tablets(alloc, &mut cells)?;
    Ok(LevelIndex::read(alloc, LevelKind::Users, &cells)?)
}

// The bar of the record at a row.
fn bar(alloc: Global, index: &LevelIndex, row: &[u8]) -> Result<Option<u64>, Fail> {
    match index.record(&Row::new(alloc, row)?) {
        Some(tablet) => Ok(Some(tablet.time)),
        None => Ok(None),
    }
}

#[test]
fn records_are_found_by_their_rows(rt: HostRuntime) -> Result<(), Fail> {
    let alloc = rt.alloc();
    let index = users(alloc)?;
    assert_eq!(rt; bar(alloc, &index, b"1;m")?, Some(6));
    assert_eq!(rt; bar(alloc, &index, b"1<")?, Some(5));
    assert_eq!(rt; bar(alloc, &index, b"1;n")?, None);
    assert_eq!(rt;
        bar(alloc, &index, b"~blip1/default_tablet/F0000001.rf")?,
        None
    );
    Ok(())
}

#[test]
fn lists_are_in_order(rt: HostRuntime) -> Result<(), Fail> {
    let alloc = rt.alloc();
    let index = users(alloc)?;
    let records = index.records_of(alloc, &TableId::new(alloc, b"1")?.ok_or("no id")?)?;
    assert_eq!(rt; records.len(), 2);
    assert_eq!(rt; records[0].time, 6);
    assert_eq!(rt; records[1].time, 5);
    let paths = index.candidates(alloc)?;
    assert_eq!(rt; paths.len(), 2);
    assert_eq!(rt; paths[0].as_bytes(), OTHER);
    assert_eq!(rt; paths[1].as_bytes(), FILE);
    let flags = index.flags(alloc)?;
    assert_eq!(rt; flags.len(), 1);
    assert_eq!(rt; flags[0].path.as_bytes(), FILE);
    assert_eq!(rt; (flags[0].tid, flags[0].number), (7, 3));
    Ok(())
}

fn prepared(alloc: Global, row: &[u8], updates: &[Update]) -> Result<PreparedRow, Fail> {
    let index = users(alloc)?;
    let prepared = index.prepare(alloc, &Row::new(alloc, row)?, updates);
    Ok(prepared.ok().ok_or("refused")?)
}

// The tablet up to `m`, about to get another bar.
fn later(alloc: Global) -> Result<PreparedRow, Fail> {
    prepared(alloc, b"1;m", &update(alloc, b"srv", b"time", Some(b"L9"))?)
}

#[test]
fn a_row_is_written_or_left(rt: HostRuntime) -> Result<(), Fail> {
    let alloc = rt.alloc();
    assert_eq!(rt; bar(alloc, &later(alloc)?.commit(), b"1;m")?, Some(9));
    assert_eq!(rt; bar(alloc, &later(alloc)?.withdraw(), b"1;m")?, Some(6));
    Ok(())
}

#[test]
fn a_new_row_comes_or_is_left(rt: HostRuntime) -> Result<(), Fail> {
    let alloc = rt.alloc();
    let columns = columns_of(alloc, &tablet(alloc, 8)?)?;
    let index = prepared(alloc, b"2<", &columns)?.commit();
    assert_eq!(rt; bar(alloc, &index, b"2<")?, Some(8));
    let index = prepared(alloc, b"2<", &columns)?.withdraw();
    assert_eq!(rt; bar(alloc, &index, b"2<")?, None);
    Ok(())
}

#[test]
fn a_candidate_is_taken_out(rt: HostRuntime) -> Result<(), Fail> {
    let alloc = rt.alloc();
    let removal = lone(alloc, None)?;
    let row = b"~del1/default_tablet/F0000001.rf";
    let index = prepared(alloc, row, &removal)?.commit();
    assert_eq!(rt; index.candidates(alloc)?.len(), 1);
    let index = prepared(alloc, row, &removal)?.withdraw();
    assert_eq!(rt; index.candidates(alloc)?.len(), 2);
    Ok(())
}

// Why a row with one column of this value isn't written to an empty level.
fn refusal(
    alloc: Global,
    kind: LevelKind,
    row: &[u8],
    value: Option<&[u8]>,
) -> Result<Option<WriteFault>, Fail> {
    let index = LevelIndex::new(alloc, kind);
    match index.prepare(alloc, &Row::new(alloc, row)?, &lone(alloc, value)?) {
        Ok(_prepared) => Ok(None),
        Err((fault, _index)) => Ok(Some(fault)),
    }
}

#[test]
fn rows_are_refused_with_their_cause(rt: HostRuntime) -> Result<(), Fail> {
    let alloc = rt.alloc();
    let users = LevelKind::Users;
    assert_eq!(rt;
        refusal(alloc, users, b"zz", Some(b""))?,
        Some(WriteFault::NoRow)
    );
    assert_eq!(rt;
        refusal(alloc, LevelKind::Metadata, b"1<", None)?,
        Some(WriteFault::NoRow)
    );
    assert_eq!(rt;
        refusal(alloc, users, b"1<", Some(b""))?,
        Some(WriteFault::BadColumns)
    );
    assert_eq!(rt; refusal(alloc, users, b"1<", None)?, None);
    assert_eq!(rt;
        refusal(alloc, users, b"~delx", Some(b""))?,
        Some(WriteFault::BadColumns)
    );
    Ok(())
}

// Whether cells with this row and one column of this value tell of no level, at a row of a candidate.
fn is_bad_candidate(alloc: Global, row: &[u8], value: &[u8]) -> Result<bool, Fail> {
    let mut cells = Vec::new(alloc);
    push_tablets(alloc, &mut cells)?;
    push_row(alloc, &mut cells, row, lone(alloc, Some(value))?)?;
    match LevelIndex::read(alloc, LevelKind::Users, &cells) {
        Err(LevelFault::Bad(BadRow::Candidate(_row))) => Ok(true),
        _ => Ok(false),
    }
}

#[test]
fn a_level_is_refused_at_its_row(rt: HostRuntime) -> Result<(), Fail> {
    let alloc = rt.alloc();
    assert!(rt; is_bad_candidate(alloc, b"~del1/default_tablet/F0000001.rf", b"v")?);
    assert!(rt; !is_bad_candidate(alloc, b"~del1/default_tablet/F0000001.rf", b"")?);
    assert!(rt; !is_bad_candidate(alloc, b"~other", b"v")?);
    Ok(())
}
