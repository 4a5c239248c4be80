// Small grounds made by hand.
use super::*;
use cell_merge::{Cell, Cells};
use memory_host::QuietHost;
use metadata_schema::{FileEntry, Holder, Mutation, TabletRecord, Update};
use node_store::{NodeOp, NodeStore};
use row_keys::{Key, ListOf, LogName, Octets, Path, Row, ServerName, SessionId, TableId};
use std::alloc::Global;
use std::test::Fail;
use store_layout::nodes_name;

const FILE: &[u8] = b"1/default_tablet/F0000001.rf";

const LOG: &[u8] = b"log-0000000000000001";

fn row_of(alloc: Global, bytes: Option<&[u8]>) -> Result<Option<Row>, Fail> {
    match bytes {
        Some(bytes) => Ok(Some(Row::new(alloc, bytes)?)),
        None => Ok(None),
    }
}

fn octets_of(alloc: Global, bytes: Option<&[u8]>) -> Result<Option<Octets>, Fail> {
    match bytes {
        Some(bytes) => Ok(Some(Octets::new(alloc, bytes)?)),
        None => Ok(None),
    }
}

fn key(alloc: Global, row: &[u8], family: &[u8], qualifier: &[u8]) -> Result<Key, Fail> {
    Ok(Key {
        row: Row::new(alloc, row)?,
        family: Octets::new(alloc, family)?,
        qualifier: Octets::new(alloc, qualifier)?,
    })
}

// A cell of the column `f:q`.
fn cell(alloc: Global, row: &[u8], time: u64, value: Option<&[u8]>) -> Result<Cell, Fail> {
    Ok(Cell {
        key: key(alloc, row, b"f", b"q")?,
        time,
        value: octets_of(alloc, value)?,
    })
}

// A mutation that writes `v` into the column `f:q`.
fn mutation(alloc: Global, table: &[u8], row: &[u8], time: u64) -> Result<Mutation, Fail> {
    let mut updates = ListOf::new(alloc);
    updates.push(Update {
        family: Octets::new(alloc, b"f")?,
        qualifier: Octets::new(alloc, b"q")?,
        value: octets_of(alloc, Some(b"v"))?,
    })?;
    Ok(Mutation {
        table: TableId::new(alloc, table)?.ok_or("no id")?,
        row: Row::new(alloc, row)?,
        time,
        updates,
    })
}

// The tablet of table 1 up to `m`, with the bar 5 and one file with this time.
fn tablet(alloc: Global, time: Option<u64>) -> Result<TabletRecord, Fail> {
    let mut files = ListOf::new(alloc);
    files.push(FileEntry {
        path: Path::new(alloc, FILE)?.ok_or("no path")?,
        size: 10,
        entries: 2,
        time,
    })?;
    Ok(TabletRecord {
        table: TableId::new(alloc, b"1")?.ok_or("no id")?,
        end: row_of(alloc, Some(b"m"))?,
        prev: None,
        old_prev: None,
        dir: Octets::new(alloc, b"default_tablet")?,
        time: 5,
        loc: None,
        future: None,
        files,
        logs: ListOf::new(alloc),
        loaded: ListOf::new(alloc),
        chopped: false,
        merged: None,
    })
}

fn file_of(alloc: Global) -> Result<Path, Fail> {
    Ok(Path::new(alloc, FILE)?.ok_or("no path")?)
}

fn log_of(alloc: Global) -> Result<LogName, Fail> {
    Ok(LogName::new(alloc, LOG)?.ok_or("no log")?)
}

// A cell in the tablet, and one in a row above `m`.
fn two_cells(alloc: Global) -> Result<Cells, Fail> {
    let mut cells = Cells::new(alloc);
    cells.push(cell(alloc, b"a", 3, Some(b"w"))?)?;
    cells.push(cell(alloc, b"n", 4, Some(b"w"))?)?;
    Ok(cells)
}

// Mutations before and past the bar, of another table, and of a row above `m`.
fn four_mutations(alloc: Global) -> Result<Mutations, Fail> {
    let rows: [(&[u8], &[u8], u64); 4] = [
        (b"1", b"b", 5),
        (b"1", b"c", 6),
        (b"2", b"d", 7),
        (b"1", b"z", 8),
    ];
    let mut mutations = Mutations::new(alloc);
    for (table, row, time) in rows {
        mutations.push(mutation(alloc, table, row, time)?)?;
    }
    Ok(mutations)
}

// Nodes with these paths and values.
fn nodes_of(alloc: Global, entries: &[(&[u8], &[u8])]) -> Result<NodeStore, Fail> {
    let mut host = QuietHost::new(alloc, b"")?;
    let mut nodes = NodeStore::create(alloc, &mut host, &nodes_name(alloc)?)?;
    let mut ops = Vec::new(alloc);
    for (path, value) in entries {
        ops.push(NodeOp::Create {
            path: Path::new(alloc, path)?.ok_or("no path")?,
            value: Octets::new(alloc, value)?,
        })?;
    }
    nodes.multi(&mut host, &ops)?;
    Ok(nodes)
}

// The ground with that file and that log.
fn small_ground(alloc: Global) -> Result<StillGround, Fail> {
    let mut still = StillGround::new(alloc, nodes_of(alloc, &[])?);
    still.files.insert(file_of(alloc)?, two_cells(alloc)?)?;
    still.logs.insert(log_of(alloc)?, four_mutations(alloc)?)?;
    Ok(still)
}

// Each cell's row and time, with a blank behind it.
fn spelled(alloc: Global, cells: &[Cell]) -> Result<Vec<u8>, Fail> {
    let mut text = Vec::new(alloc);
    for cell in cells {
        text.extend_from_slice(cell.key.row.as_bytes())?;
        text.extend_from_slice(cell.time.to_string(alloc)?.as_bytes())?;
        text.push(b' ')?;
    }
    Ok(text)
}

fn content_text(
    alloc: Global,
    still: &StillGround,
    low: Option<&[u8]>,
    tablet: &TabletRecord,
) -> Result<Vec<u8>, Fail> {
    let low = row_of(alloc, low)?;
    match content(alloc, still, &low, tablet)? {
        Some(cells) => spelled(alloc, cells.as_slice()),
        None => Ok(b"untold".as_slice().to_vec(alloc)?),
    }
}

// Whether the content of the tablet above `low` is spelled so, in the small ground.
fn has_content(
    alloc: Global,
    low: Option<&[u8]>,
    tablet: &TabletRecord,
    wanted: &[u8],
) -> Result<bool, Fail> {
    let still = small_ground(alloc)?;
    Ok(content_text(alloc, &still, low, tablet)?.as_slice() == wanted)
}

#[test]
fn a_tablet_has_its_files_with_their_times(rt: HostRuntime) -> Result<(), Fail> {
    let alloc = rt.alloc();
    assert!(rt; has_content(alloc, None, &tablet(alloc, None)?, b"a3 ")?);
    assert!(rt; has_content(alloc, None, &tablet(alloc, Some(9))?, b"a9 ")?);
    Ok(())
}

#[test]
fn a_tablet_has_what_is_past_its_bar(rt: HostRuntime) -> Result<(), Fail> {
    let alloc = rt.alloc();
    let mut logged = tablet(alloc, None)?;
    logged.logs.push(log_of(alloc)?)?;
    assert!(rt; has_content(alloc, None, &logged, b"a3 c6 ")?);
    assert!(rt; has_content(alloc, Some(b"a"), &logged, b"c6 ")?);
    Ok(())
}

fn held_by(alloc: Global, session: &[u8]) -> Result<TabletRecord, Fail> {
    let mut held = tablet(alloc, None)?;
    held.loc = Some(Holder {
        session: SessionId::new(alloc, session)?.ok_or("no session")?,
        server: ServerName::new(alloc, b"a")?.ok_or("no server")?,
    });
    Ok(held)
}

#[test]
fn the_log_of_the_holder_counts(rt: HostRuntime) -> Result<(), Fail> {
    let alloc = rt.alloc();
    let known = held_by(alloc, b"0000000000000001")?;
    assert!(rt; has_content(alloc, None, &known, b"a3 c6 ")?);
    let unknown = held_by(alloc, b"0000000000000002")?;
    assert!(rt; has_content(alloc, None, &unknown, b"untold")?);
    Ok(())
}
