// Stores made by hand, and what is read of them level by level.
use super::*;
use cell_merge::{Cell, Cells};
use memory_host::QuietHost;
use metadata_schema::{FileEntry, TabletRecord, Update, columns_of};
use node_store::NodeStore;
use row_keys::{Key, ListOf, Octets, Path, Row, TableId};
use std::alloc::Global;
use std::test::Fail;
use store_layout::{a_new_store_begins, first_cells, first_ops, nodes_name};

/// The file that the root tablet of a new store names.
const ROOT_FILE: &[u8] = b"+r/root_tablet/A0000001.rf";

/// A file of the first tablet of `!0`.
const INFO_FILE: &[u8] = b"!0/table_info/F0000002.rf";

fn path(alloc: Global, bytes: &[u8]) -> Result<Path, Fail> {
    Ok(Path::new(alloc, bytes)?.ok_or("no path")?)
}

fn row(alloc: Global, bytes: Option<&[u8]>) -> Result<Option<Row>, Fail> {
    match bytes {
        Some(bytes) => Ok(Some(Row::new(alloc, bytes)?)),
        None => Ok(None),
    }
}

// The nodes of a new store.
fn new_nodes(alloc: Global) -> Result<NodeStore, Fail> {
    a_new_store_begins();
    let ops = first_ops(alloc, 222)?;
    let mut host = QuietHost::new(alloc, b"")?;
    let name = nodes_name(alloc)?;
    let mut nodes = NodeStore::create(alloc, &mut host, &name)?;
    nodes.multi(&mut host, &ops)?;
    Ok(nodes)
}

// A tablet with nothing in it.
fn tablet(
    alloc: Global,
    table: &[u8],
    end: Option<&[u8]>,
    prev: Option<&[u8]>,
) -> Result<TabletRecord, Fail> {
    Ok(TabletRecord {
        table: TableId::new(alloc, table)?.ok_or("no id")?,
        end: row(alloc, end)?,
        prev: row(alloc, prev)?,
        old_prev: None,
        dir: Octets::new(alloc, b"default_tablet")?,
        time: 0,
        loc: None,
        future: None,
        files: ListOf::new(alloc),
        logs: ListOf::new(alloc),
        loaded: ListOf::new(alloc),
        chopped: false,
        merged: None,
    })
}

// The first tablet of `!0`, with its file.
fn info(alloc: Global) -> Result<TabletRecord, Fail> {
    let mut info = tablet(alloc, b"!0", Some(b"~"), None)?;
    info.files.push(FileEntry {
        path: path(alloc, INFO_FILE)?,
        size: 10,
        entries: 2,
        time: None,
    })?;
    Ok(info)
}

fn cell_of(alloc: Global, row: &[u8], column: Update) -> Result<Cell, Fail> {
    Ok(Cell {
        key: Key {
            row: Row::new(alloc, row)?,
            family: column.family,
            qualifier: column.qualifier,
        },
        time: 1,
        value: column.value,
    })
}

// Adds the columns of a tablet at this row.
fn put_record(
    alloc: Global,
    cells: &mut Cells,
    row: &[u8],
    tablet: &TabletRecord,
) -> Result<(), Fail> {
    for column in columns_of(alloc, tablet)? {
        cells.push(cell_of(alloc, row, column)?)?;
    }
    Ok(())
}

// The cells of the root tablet where the first tablet of `!0` has its file.
fn levels(alloc: Global) -> Result<Cells, Fail> {
    let mut cells = Cells::new(alloc);
    put_record(alloc, &mut cells, b"!0;~", &info(alloc)?)?;
    put_record(
        alloc,
        &mut cells,
        b"!0<",
        &tablet(alloc, b"!0", None, Some(b"~"))?,
    )?;
    Ok(cells)
}

// The store of these cells of the root tablet, and of the first tablet of `!0`.
fn store(alloc: Global, root: Cells, info: Option<Cells>) -> Result<StillGround, Fail> {
    let mut still = StillGround::new(alloc, new_nodes(alloc)?);
    still.files.insert(path(alloc, ROOT_FILE)?, root)?;
    if let Some(info) = info {
        still.files.insert(path(alloc, INFO_FILE)?, info)?;
    }
    Ok(still)
}

// The end rows of these tablets, each with a blank behind it, and `-` where there is none.
fn put_ends(text: &mut Vec<u8>, tablets: &[TabletRecord]) -> Result<(), Fail> {
    for tablet in tablets {
        match &tablet.end {
            Some(end) => text.extend_from_slice(end.as_bytes())?,
            None => text.push(b'-')?,
        }
        text.push(b' ')?;
    }
    Ok(())
}

fn put_bad_row(text: &mut Vec<u8>, bad: &BadRow) -> Result<(), Fail> {
    match bad {
        BadRow::Tablet(row) | BadRow::Candidate(row) | BadRow::Flag(row) => {
            text.extend_from_slice(row.as_bytes())?;
        }
    }
    Ok(())
}

fn put_untold(text: &mut Vec<u8>, untold: &Untold) -> Result<(), Fail> {
    match untold {
        Untold::File(path) => text.extend_from_slice(path.as_bytes())?,
        Untold::Log(log) => text.extend_from_slice(log.as_bytes())?,
    }
    Ok(())
}

fn put_fault(text: &mut Vec<u8>, fault: &ReadFault) -> Result<(), Fail> {
    match fault {
        ReadFault::NoRoot => text.extend_from_slice(b"no root")?,
        ReadFault::RootLacks(untold) => put_untold(text, untold)?,
        ReadFault::BadMetadata(row) => put_bad_row(text, row)?,
        ReadFault::NoChain => text.extend_from_slice(b"no chain")?,
        ReadFault::MetadataLacks(_, untold) => put_untold(text, untold)?,
        ReadFault::BadUsers(row) => put_bad_row(text, row)?,
        _ => text.extend_from_slice(b"other")?,
    }
    Ok(())
}

// The chain of `!0` and the tablets of all tables by their end rows, or what is to blame.
fn reading_text(alloc: Global, still: &StillGround) -> Result<Vec<u8>, Fail> {
    let mut text = Vec::new(alloc);
    match read(alloc, still) {
        Ok(read) => {
            put_ends(&mut text, read.chain.as_slice())?;
            text.push(b'|')?;
            put_ends(&mut text, read.users.records.as_slice())?;
        }
        Err(fault) => put_fault(&mut text, &fault)?,
    }
    Ok(text)
}

#[test]
fn a_new_store_has_two_tablets(rt: HostRuntime) -> Result<(), Fail> {
    let alloc = rt.alloc();
    let still = store(alloc, Cells::from_vec(first_cells(alloc)?), None)?;
    assert_eq!(rt;
        reading_text(alloc, &still)?.as_slice(),
        b"- ~ |".as_slice()
    );
    Ok(())
}

#[test]
fn a_table_has_its_tablets(rt: HostRuntime) -> Result<(), Fail> {
    let alloc = rt.alloc();
    let mut cells = Cells::new(alloc);
    put_record(
        alloc,
        &mut cells,
        b"1;m",
        &tablet(alloc, b"1", Some(b"m"), None)?,
    )?;
    put_record(
        alloc,
        &mut cells,
        b"1<",
        &tablet(alloc, b"1", None, Some(b"m"))?,
    )?;
    let still = store(alloc, levels(alloc)?, Some(cells))?;
    assert_eq!(rt;
        reading_text(alloc, &still)?.as_slice(),
        b"- ~ |m - ".as_slice()
    );
    Ok(())
}

#[test]
fn a_row_without_its_columns_is_to_blame(rt: HostRuntime) -> Result<(), Fail> {
    let alloc = rt.alloc();
    let mut cells = Cells::new(alloc);
    put_record(
        alloc,
        &mut cells,
        b"1;m",
        &tablet(alloc, b"1", Some(b"m"), None)?,
    )?;
    let column = Update {
        family: Octets::new(alloc, b"srv")?,
        qualifier: Octets::new(alloc, b"dir")?,
        value: Some(Octets::new(alloc, b"default_tablet")?),
    };
    cells.push(cell_of(alloc, b"1<", column)?)?;
    let still = store(alloc, levels(alloc)?, Some(cells))?;
    assert_eq!(rt; reading_text(alloc, &still)?.as_slice(), b"1<".as_slice());
    Ok(())
}

#[test]
fn an_untold_file_is_to_blame(rt: HostRuntime) -> Result<(), Fail> {
    let alloc = rt.alloc();
    let bare = StillGround::new(alloc, new_nodes(alloc)?);
    assert_eq!(rt; reading_text(alloc, &bare)?.as_slice(), ROOT_FILE);
    let still = store(alloc, levels(alloc)?, None)?;
    assert_eq!(rt; reading_text(alloc, &still)?.as_slice(), INFO_FILE);
    Ok(())
}

#[test]
fn a_level_without_chain_is_to_blame(rt: HostRuntime) -> Result<(), Fail> {
    let alloc = rt.alloc();
    let mut cells = Cells::new(alloc);
    put_record(
        alloc,
        &mut cells,
        b"!0<",
        &tablet(alloc, b"!0", None, Some(b"~"))?,
    )?;
    let still = store(alloc, cells, None)?;
    assert_eq!(rt;
        reading_text(alloc, &still)?.as_slice(),
        b"no chain".as_slice()
    );
    Ok(())
}
