// Tables, files and grounds made by hand.
use cell_merge::{Cell, Cells};
use memory_host::QuietHost;
use metadata_schema::{FileEntry, Mutation, TabletRecord, Update};
use node_store::NodeStore;
use row_keys::{Key, ListOf, Octets, Path, Row, TableId, TableName};
use state_reader::StillGround;
use std::alloc::Global;
use std::test::Fail;
use store_layout::{Mark, TableNode, TableState, nodes_name};

pub const FILE: &[u8] = b"1/default_tablet/F0000001.rf";

pub const OTHER: &[u8] = b"1/default_tablet/F0000002.rf";

pub const IMPORTED: &[u8] = b"1/default_tablet/I0000003.rf";

pub const LOG: &[u8] = b"log-0000000000000001";

pub fn path(alloc: Global, bytes: &[u8]) -> Result<Path, Fail> {
    Ok(Path::new(alloc, bytes)?.ok_or("no path")?)
}

pub fn row(alloc: Global, bytes: Option<&[u8]>) -> Result<Option<Row>, Fail> {
    match bytes {
        Some(bytes) => Ok(Some(Row::new(alloc, bytes)?)),
        None => Ok(None),
    }
}

pub fn id(alloc: Global, bytes: &[u8]) -> Result<TableId, Fail> {
    Ok(TableId::new(alloc, bytes)?.ok_or("no id")?)
}

// A tablet of table 1 with the bar 5, which names nothing.
pub fn bare(alloc: Global, end: Option<&[u8]>, prev: Option<&[u8]>) -> Result<TabletRecord, Fail> {
    Ok(TabletRecord {
        table: id(alloc, b"1")?,
        end: row(alloc, end)?,
        prev: row(alloc, prev)?,
        old_prev: None,
        dir: Octets::new(alloc, b"default_tablet")?,
        time: 5,
        loc: None,
        future: None,
        files: ListOf::new(alloc),
        logs: ListOf::new(alloc),
        loaded: ListOf::new(alloc),
        chopped: false,
        merged: None,
    })
}

pub fn add_file(
    alloc: Global,
    tablet: &mut TabletRecord,
    file: &[u8],
    time: Option<u64>,
) -> Result<(), Fail> {
    tablet.files.push(FileEntry {
        path: path(alloc, file)?,
        size: 10,
        entries: 2,
        time,
    })?;
    Ok(())
}

// The same with a file.
pub fn tablet(
    alloc: Global,
    end: Option<&[u8]>,
    prev: Option<&[u8]>,
) -> Result<TabletRecord, Fail> {
    let mut tablet = bare(alloc, end, prev)?;
    add_file(alloc, &mut tablet, FILE, None)?;
    Ok(tablet)
}

pub fn one(alloc: Global, tablet: TabletRecord) -> Result<Vec<TabletRecord>, Fail> {
    let mut records = Vec::new(alloc);
    records.push(tablet)?;
    Ok(records)
}

pub fn two(
    alloc: Global,
    low: TabletRecord,
    high: TabletRecord,
) -> Result<Vec<TabletRecord>, Fail> {
    let mut records = Vec::new(alloc);
    records.push(low)?;
    records.push(high)?;
    Ok(records)
}

// A cell of the column `f:q`.
pub fn cell(alloc: Global, row: &[u8], time: u64, value: &[u8]) -> Result<Cell, Fail> {
    Ok(Cell {
        key: Key {
            row: Row::new(alloc, row)?,
            family: Octets::new(alloc, b"f")?,
            qualifier: Octets::new(alloc, b"q")?,
        },
        time,
        value: Some(Octets::new(alloc, value)?),
    })
}

// A cell in the row `a`, and one in the row `n`.
pub fn pair_of_cells(alloc: Global, time: u64, value: &[u8]) -> Result<Cells, Fail> {
    let mut cells = Cells::new(alloc);
    cells.push(cell(alloc, b"a", time, value)?)?;
    cells.push(cell(alloc, b"n", time, value)?)?;
    Ok(cells)
}

// A mutation of the row `a` of table 1.
pub fn mutation(alloc: Global, time: u64, value: &[u8]) -> Result<Mutation, Fail> {
    let mut updates = ListOf::new(alloc);
    updates.push(Update {
        family: Octets::new(alloc, b"f")?,
        qualifier: Octets::new(alloc, b"q")?,
        value: Some(Octets::new(alloc, value)?),
    })?;
    Ok(Mutation {
        table: id(alloc, b"1")?,
        row: Row::new(alloc, b"a")?,
        time,
        updates,
    })
}

// A ground with the file, an imported one and another one.
pub fn ground(alloc: Global) -> Result<StillGround, Fail> {
    let mut host = QuietHost::new(alloc, b"")?;
    let nodes = NodeStore::create(alloc, &mut host, &nodes_name(alloc)?)?;
    let mut still = StillGround::new(alloc, nodes);
    still
        .files
        .insert(path(alloc, FILE)?, pair_of_cells(alloc, 3, b"w")?)?;
    still
        .files
        .insert(path(alloc, OTHER)?, pair_of_cells(alloc, 4, b"o")?)?;
    still
        .files
        .insert(path(alloc, IMPORTED)?, pair_of_cells(alloc, 0, b"i")?)?;
    Ok(still)
}

pub fn online(alloc: Global, mark: Mark) -> Result<TableNode, Fail> {
    Ok(TableNode {
        id: id(alloc, b"1")?,
        name: TableName::new(alloc, b"t")?.ok_or("no name")?,
        state: TableState::Online,
        mark,
    })
}
