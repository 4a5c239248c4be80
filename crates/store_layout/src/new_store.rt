// The tablets of a new store, and the first file of the root tablet.
ghost use Rattle.std.specs.Prelude.{◌≡◌, ◌++◌, ◌≤◌, IfOk, IfSome, OnOk, Some, codes, length, map};
ghost use Rattle.row_keys.specs.Forms.{IsPath, IsTableId};
ghost use Rattle.data_files.specs.Cells.{AreFileCells};
ghost use Rattle.metadata_schema.specs.Paths.{IsFilePath};
ghost use Rattle.metadata_schema.specs.Records.{new_tablet};
ghost use Rattle.store_layout.specs.NewStore.{cell_of, first_cells, last_metadata, record_cells, root_file, root_file_path, table_info};

use crate::names::file_of;
use cell_merge::Cell;
use host_model::Name;
use metadata_schema::{TabletRecord, Update, columns_of};
use row_keys::{Key, ListOf, Octets, Path, Row, TableId, metadata_row};
use std::alloc::{AllocError, Global};

const METADATA_TABLE: &[u8] = b"!0";

/// The end row of the first metadata tablet.
const METADATA_SPLIT: &[u8] = b"~";

pub(crate) const ROOT_FILE: &[u8] = b"+r/root_tablet/A0000001.rf";

/// The time of the first cells, which is the root tablet's first bar.
pub(crate) const FIRST_TIME: u64 = 1;

pub(crate) fn path_of(alloc: Global, bytes: &[u8]) -> Result<Path, AllocError>
    requires { IsPath bytes.now }
    ensures { IfOk result (λ path. path ≡ bytes.now) }
{
    let path = Path::new(alloc, bytes)?;
    Ok(path.unwrap())
}

pub(crate) fn table_of(alloc: Global, id: &[u8]) -> Result<TableId, AllocError>
    requires { IsTableId id.now }
    ensures { IfOk result (λ table. table ≡ id.now) }
{
    let table = TableId::new(alloc, id)?;
    Ok(table.unwrap())
}

fn split_row(alloc: Global) -> Result<Row, AllocError>
    ensures { IfOk result (λ row. row ≡ codes "~") }
{
    let bytes = Octets::new(alloc, METADATA_SPLIT)?;
    Ok(Row::from_octets(bytes))
}

/// A tablet with nothing in it.
pub(crate) fn new_tablet(
    alloc: Global,
    table: TableId,
    end: Option<Row>,
    prev: Option<Row>,
    dir: &[u8],
) -> Result<TabletRecord, AllocError>
    ensures { IfOk result (λ tablet. tablet ≡ new_tablet table end prev dir.now) }
{
    let dir = Octets::new(alloc, dir)?;
    Ok(TabletRecord {
        table,
        end,
        prev,
        old_prev: None,
        dir,
        time: 0,
        loc: None,
        future: None,
        files: ListOf::new(alloc),
        logs: ListOf::new(alloc),
        loaded: ListOf::new(alloc),
        chopped: false,
        merged: None,
    })
}

/// The cell that an update writes.
fn cell_of(alloc: Global, row: &Row, update: Update) -> Result<Cell, AllocError>
    ensures { IfOk result (λ cell. cell ≡ cell_of row.now 1 update) }
{
    let key = Key {
        row: row.copy(alloc)?,
        family: update.family,
        qualifier: update.qualifier,
    };
    Ok(Cell {
        key,
        time: FIRST_TIME,
        value: update.value,
    })
}

fn push_cells(
    alloc: Global,
    cells: &mut Vec<Cell>,
    row: &Row,
    columns: Vec<Update>,
) -> Result<(), AllocError>
    ensures { OnOk result (cells.new.items ≡ cells.old.items ++ map (cell_of row.now 1) columns.items) }
{
    for column in columns {
        cells.push(cell_of(alloc, row, column)?)?;
    }
    Ok(())
}

/// Adds the cells of a tablet's record, at its row.
fn push_record(
    alloc: Global,
    cells: &mut Vec<Cell>,
    tablet: &TabletRecord,
) -> Result<(), AllocError>
    requires { IfSome tablet.now.end (λ row. length row ≤ 256) }
    ensures { OnOk result (cells.new.items ≡ cells.old.items ++ record_cells tablet.now) }
{
    let row = metadata_row(alloc, &tablet.table, tablet.end.as_ref())?;
    push_cells(alloc, cells, &row, columns_of(alloc, tablet)?)
}

fn table_info(alloc: Global) -> Result<TabletRecord, AllocError>
    ensures { IfOk result (λ tablet. tablet ≡ table_info) }
{
    let table = table_of(alloc, METADATA_TABLE)?;
    let end = split_row(alloc)?;
    new_tablet(alloc, table, Some(end), None, b"table_info")
}

fn last_metadata(alloc: Global) -> Result<TabletRecord, AllocError>
    ensures { IfOk result (λ tablet. tablet ≡ last_metadata) }
{
    let table = table_of(alloc, METADATA_TABLE)?;
    let prev = split_row(alloc)?;
    new_tablet(alloc, table, None, Some(prev), b"default_tablet")
}

/// The cells of the first file of the root tablet: the records of the two metadata tablets, which may be written to a file.
/// Takes memory for them.
pub fn first_cells(alloc: Global) -> Result<Vec<Cell>, AllocError>
    ensures cells { IfOk result (λ cells. cells.items ≡ first_cells) }
    ensures form { IfOk result (λ cells. AreFileCells cells.items) }
{
    let info = table_info(alloc)?;
    let last = last_metadata(alloc)?;
    let mut cells = Vec::new(alloc);
    push_record(alloc, &mut cells, &info)?;
    push_record(alloc, &mut cells, &last)?;
    Ok(cells)
}

/// The path of the first file of the root tablet. Takes memory for it.
#[tactic(auto, using(crate::proofs::FirstLemmas::root_path_form))]
pub fn root_file_path(alloc: Global) -> Result<Path, AllocError>
    ensures path { IfOk result (λ path. path ≡ root_file_path) }
    ensures form { IfOk result IsFilePath }
{
    path_of(alloc, ROOT_FILE)
}

/// The name of the first file of the root tablet. Takes memory for it.
pub fn root_file_name(alloc: Global) -> Result<Name, AllocError>
    ensures { IfOk result (λ name. name ≡ root_file) }
{
    let path = root_file_path(alloc)?;
    file_of(alloc, &path)
}
