// The columns of rows, and what they become by updates.
ghost use Rattle.std.specs.Prelude.{◌≡◌, ◌++◌, map, None, IfOk, IfErr, OnOk};
ghost use Rattle.std.specs.Option.{option_copied};
ghost use Rattle.store_layout.specs.NewStore.{cell_of};
ghost use Rattle.store_meaning.specs.Levels.{lone_column};
ghost use Rattle.state_reader.specs.RowReads.{flag_text};
ghost use Rattle.level_index.specs.Entries.{columns_at, IsRowOf};
ghost use Rattle.level_index.specs.Writes.{GivesEntry, EntryCause, IsNoRowCause, updated_cells};

use crate::entry::LevelEntry;
use crate::pending::WriteFault;
use crate::rows::{entry_in, is_row_of};
use cell_merge::{Cell, newest};
use metadata_schema::{Update, columns_of};
use row_keys::{Key, Octets, Row};
use state_reader::{LevelFault, LevelKind};
use std::alloc::{AllocError, Global};

const EARLIER: u64 = 0;

const LATER: u64 = 1;

/// One column of an empty family and qualifier.
fn lone_column(alloc: Global, value: Octets) -> Result<Vec<Update>, AllocError>
    ensures { IfOk result (λ columns. columns.items ≡ lone_column value) }
{
    let mut columns = Vec::new(alloc);
    columns.push(Update {
        family: Octets::from_vec(Vec::new(alloc)),
        qualifier: Octets::from_vec(Vec::new(alloc)),
        value: Some(value),
    })?;
    Ok(columns)
}

/// The value of a flag's column.
fn flag_text(alloc: Global, tid: u64, number: u64) -> Result<Octets, AllocError>
    ensures { IfOk result (λ text. text ≡ flag_text tid number) }
{
    let text = format!(in alloc; "{tid},{number}")?;
    Octets::new(alloc, text.as_bytes())
}

/// The columns of what stands at a row, if anything.
pub fn columns_at(alloc: Global, entry: Option<&LevelEntry>) -> Result<Vec<Update>, AllocError>
    ensures { IfOk result (λ columns. columns.items ≡ columns_at (option_copied entry.entry)) }
{
    match entry {
        None => Ok(Vec::new(alloc)),
        Some(LevelEntry::Tablet(tablet)) => columns_of(alloc, tablet),
        Some(LevelEntry::Candidate(_)) => lone_column(alloc, Octets::from_vec(Vec::new(alloc))),
        Some(LevelEntry::Flag(flag)) => {
            let text = flag_text(alloc, flag.tid, flag.number)?;
            lone_column(alloc, text)
        }
    }
}

/// The cell that an update writes.
fn cell_of(alloc: Global, row: &Row, time: u64, update: &Update) -> Result<Cell, AllocError>
    ensures { IfOk result (λ cell. cell ≡ cell_of row.now time update.now) }
{
    let value = match &update.value {
        Some(value) => Some(value.copy(alloc)?),
        None => None,
    };
    Ok(Cell {
        key: Key {
            row: row.copy(alloc)?,
            family: update.family.copy(alloc)?,
            qualifier: update.qualifier.copy(alloc)?,
        },
        time,
        value,
    })
}

/// Adds the cells that updates write.
fn push_cells(
    alloc: Global,
    cells: &mut Vec<Cell>,
    row: &Row,
    time: u64,
    updates: &[Update],
) -> Result<(), AllocError>
    ensures { OnOk result (cells.new.items ≡ cells.old.items ++ map (cell_of row.now time) updates.now) }
{
    for update in updates {
        cells.push(cell_of(alloc, row, time, update)?)?;
    }
    Ok(())
}

/// The cells of a row that has these columns and then gets these updates.
fn updated_cells(
    alloc: Global,
    columns: &[Update],
    row: &Row,
    updates: &[Update],
) -> Result<Vec<Cell>, AllocError>
    ensures { IfOk result (λ cells. cells.items ≡ updated_cells columns.now row.now updates.now) }
{
    let mut cells = Vec::new(alloc);
    push_cells(alloc, &mut cells, row, EARLIER, columns)?;
    push_cells(alloc, &mut cells, row, LATER, updates)?;
    Ok(cells)
}

/// Nothing, where the row is one of such a level.
fn nothing_at(alloc: Global, kind: LevelKind, row: &Row) -> Result<Option<LevelEntry>, WriteFault>
    ensures none { IfOk result (λ found. found ≡ None) }
    ensures ok { OnOk result (IsRowOf kind row.now) }
    ensures cause { IfErr result (IsNoRowCause kind row.now) }
{
    match is_row_of(alloc, kind, row) {
        Ok(true) => Ok(None),
        Ok(false) => Err(WriteFault::NoRow),
        Err(_) => Err(WriteFault::NoMemory),
    }
}

/// What stands at a row that has these columns once it gets these updates. Takes memory for the cells of the row, and time n log n
/// for n columns.
pub fn entry_after(
    alloc: Global,
    kind: LevelKind,
    columns: &[Update],
    row: &Row,
    updates: &[Update],
) -> Result<Option<LevelEntry>, WriteFault>
    ensures ok { IfOk result (GivesEntry kind columns.now row.now updates.now) }
    ensures cause { IfErr result (EntryCause kind columns.now row.now updates.now) }
{
    let cells = updated_cells(alloc, columns, row, updates)?;
    let pairs = newest(alloc, &cells)?;
    let Some(_first) = pairs.first() else {
        return nothing_at(alloc, kind, row);
    };
    match entry_in(alloc, kind, &pairs, row) {
        Ok(Some(entry)) => Ok(Some(entry)),
        Ok(None) => Err(WriteFault::NoRow),
        Err(LevelFault::Bad(_)) => Err(WriteFault::BadColumns),
        Err(LevelFault::NoMemory) => Err(WriteFault::NoMemory),
    }
}
