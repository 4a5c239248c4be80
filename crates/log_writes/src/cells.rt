// The cells of a row that gets updates.
ghost use Rattle.std.specs.Prelude.{◌≡◌, ◌++◌, map, IfOk, OnOk};
ghost use Rattle.store_layout.specs.NewStore.{cell_of};
ghost use Rattle.log_writes.specs.Updating.{updated_cells};

use cell_merge::Cell;
use metadata_schema::Update;
use row_keys::{Key, Row};
use std::alloc::{AllocError, Global};

const EARLIER: u64 = 0;

const LATER: u64 = 1;

/// The cell that an update writes.
fn cell_of(alloc: Global, row: &Row, time: u64, update: &Update) -> Result<Cell, AllocError>
    ensures { IfOk result (λ cell. cell ≡ cell_of row.now time update.now) }
{
    let value = match &update.value {
        Some(value) => Some(value.copy(alloc)?),
        None => None,
    };
    Ok(Cell {
        key: Key {
            row: row.copy(alloc)?,
            family: update.family.copy(alloc)?,
            qualifier: update.qualifier.copy(alloc)?,
        },
        time,
        value,
    })
}

/// Adds the cells that updates write.
fn push_cells(
    alloc: Global,
    cells: &mut Vec<Cell>,
    row: &Row,
    time: u64,
    updates: &[Update],
) -> Result<(), AllocError>
    ensures { OnOk result (cells.new.items ≡ cells.old.items ++ map (cell_of row.now time) updates.now) }
{
    for update in updates {
        cells.push(cell_of(alloc, row, time, update)?)?;
    }
    Ok(())
}

/// The cells of a row that has these columns and then gets these updates.
pub fn updated_cells(
    alloc: Global,
    columns: &[Update],
    row: &Row,
    updates: &[Update],
) -> Result<Vec<Cell>, AllocError>
    ensures { IfOk result (λ cells. cells.items ≡ updated_cells columns.now row.now updates.now) }
{
    let mut cells = Vec::new(alloc);
    push_cells(alloc, &mut cells, row, EARLIER, columns)?;
    push_cells(alloc, &mut cells, row, LATER, updates)?;
    Ok(cells)
}
