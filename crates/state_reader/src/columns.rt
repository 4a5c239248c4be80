// The columns of rows.
ghost use Rattle.std.specs.Prelude.{◌≡◌, IfOk, Contains};
ghost use Rattle.std.specs.Bool.{OnTrue};
ghost use Rattle.metadata_schema.specs.Refusals.{AreColumns};
ghost use Rattle.store_meaning.specs.Levels.{SpellsRow};
ghost use Rattle.state_reader.specs.Columns.{column_of, columns_in, AreRowsOf};

use cell_merge::{Cell, Pair, newest};
use metadata_schema::{Update, Updates};
use row_keys::Row;
use std::alloc::{AllocError, Global};

/// A pair as a column of its row.
fn column_of(alloc: Global, pair: &Pair) -> Result<Update, AllocError>
    ensures { IfOk result (λ column. column ≡ column_of pair.now) }
{
    Ok(Update {
        family: pair.key.family.copy(alloc)?,
        qualifier: pair.key.qualifier.copy(alloc)?,
        value: Some(pair.value.copy(alloc)?),
    })
}

/// The columns of a row among pairs. Takes one pass over the pairs, and memory for the columns.
pub fn columns_in(alloc: Global, pairs: &[Pair], row: &Row) -> Result<Vec<Update>, AllocError>
    ensures { IfOk result (λ columns. columns.items ≡ columns_in pairs.now row.now) }
{
    let mut columns = Vec::new(alloc);
    for pair in pairs {
        if pair.key.row == *row {
            columns.push(column_of(alloc, pair)?)?;
        }
    }
    Ok(columns)
}

/// Whether this is the last of the rows.
fn is_last(rows: &[Row], row: &Row) -> bool
    ensures { OnTrue result (Contains rows.now row.now) }
{
    match rows.last() {
        Some(last) => last == row,
        None => false,
    }
}

/// The rows of pairs: of pairs that are in order each row once. Takes memory for copies of them.
pub fn rows_of(alloc: Global, pairs: &[Pair]) -> Result<Vec<Row>, AllocError>
    ensures { IfOk result (λ rows. AreRowsOf pairs.now rows.items) }
{
    let mut rows = Vec::new(alloc);
    for pair in pairs {
        if !is_last(&rows, &pair.key.row) {
            rows.push(pair.key.row.copy(alloc)?)?;
        }
    }
    Ok(rows)
}

/// What the newest of these cells are at a row, as columns in order: a column is there exactly where its cell of greatest time has a
/// value. `AllocError` comes only at want of memory. Takes memory for copies of the newest cells, and time n log n for n cells.
pub fn row_columns(alloc: Global, cells: &[Cell], row: &Row) -> Result<Updates, AllocError>
    ensures spells { IfOk result (SpellsRow cells.now row.now) }
    ensures columns { IfOk result AreColumns }
{
    let pairs = newest(alloc, cells)?;
    let columns = columns_in(alloc, &pairs, row)?;
    Ok(Updates::from_vec(columns))
}
