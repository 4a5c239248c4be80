// The content of a tablet.
ghost use Rattle.std.specs.Prelude.{◌≡◌, [], ◌∷◌, ◌++◌, Some, IfOk, OnOk, filter, map};
ghost use Rattle.std.specs.List.{flat_map};
ghost use Rattle.std.specs.Option.{option_map};
ghost use Rattle.store_meaning.specs.Content.{timed, file_cells, cells_of_mutation, counts_for, log_cells, logs_of, log_of_holder, all_told, content_of};
ghost use Rattle.state_reader.specs.Still.{ground_of};

use crate::still::StillGround;
use cell_merge::{Cell, Cells, clip};
use metadata_schema::{FileEntry, Holder, Mutation, TabletRecord};
use row_keys::{Extent, Key, LogName, Row};
use std::alloc::{AllocError, Global};

/// A copy of a cell of a file, with the time of the file's column where that has one.
fn timed(alloc: Global, time: Option<u64>, cell: &Cell) -> Result<Cell, AllocError>
    ensures { IfOk result (λ copy. copy ≡ timed time cell.now) }
{
    let mut copy = cell.copy(alloc)?;
    if let Some(time) = time {
        copy.time = time;
    }
    Ok(copy)
}

fn timed_cells(alloc: Global, time: Option<u64>, stored: &[Cell]) -> Result<Vec<Cell>, AllocError>
    ensures { IfOk result (λ cells. cells.items ≡ map (timed time) stored.now) }
{
    let mut cells = Vec::new(alloc);
    for cell in stored {
        cells.push(timed(alloc, time, cell)?)?;
    }
    Ok(cells)
}

/// The cells of a file as its column says.
fn file_cells(
    alloc: Global,
    still: &StillGround,
    file: &FileEntry,
) -> Result<Option<Cells>, AllocError>
    ensures { IfOk result (λ told. told ≡ file_cells (ground_of still.now) file.now) }
{
    match still.files.get(&file.path) {
        Some(stored) => {
            let cells = timed_cells(alloc, file.time, stored.as_slice())?;
            Ok(Some(Cells::from_vec(cells)))
        }
        None => Ok(None),
    }
}

/// Adds what a mutation writes.
fn push_written(alloc: Global, cells: &mut Vec<Cell>, mutation: &Mutation) -> Result<(), AllocError>
    ensures { OnOk result (cells.new.items ≡ cells.old.items ++ cells_of_mutation mutation.now) }
{
    for update in mutation.updates.as_slice() {
        let value = match &update.value {
            Some(value) => Some(value.copy(alloc)?),
            None => None,
        };
        cells.push(Cell {
            key: Key {
                row: mutation.row.copy(alloc)?,
                family: update.family.copy(alloc)?,
                qualifier: update.qualifier.copy(alloc)?,
            },
            time: mutation.time,
            value,
        })?;
    }
    Ok(())
}

/// Whether the mutation is of the tablet's table, and past its bar.
fn counts_for(tablet: &TabletRecord, mutation: &Mutation) -> bool
    ensures { result ≡ counts_for tablet.now mutation.now }
{
    mutation.table == tablet.table && tablet.time < mutation.time
}

/// What the mutations write that count for the tablet.
fn counted_cells(
    alloc: Global,
    tablet: &TabletRecord,
    mutations: &[Mutation],
) -> Result<Vec<Cell>, AllocError>
    ensures { IfOk result (λ cells. cells.items ≡ flat_map cells_of_mutation (filter (counts_for tablet.now) mutations.now)) }
{
    let mut cells = Vec::new(alloc);
    for mutation in mutations {
        if counts_for(tablet, mutation) {
            push_written(alloc, &mut cells, mutation)?;
        }
    }
    Ok(cells)
}

/// The cells that a log has for a tablet.
fn log_cells(
    alloc: Global,
    still: &StillGround,
    tablet: &TabletRecord,
    log: &LogName,
) -> Result<Option<Cells>, AllocError>
    ensures { IfOk result (λ told. told ≡ log_cells (ground_of still.now) tablet.now log.now) }
{
    match still.logs.get(log) {
        Some(mutations) => {
            let cells = counted_cells(alloc, tablet, mutations.as_slice())?;
            Ok(Some(Cells::from_vec(cells)))
        }
        None => Ok(None),
    }
}

const PREFIX: &[u8] = b"log-";

/// The log of a server's session.
fn log_of_session(alloc: Global, holder: &Holder) -> Result<LogName, AllocError>
    ensures { IfOk result (λ log. log ∷ [] ≡ log_of_holder (Some holder.now)) }
{
    let mut name = PREFIX.to_vec(alloc)?;
    name.extend_from_slice(holder.session.as_bytes())?;
    let log = LogName::new(alloc, &name)?;
    Ok(log.unwrap())
}

/// The logs that a record names, and that of the session in its `loc`. Takes memory for their names.
pub fn logs_of(alloc: Global, tablet: &TabletRecord) -> Result<Vec<LogName>, AllocError>
    ensures { IfOk result (λ logs. logs.items ≡ logs_of tablet.now) }
{
    let mut logs = Vec::new(alloc);
    for log in tablet.logs.as_slice() {
        logs.push(log.copy(alloc)?)?;
    }
    if let Some(holder) = &tablet.loc {
        logs.push(log_of_session(alloc, holder)?)?;
    }
    Ok(logs)
}

/// The cells of all files that a record names.
fn cells_of_files(
    alloc: Global,
    still: &StillGround,
    files: &[FileEntry],
) -> Result<Option<Vec<Cell>>, AllocError>
    ensures { IfOk result (λ told. option_map (λ cells. cells.items) told ≡ all_told (file_cells (ground_of still.now)) files.now) }
{
    let mut all = Vec::new(alloc);
    for file in files {
        let Some(cells) = file_cells(alloc, still, file)? else {
            return Ok(None);
        };
        all.append(&mut cells.into_vec())?;
    }
    Ok(Some(all))
}

/// The cells that all of these logs have for a tablet.
fn cells_of_logs(
    alloc: Global,
    still: &StillGround,
    tablet: &TabletRecord,
    logs: &[LogName],
) -> Result<Option<Vec<Cell>>, AllocError>
    ensures { IfOk result (λ told. option_map (λ cells. cells.items) told ≡ all_told (log_cells (ground_of still.now) tablet.now) logs.now) }
{
    let mut all = Vec::new(alloc);
    for log in logs {
        let Some(cells) = log_cells(alloc, still, tablet, log)? else {
            return Ok(None);
        };
        all.append(&mut cells.into_vec())?;
    }
    Ok(Some(all))
}

fn copy_of(alloc: Global, row: &Option<Row>) -> Result<Option<Row>, AllocError>
    ensures { IfOk result (λ copy. copy ≡ row.now) }
{
    match row {
        Some(row) => Ok(Some(row.copy(alloc)?)),
        None => Ok(None),
    }
}

/// The content of a tablet of the rows above `low`, up to its end row and at it: the cells of its files, and those of its table's
/// mutations past its bar, in the logs that it names and in that of the session in its `loc`. None comes exactly where a file or
/// log isn't told. `AllocError` comes only at want of memory. Takes memory for copies of all cells, and time with them and with
/// the mutations, and with the logarithm of the files and logs.
pub fn content(
    alloc: Global,
    still: &StillGround,
    low: &Option<Row>,
    tablet: &TabletRecord,
) -> Result<Option<Cells>, AllocError>
    ensures { IfOk result (λ told. told ≡ content_of (ground_of still.now) low.now tablet.now) }
{
    let Some(mut cells) = cells_of_files(alloc, still, tablet.files.as_slice())? else {
        return Ok(None);
    };
    let logs = logs_of(alloc, tablet)?;
    let Some(mut unflushed) = cells_of_logs(alloc, still, tablet, &logs)? else {
        return Ok(None);
    };
    cells.append(&mut unflushed)?;
    let extent = Extent {
        table: tablet.table.copy(alloc)?,
        prev: copy_of(alloc, low)?,
        end: copy_of(alloc, &tablet.end)?,
    };
    let inside = clip(alloc, &cells, &extent)?;
    Ok(Some(Cells::from_vec(inside)))
}
