// The cells of the tablets of a table.
ghost use Rattle.std.specs.Prelude.{◌≡◌, [], ◌∷◌, Some, IfOk, IfErr, MatchOption};
ghost use Rattle.level_rows.specs.Chain.{rows_of};
ghost use Rattle.store_meaning.specs.Content.{tablet_content, contents_of};
ghost use Rattle.state_reader.specs.Still.{ground_of};
ghost use Rattle.state_reader.specs.Lacks.{AreFilesTold, LacksFile, AreLogsTold, LacksLog, IsAllTold, IsLacking, AreOfTable, ChainCause};

use crate::still::StillGround;
use crate::store_reading::{ChainFault, Untold};
use crate::tablet_cells::{content, logs_of};
use cell_merge::Cells;
use level_rows::effective_prev;
use metadata_schema::{FileEntry, TabletRecord};
use row_keys::{LogName, Path, Row, TableId};
use std::alloc::{AllocError, Global};

/// The first of these files of which nothing is told.
fn untold_file(
    alloc: Global,
    still: &StillGround,
    files: &[FileEntry],
) -> Result<Option<Path>, AllocError>
    ensures { IfOk result (λ found. MatchOption found (AreFilesTold (ground_of still.now) files.now) (LacksFile (ground_of still.now) files.now)) }
{
    for file in files {
        if still.files.get(&file.path).is_none() {
            return Ok(Some(file.path.copy(alloc)?));
        }
    }
    Ok(None)
}

/// The first of these logs of which nothing is told.
pub fn untold_log(
    alloc: Global,
    still: &StillGround,
    logs: &[LogName],
) -> Result<Option<LogName>, AllocError>
    ensures { IfOk result (λ found. MatchOption found (AreLogsTold (ground_of still.now) logs.now) (LacksLog (ground_of still.now) logs.now)) }
{
    for log in logs {
        if still.logs.get(log).is_none() {
            return Ok(Some(log.copy(alloc)?));
        }
    }
    Ok(None)
}

/// A file or log that the tablet names and of which nothing is told, or none where all is told.
pub fn untold(
    alloc: Global,
    still: &StillGround,
    tablet: &TabletRecord,
) -> Result<Option<Untold>, AllocError>
    ensures { IfOk result (λ found. MatchOption found (IsAllTold (ground_of still.now) tablet.now) (IsLacking (ground_of still.now) tablet.now)) }
{
    if let Some(path) = untold_file(alloc, still, tablet.files.as_slice())? {
        return Ok(Some(Untold::File(path)));
    }
    let logs = logs_of(alloc, tablet)?;
    match untold_log(alloc, still, &logs)? {
        Some(log) => Ok(Some(Untold::Log(log))),
        None => Ok(None),
    }
}

fn copy_of(alloc: Global, row: &Option<Row>) -> Result<Option<Row>, AllocError>
    ensures { IfOk result (λ copy. copy ≡ row.now) }
{
    match row {
        Some(row) => Ok(Some(row.copy(alloc)?)),
        None => Ok(None),
    }
}

/// The content of a tablet among the records of its level.
pub fn told_cells(
    alloc: Global,
    still: &StillGround,
    records: &[TabletRecord],
    tablet: &TabletRecord,
) -> Result<Cells, ChainFault>
    ensures ok { IfOk result (λ cells. tablet_content (ground_of still.now) (rows_of tablet.now.table records.now) tablet.now ≡ Some cells) }
    ensures cause { IfErr result (ChainCause (ground_of still.now) (tablet.now ∷ [])) }
{
    if let Some(untold) = untold(alloc, still, tablet)? {
        return Err(ChainFault::Lacks(copy_of(alloc, &tablet.end)?, untold));
    }
    let low = effective_prev(alloc, tablet, records)?;
    match content(alloc, still, &low, tablet)? {
        Some(cells) => Ok(cells),
        None => unreachable!(),
    }
}

/// The cells of all tablets of a chain of a table, one tablet's behind the other's. `Lacks` names the tablet of which a file or
/// log isn't told by its end row, and that file or log; beside it there is want of memory alone. Takes memory for copies of all
/// cells, and for each tablet one pass over the records.
pub fn chain_cells(
    alloc: Global,
    still: &StillGround,
    table: &TableId,
    records: &[TabletRecord],
    chain: &[TabletRecord],
) -> Result<Cells, ChainFault>
    requires { AreOfTable table.now chain.now }
    ensures ok { IfOk result (λ cells. contents_of (ground_of still.now) (rows_of table.now records.now) chain.now ≡ Some cells) }
    ensures cause { IfErr result (ChainCause (ground_of still.now) chain.now) }
{
    let mut all = Vec::new(alloc);
    for tablet in chain {
        let cells = told_cells(alloc, still, records, tablet)?;
        all.append(&mut cells.into_vec())?;
    }
    Ok(Cells::from_vec(all))
}
