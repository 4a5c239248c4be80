// A level, from its cells.
ghost use Rattle.std.specs.Prelude.{◌≢◌, IfOk, IfErr};
ghost use Rattle.store_meaning.specs.Levels.{IsLevelOf};
ghost use Rattle.state_reader.specs.LevelRows.{IsOfKind, level_of, LevelCause, HasNoLevel};
ghost use Rattle.state_reader.specs.declared.level.LevelFault.TheVariants.{NoMemory};

use crate::columns::rows_of;
use crate::level::{LevelFault, LevelKind, LevelRows};
use crate::marks::{read_candidates, read_flags};
use crate::records::read_records;
use cell_merge::{Cell, newest};
use std::alloc::Global;

/// What cells tell of a level of this kind. Each fault but want of memory names a row at which they tell of none: one of a tablet
/// of this kind, of a candidate, or of a flag, where the newest cells are those of no record, candidate or flag. Takes memory for
/// copies of the newest cells, and time with their number times the number of their rows.
pub fn read_level(alloc: Global, kind: LevelKind, cells: &[Cell]) -> Result<LevelRows, LevelFault>
    ensures ok { IfOk result (λ rows. IsLevelOf (IsOfKind kind) cells.now (level_of rows)) }
    ensures cause { IfErr result (LevelCause kind cells.now) }
    ensures none { IfErr result (λ fault. fault ≢ NoMemory → HasNoLevel kind cells.now) }
{
    let pairs = newest(alloc, cells)?;
    let rows = rows_of(alloc, &pairs)?;
    let records = read_records(alloc, kind, &pairs, &rows)?;
    let candidates = read_candidates(alloc, &pairs, &rows)?;
    let flags = read_flags(alloc, &pairs, &rows)?;
    Ok(LevelRows {
        records,
        candidates,
        flags,
    })
}
