// A level, from its cells.
ghost use Rattle.std.specs.Prelude.{◌≡◌, ◌≢◌, List, IfOk, IfErr};
ghost use Rattle.cell_merge.specs.declared.cell.Cell.{Cell};
ghost use Rattle.cell_merge.specs.Newest.{IsNewest};
ghost use Rattle.store_meaning.specs.Levels.{IsLevelOf};
ghost use Rattle.state_reader.specs.declared.level.LevelFault.TheVariants.{NoMemory};
ghost use Rattle.state_reader.specs.Columns.{AreInOrder};
ghost use Rattle.state_reader.specs.LevelRows.{IsOfKind, LevelCause, HasNoLevel};
ghost use Rattle.level_index.specs.Entries.{level_of};
ghost use Rattle.level_index.specs.RowReads.{IsReadTo};

use crate::index::LevelIndex;
use crate::rows::{entry_in, first_row};
use cell_merge::{Cell, Pair, newest};
use state_reader::{LevelFault, LevelKind};
use std::alloc::Global;

/// Goes through the pairs, row by row.
fn read_rows(alloc: Global, kind: LevelKind, pairs: &[Pair]) -> Result<LevelIndex, LevelFault>
    requires { AreInOrder pairs.now }
    ensures kind { IfOk result (λ index. index.kind ≡ kind) }
    ensures ok { IfOk result (λ index. (cells : List Cell) → IsNewest cells pairs.now → IsReadTo kind cells pairs.now index.entries) }
    ensures err { IfErr result (λ fault. (cells : List Cell) → IsNewest cells pairs.now → LevelCause kind cells fault) }
{
    let mut index = LevelIndex::new(alloc, kind);
    let mut rest = pairs;
    'rows: while let Some(first) = rest.first() {
        let (group, more) = first_row(rest, &first.key.row);
        if let Some(entry) = entry_in(alloc, kind, group, &first.key.row)? {
            index.add(alloc, &first.key.row, entry)?;
        }
        rest = more;
    }
    Ok(index)
}

impl LevelIndex {
    /// What cells tell of a level of this kind. Each fault but want of memory names a row at which they tell of none: one of a tablet
    /// of this kind, of a candidate, or of a flag, where the newest cells are those of no record, candidate or flag. Takes memory for
    /// copies of the newest cells, and time n log n for n cells.
    pub fn read(alloc: Global, kind: LevelKind, cells: &[Cell]) -> Result<LevelIndex, LevelFault>
        ensures kind { IfOk result (λ index. index.kind ≡ kind) }
        ensures ok { IfOk result (λ index. IsLevelOf (IsOfKind kind) cells.now (level_of index)) }
        ensures cause { IfErr result (LevelCause kind cells.now) }
        ensures none { IfErr result (λ fault. fault ≢ NoMemory → HasNoLevel kind cells.now) }
    {
        let pairs = newest(alloc, cells)?;
        read_rows(alloc, kind, &pairs)
    }
}
