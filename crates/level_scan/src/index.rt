// The level of which cells tell.
ghost use Rattle.std.specs.Prelude.{◌≡◌, IfOk, IfErr};
ghost use Rattle.store_meaning.specs.Levels.{IsLevelOf};
ghost use Rattle.state_reader.specs.LevelRows.{IsOfKind};
ghost use Rattle.level_index.specs.Entries.{level_of};
ghost use Rattle.level_scan.specs.Causes.{NoLevelCause};

use crate::nodes_fault::NodesFault;
use cell_merge::Cell;
use level_index::LevelIndex;
use state_reader::{LevelFault, LevelKind};
use std::alloc::Global;

/// The level of this kind of which cells tell.
pub fn index_of(alloc: Global, kind: LevelKind, cells: &[Cell]) -> Result<LevelIndex, NodesFault>
    ensures kind { IfOk result (λ index. index.kind ≡ kind) }
    ensures ok { IfOk result (λ index. IsLevelOf (IsOfKind kind) cells.now (level_of index)) }
    ensures cause { IfErr result (NoLevelCause kind cells.now) }
{
    match LevelIndex::read(alloc, kind, cells) {
        Ok(index) => Ok(index),
        Err(LevelFault::Bad(_)) => Err(NodesFault::Damaged),
        Err(LevelFault::NoMemory) => Err(NodesFault::NoMemory),
    }
}
