// The tables and staged files that nodes tell of, with none left out.
ghost use Rattle.std.specs.Prelude.{IfOk, IfErr};
ghost use Rattle.state_reader.specs.Still.{ground_of};
ghost use Rattle.plain_state.specs.Catalogs.{AreAllTables, AreAllFiles};
ghost use Rattle.plain_state.specs.Causes.{StateCause};

use crate::fault::StateFault;
use crate::paths::paths_behind;
use row_keys::{Path, StagedName};
use state_reader::StillGround;
use std::alloc::Global;
use store_layout::TableNode;
use table_names::{files_at, tables_at};

const TABLES: &[u8] = b"/tables/";

const STAGED: &[u8] = b"/staged/";

/// The tables of all nodes under `/tables`, however deep, in byte order of their ids.
pub fn all_tables(alloc: Global, still: &StillGround) -> Result<Vec<TableNode>, StateFault>
    ensures ok { IfOk result (λ tables. AreAllTables still.now.nodes.nodes tables.items) }
    ensures cause { IfErr result (StateCause (ground_of still.now)) }
{
    let paths = paths_behind(alloc, &still.nodes, TABLES)?;
    match tables_at(alloc, &still.nodes, &paths)? {
        Some(tables) => Ok(tables),
        None => Err(StateFault::StrayTable),
    }
}

/// The staged files of all nodes under `/staged`, however deep, each by its name and its path, in byte order of the names.
pub fn all_files(alloc: Global, still: &StillGround) -> Result<Vec<(StagedName, Path)>, StateFault>
    ensures ok { IfOk result (λ files. AreAllFiles still.now.nodes.nodes files.items) }
    ensures cause { IfErr result (StateCause (ground_of still.now)) }
{
    let paths = paths_behind(alloc, &still.nodes, STAGED)?;
    match files_at(alloc, &still.nodes, &paths)? {
        Some(files) => Ok(files),
        None => Err(StateFault::StrayFile),
    }
}
