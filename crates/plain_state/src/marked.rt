// Whether the files that import marks name are told.
ghost use Rattle.std.specs.Prelude.{IfOk, IfErr, OnOk, MatchOption};
ghost use Rattle.store_meaning.specs.Marked.{mark_paths};
ghost use Rattle.state_reader.specs.Still.{ground_of};
ghost use Rattle.plain_state.specs.Records.{ArePathsTold, LacksPath};
ghost use Rattle.plain_state.specs.Catalogs.{AreAllTables, AreMarksTold};
ghost use Rattle.plain_state.specs.Causes.{StateCause};

use crate::fault::StateFault;
use row_keys::Path;
use state_reader::StillGround;
use std::alloc::{AllocError, Global};
use store_layout::{Mark, TableNode};

/// The first of these files of which nothing is told.
fn untold_path(
    alloc: Global,
    still: &StillGround,
    paths: &[Path],
) -> Result<Option<Path>, AllocError>
    ensures { IfOk result (λ found. MatchOption found (ArePathsTold (ground_of still.now) paths.now) (LacksPath (ground_of still.now) paths.now)) }
{
    for path in paths {
        if still.files.get(path).is_none() {
            return Ok(Some(path.copy(alloc)?));
        }
    }
    Ok(None)
}

/// The first file of a mark of which nothing is told.
fn untold_of(alloc: Global, still: &StillGround, mark: &Mark) -> Result<Option<Path>, AllocError>
    ensures { IfOk result (λ found. MatchOption found (ArePathsTold (ground_of still.now) (mark_paths mark.now)) (LacksPath (ground_of still.now) (mark_paths mark.now))) }
{
    match mark {
        Mark::Import { paths, .. } => untold_path(alloc, still, paths.as_slice()),
        Mark::Free | Mark::Merge { .. } => Ok(None),
    }
}

/// Looks whether the files that the marks of all tables name are told, whatever state a table is in.
pub fn check_marks(
    alloc: Global,
    still: &StillGround,
    tables: &[TableNode],
) -> Result<(), StateFault>
    requires { AreAllTables still.now.nodes.nodes tables.now }
    ensures ok { OnOk result (AreMarksTold (ground_of still.now) tables.now) }
    ensures cause { IfErr result (StateCause (ground_of still.now)) }
{
    for table in tables {
        if let Some(path) = untold_of(alloc, still, &table.mark)? {
            return Err(StateFault::LacksMarked(path));
        }
    }
    Ok(())
}
