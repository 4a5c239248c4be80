// A new data file is written.
ghost use Rattle.std.specs.Prelude.{◌≡◌, None, IfErr, IfOk, IsErr};
ghost use Rattle.metadata_schema.specs.Paths.{IsDirectory};
ghost use Rattle.data_files.specs.Cells.{AreFileCells};
ghost use Rattle.store_layout.specs.Nodes.{IsNoCounter, next_name_path};
ghost use Rattle.ground_store.specs.Acts.{Acts, stop_of};
ghost use Rattle.ground_store.specs.Drawing.{DrawCause, IsDrawFull};
ghost use Rattle.new_files.specs.Putting.{IsUndrawn, MayPutNew, PutsNew};
ghost use Rattle.new_files.specs.Written.{IsNewFile};

use crate::kinds::FileKind;
use crate::planning::plan_file;
use cell_merge::Cell;
use ground_store::Ground;
use host_model::{Host, Stop};
use row_keys::{Octets, Path, TableId};
use std::alloc::Global;

/// A data file that was written, and that nothing names yet.
#[derive(Debug, Drop)]
pub struct NewFile {
    pub path: Path,
    /// In bytes.
    pub size: u64,
}

/// Writes these cells as a new data file, in a directory of a table: draws the number of its name, and then writes the file. Whole
/// and on the disk at `Ok`, and nothing names it yet.
///
/// `Damaged` names the nodes, exactly where they say no next number of a name. `Full` comes exactly where the number after it would
/// reach 2^63 or there is no room for the change that draws it. At these two the host was asked nothing. Each other stop is a fault
/// of the disk or the host's memory, which is counted, or want of memory, or one that was answered before. A stop or a crash on the
/// way leaves the files as they were, or the number drawn and the file as it was, or the number drawn and anything in that one
/// file. One multi, then one creation, one write and one sync; memory for the file's bytes.
pub fn put_new_file<H: Host>(
    alloc: Global,
    ground: &mut Ground<H>,
    table: &TableId,
    dir: &Octets,
    kind: FileKind,
    cells: &[Cell],
) -> Result<NewFile, Stop>
    requires dir { IsDirectory dir.now }
    requires cells { AreFileCells cells.now }
    ensures acts { Acts H.state (MayPutNew table.now dir.now kind ground.old.nodes) (PutsNew table.now dir.now kind cells.now ground.old.nodes) (stop_of result) ground.old ground.new }
    ensures file { IfOk result (λ file. IsNewFile table.now dir.now kind cells.now file ground.old.nodes.nodes ground.new.nodes.nodes) }
    ensures name { ground.new.nodes.name ≡ ground.old.nodes.name }
    ensures logs { ground.new.logs ≡ ground.old.logs }
    ensures none { IsNoCounter ground.old.nodes.nodes next_name_path → IsErr result }
    ensures full { IsDrawFull ground.old.nodes → IsErr result }
    ensures untouched { IfErr result (λ stop. IsUndrawn stop → ground.new.host ≡ ground.old.host) }
    ensures stops { ground.old.stopped ≡ None → IfErr result (λ stop. DrawCause ground.old.nodes stop (H.state ground.old.host) (H.state ground.new.host)) }
{
    ground.check()?;
    let plan = match plan_file(alloc, ground.nodes(), table, dir, kind) {
        Ok(plan) => plan,
        Err(stop) => return Err(ground.stop(stop)),
    };
    ground.draw_name()?;
    let size = ground.put_file(&plan.path, cells)?;
    Ok(NewFile {
        path: plan.path,
        size,
    })
}
