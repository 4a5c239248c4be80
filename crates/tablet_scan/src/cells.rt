// The cells of a tablet.
ghost use Rattle.std.specs.Prelude.{◌≡◌, ◌++◌, List, None, Some, All, Contains, IfErr, IfOk, IsErr, IsTrue};
ghost use Rattle.std.specs.Option.{option_copied};
ghost use Rattle.metadata_schema.specs.declared.tablet.FileEntry.{FileEntry as Entry};
ghost use Rattle.metadata_schema.specs.Records.{IsFile};
ghost use Rattle.cell_merge.specs.declared.cell.Cell.{Cell as StoredCell};
ghost use Rattle.cell_merge.specs.Newest.{clipped};
ghost use Rattle.store_meaning.specs.Ground.{Ground as Known, IsGroundOf};
ghost use Rattle.store_meaning.specs.Content.{content_of};
ghost use Rattle.ground_store.specs.Acts.{Acts, stop_of};
ghost use Rattle.ground_store.specs.Steps.{Stays};
ghost use Rattle.tablet_scan.specs.Files.{IsBad, FilesCause};
ghost use Rattle.tablet_scan.specs.Scans.{AreTabletCells, IsMemoryOf, HaveSameLatest};

use crate::files::file_cells;
use crate::range::keep_within;
use cell_merge::Cell;
use ground_store::Ground;
use host_model::{Host, Stop};
use metadata_schema::TabletRecord;
use row_keys::Row;
use std::alloc::{AllocError, Global};
use tablet_mem::TabletMem;

/// The cells with those of memory behind them, of the rows above `low`, up to `high` and at it.
fn cells_within(
    alloc: Global,
    mut cells: Vec<Cell>,
    memory: &TabletMem,
    low: Option<&Row>,
    high: Option<&Row>,
) -> Result<Vec<Cell>, AllocError>
    ensures { IfOk result (λ all. all.items ≡ clipped (option_copied low.entry) (option_copied high.entry) (cells.items ++ memory.now.cells)) }
{
    for cell in memory.cells() {
        cells.push(cell.copy(alloc)?)?;
    }
    keep_within(&mut cells, low, high);
    Ok(cells)
}

/// All cells of a hosted tablet: those of the files that its record names, in the order of their columns and each with the time of
/// its column where that has one, and behind them those of its memory, in the order in which they were put; of the rows above
/// `low`, and up to the tablet's end row and at it. A bound that isn't there is no limit. At each key they have the latest cell that
/// the tablet's content has, where the memory is the tablet's.
///
/// Stops as `file_cells` does, and at want of memory beside it. Each file is read whole and once: two calls of the host a file.
/// Nothing changes. Takes memory for the cells of the files and for copies of those in memory, and time with their number.
pub fn tablet_cells<H: Host>(
    alloc: Global,
    ground: &mut Ground<H>,
    low: Option<&Row>,
    tablet: &TabletRecord,
    memory: &TabletMem,
) -> Result<Vec<Cell>, Stop>
    requires { All IsFile tablet.now.files }
    ensures acts { Acts H.state Stays Stays (stop_of result) ground.old ground.new }
    ensures same { (ground.new.nodes ≡ ground.old.nodes) × (ground.new.logs ≡ ground.old.logs) }
    ensures are { IsTrue (H.state ground.old.host).is_faithful → IfOk result (λ cells. AreTabletCells (H.state ground.old.host).files (option_copied low.entry) tablet.now memory.now cells.items) }
    ensures content { IsTrue (H.state ground.old.host).is_faithful → (known : Known) (content : List StoredCell) → IsGroundOf (H.state ground.old.host).files known
        → IsMemoryOf known (option_copied low.entry) tablet.now memory.now → content_of known (option_copied low.entry) tablet.now ≡ Some content
        → IfOk result (λ cells. HaveSameLatest cells.items content) }
    ensures bad { IsTrue (H.state ground.old.host).is_faithful → (file : Entry) → Contains tablet.now.files file → IsBad (H.state ground.old.host).files file → IsErr result }
    ensures stops { ground.old.stopped ≡ None → IfErr result (λ stop. FilesCause tablet.now.files stop (H.state ground.old.host) (H.state ground.new.host)) }
{
    let cells = file_cells(alloc, ground, tablet)?;
    match cells_within(alloc, cells, memory, low, tablet.end.as_ref()) {
        Ok(cells) => Ok(cells),
        Err(_) => Err(ground.stop(Stop::NoMemory)),
    }
}
