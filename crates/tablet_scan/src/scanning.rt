// The scan of a tablet.
ghost use Rattle.std.specs.Prelude.{◌≡◌, ◌++◌, List, None, Some, All, Contains, IfErr, IfOk, IsErr, IsTrue};
ghost use Rattle.std.specs.Option.{option_copied};
ghost use Rattle.metadata_schema.specs.declared.tablet.FileEntry.{FileEntry as Entry};
ghost use Rattle.metadata_schema.specs.Records.{IsFile};
ghost use Rattle.cell_merge.specs.declared.cell.Cell.{Cell as StoredCell};
ghost use Rattle.cell_merge.specs.Newest.{clipped};
ghost use Rattle.store_meaning.specs.Ground.{Ground as Known, IsGroundOf};
ghost use Rattle.store_meaning.specs.Content.{content_of};
ghost use Rattle.ground_store.specs.Acts.{Acts, stop_of};
ghost use Rattle.ground_store.specs.Steps.{Stays};
ghost use Rattle.tablet_scan.specs.Files.{IsBad, FilesCause};
ghost use Rattle.tablet_scan.specs.Scans.{AreNewestWithin, IsScan, IsMemoryOf};

use crate::files::file_cells;
use crate::range::keep_within;
use cell_merge::{Cell, Pair, newest};
use ground_store::Ground;
use host_model::{Host, Stop};
use metadata_schema::TabletRecord;
use row_keys::Row;
use std::alloc::{AllocError, Global};
use tablet_mem::TabletMem;

/// The newest pairs of a tablet's rows above `low` within (from, to], by the cells of its files and, behind them, of its memory.
fn newest_within(
    alloc: Global,
    mut cells: Vec<Cell>,
    memory: &TabletMem,
    low: Option<&Row>,
    tablet: &TabletRecord,
    from: Option<&Row>,
    to: Option<&Row>,
) -> Result<Vec<Pair>, AllocError>
    ensures { IfOk result (λ pairs. AreNewestWithin (option_copied from.entry) (option_copied to.entry) (clipped (option_copied low.entry) tablet.now.end (cells.items ++ memory.now.cells)) pairs.items) }
{
    cells.append(&mut memory.newest(alloc, from, to)?)?;
    keep_within(&mut cells, low, tablet.end.as_ref());
    keep_within(&mut cells, from, to);
    newest(alloc, &cells)
}

/// The keys of a hosted tablet's rows above `from`, up to `to` and at it, each with its newest value, in key order: by the cells
/// of the files that the tablet's record names and of its memory, of the rows above `low` and up to the tablet's end row. A bound
/// that isn't there is no limit. Where cells agree in key and time, one of a file counts over one in memory, and of files that of
/// the earlier column.
///
/// Stops as `file_cells` does, and at want of memory beside it. Each file is read whole and once: two calls of the host a file.
/// Nothing changes. Takes memory for the cells of the files and for copies of the newest, and time n log n for n cells of the
/// files and of the range in memory.
pub fn scan_tablet<H: Host>(
    alloc: Global,
    ground: &mut Ground<H>,
    low: Option<&Row>,
    tablet: &TabletRecord,
    memory: &TabletMem,
    from: Option<&Row>,
    to: Option<&Row>,
) -> Result<Vec<Pair>, Stop>
    requires { All IsFile tablet.now.files }
    ensures acts { Acts H.state Stays Stays (stop_of result) ground.old ground.new }
    ensures same { (ground.new.nodes ≡ ground.old.nodes) × (ground.new.logs ≡ ground.old.logs) }
    ensures scans { IsTrue (H.state ground.old.host).is_faithful
        → IfOk result (λ pairs. IsScan (H.state ground.old.host).files (option_copied low.entry) tablet.now memory.now (option_copied from.entry) (option_copied to.entry) pairs.items) }
    ensures content { IsTrue (H.state ground.old.host).is_faithful → (known : Known) (content : List StoredCell) → IsGroundOf (H.state ground.old.host).files known
        → IsMemoryOf known (option_copied low.entry) tablet.now memory.now → content_of known (option_copied low.entry) tablet.now ≡ Some content
        → IfOk result (λ pairs. AreNewestWithin (option_copied from.entry) (option_copied to.entry) content pairs.items) }
    ensures bad { IsTrue (H.state ground.old.host).is_faithful → (file : Entry) → Contains tablet.now.files file → IsBad (H.state ground.old.host).files file → IsErr result }
    ensures stops { ground.old.stopped ≡ None → IfErr result (λ stop. FilesCause tablet.now.files stop (H.state ground.old.host) (H.state ground.new.host)) }
{
    let cells = file_cells(alloc, ground, tablet)?;
    match newest_within(alloc, cells, memory, low, tablet, from, to) {
        Ok(pairs) => Ok(pairs),
        Err(_) => Err(ground.stop(Stop::NoMemory)),
    }
}
