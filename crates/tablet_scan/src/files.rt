// The cells of a tablet's files.
ghost use Rattle.std.specs.Prelude.{◌≡◌, List, None, Some, All, Contains, IfErr, IfOk, IsErr, IsTrue, map};
ghost use Rattle.metadata_schema.specs.declared.tablet.FileEntry.{FileEntry as Entry};
ghost use Rattle.metadata_schema.specs.Records.{IsFile};
ghost use Rattle.cell_merge.specs.declared.cell.Cell.{Cell as StoredCell};
ghost use Rattle.data_files.specs.Files.{ReadCause};
ghost use Rattle.store_layout.specs.Names.{file_of};
ghost use Rattle.store_meaning.specs.Ground.{Ground as Known, IsGroundOf};
ghost use Rattle.store_meaning.specs.Content.{all_told, file_cells, timed};
ghost use Rattle.ground_store.specs.Acts.{Acts, stop_of};
ghost use Rattle.ground_store.specs.Steps.{Stays};
ghost use Rattle.tablet_scan.specs.Files.{HoldsTimed, HoldAll, IsBad, FilesCause};

use cell_merge::Cell;
use data_files::DataFile;
use ground_store::Ground;
use host_model::{Host, Stop};
use metadata_schema::{FileEntry, TabletRecord};
use std::alloc::Global;

/// Gives all cells this time.
fn set_times(time: u64, cells: &mut [Cell])
    ensures { cells.new ≡ map (timed (Some time)) cells.old }
{
    for cell in cells.iter_mut() {
        cell.time = time;
    }
}

/// The cells with the time of their file's column, where that has one.
fn at_time(time: Option<u64>, mut cells: Vec<Cell>) -> Vec<Cell>
    ensures { result.items ≡ map (timed time) cells.items }
{
    if let Some(time) = time {
        set_times(time, &mut cells);
    }
    cells
}

/// The cells of one file, as its column says.
fn read_timed<H: Host>(ground: &mut Ground<H>, file: &FileEntry) -> Result<Vec<Cell>, Stop>
    requires { IsFile file.now }
    ensures acts { Acts H.state Stays Stays (stop_of result) ground.old ground.new }
    ensures same { (ground.new.nodes ≡ ground.old.nodes) × (ground.new.logs ≡ ground.old.logs) }
    ensures holds { IsTrue (H.state ground.old.host).is_faithful → IfOk result (λ cells. HoldsTimed (H.state ground.old.host).files file.now cells.items) }
    ensures stops { ground.old.stopped ≡ None → IfErr result (λ stop. ReadCause (file_of file.now.path) stop (H.state ground.old.host) (H.state ground.new.host)) }
{
    let DataFile { cells, greatest: _ } = ground.read_file(&file.path)?;
    Ok(at_time(file.time, cells.into_vec()))
}

/// The cells of all files that a tablet's record names, one file behind the other in the order of their columns, each cell with
/// the time of the column where that has one.
///
/// The files are read whole and once each, one after another, and the first that isn't there or isn't of its grammar ends the
/// reading: `Damaged` names it. Each other stop is a fault of the host, which is counted, or want of memory. The ground keeps a
/// stop; one that has stopped answers it again and is asked nothing. Nothing changes. Two calls of the host a file; time and
/// memory go with the files' sizes.
pub fn file_cells<H: Host>(
    alloc: Global,
    ground: &mut Ground<H>,
    tablet: &TabletRecord,
) -> Result<Vec<Cell>, Stop>
    requires { All IsFile tablet.now.files }
    ensures acts { Acts H.state Stays Stays (stop_of result) ground.old ground.new }
    ensures same { (ground.new.nodes ≡ ground.old.nodes) × (ground.new.logs ≡ ground.old.logs) }
    ensures hold { IsTrue (H.state ground.old.host).is_faithful → IfOk result (λ cells. HoldAll (H.state ground.old.host).files tablet.now.files cells.items) }
    ensures told { IsTrue (H.state ground.old.host).is_faithful → (known : Known) (told : List StoredCell) → IsGroundOf (H.state ground.old.host).files known → all_told (file_cells known) tablet.now.files ≡ Some told
        → IfOk result (λ cells. cells.items ≡ told) }
    ensures bad { IsTrue (H.state ground.old.host).is_faithful → (file : Entry) → Contains tablet.now.files file → IsBad (H.state ground.old.host).files file → IsErr result }
    ensures stops { ground.old.stopped ≡ None → IfErr result (λ stop. FilesCause tablet.now.files stop (H.state ground.old.host) (H.state ground.new.host)) }
{
    ground.check()?;
    let mut all = Vec::new(alloc);
    for file in tablet.files.as_slice() {
        let mut cells = read_timed(ground, file)?;
        if all.append(&mut cells).is_err() {
            return Err(ground.stop(Stop::NoMemory));
        }
    }
    Ok(all)
}
