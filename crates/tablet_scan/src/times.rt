// The greatest time of a tablet's files.
ghost use Rattle.std.specs.Prelude.{◌≡◌, ◌≤◌, ◌<◌, ◌^◌, [], ◌∷◌, List, None, All, IfErr, IfOk, IsTrue};
ghost use Rattle.metadata_schema.specs.Records.{IsFile};
ghost use Rattle.cell_merge.specs.declared.cell.Cell.{Cell as StoredCell};
ghost use Rattle.data_files.specs.Files.{ReadCause};
ghost use Rattle.store_layout.specs.Names.{file_of};
ghost use Rattle.ground_store.specs.Acts.{Acts, stop_of};
ghost use Rattle.ground_store.specs.Steps.{Stays};
ghost use Rattle.tablet_scan.specs.Files.{HoldAll, FilesCause};
ghost use Rattle.tablet_scan.specs.Times.{IsGreatestIn, untimed};

use data_files::DataFile;
use ground_store::Ground;
use host_model::{Host, Stop};
use metadata_schema::{FileEntry, TabletRecord};

/// The greatest of the times that count of one file.
fn greatest_of<H: Host>(ground: &mut Ground<H>, file: &FileEntry) -> Result<u64, Stop>
    requires { IsFile file.now }
    ensures acts { Acts H.state Stays Stays (stop_of result) ground.old ground.new }
    ensures same { (ground.new.nodes ≡ ground.old.nodes) × (ground.new.logs ≡ ground.old.logs) }
    ensures greatest { IsTrue (H.state ground.old.host).is_faithful → IfOk result (λ greatest. IsGreatestIn (H.state ground.old.host).files (file.now ∷ []) greatest) }
    ensures fits { IfOk result (λ greatest. greatest < 2 ^ 63) }
    ensures read { ground.old.stopped ≡ None → IfErr result (λ _. file.now.time ≡ None) }
    ensures stops { ground.old.stopped ≡ None → IfErr result (λ stop. ReadCause (file_of file.now.path) stop (H.state ground.old.host) (H.state ground.new.host)) }
{
    match file.time {
        Some(time) => {
            ground.check()?;
            Ok(time)
        }
        None => {
            let DataFile { cells: _, greatest } = ground.read_file(&file.path)?;
            Ok(greatest)
        }
    }
}

/// The greatest time of a tablet's files: of those of its columns that have one, and of those of the cells of files whose columns
/// have none; 0 where there is none. No cell of the files is later, with its column's time.
///
/// Reads the files whose columns have no time, whole and once each, one after another, and stops as `file_cells` does where one of
/// these is at fault. Nothing changes. Two calls of the host for each file that is read; time goes with their sizes.
pub fn greatest_time<H: Host>(ground: &mut Ground<H>, tablet: &TabletRecord) -> Result<u64, Stop>
    requires { All IsFile tablet.now.files }
    ensures acts { Acts H.state Stays Stays (stop_of result) ground.old ground.new }
    ensures same { (ground.new.nodes ≡ ground.old.nodes) × (ground.new.logs ≡ ground.old.logs) }
    ensures greatest { IsTrue (H.state ground.old.host).is_faithful → IfOk result (λ greatest. IsGreatestIn (H.state ground.old.host).files tablet.now.files greatest) }
    ensures last { IsTrue (H.state ground.old.host).is_faithful → (cells : List StoredCell) → HoldAll (H.state ground.old.host).files tablet.now.files cells → IfOk result (λ greatest. All (λ cell. cell.time ≤ greatest) cells) }
    ensures fits { IfOk result (λ greatest. greatest < 2 ^ 63) }
    ensures stops { ground.old.stopped ≡ None → IfErr result (λ stop. FilesCause (untimed tablet.now.files) stop (H.state ground.old.host) (H.state ground.new.host)) }
{
    ground.check()?;
    let mut greatest = 0;
    for file in tablet.files.as_slice() {
        let own = greatest_of(ground, file)?;
        greatest = greatest.max(own);
    }
    Ok(greatest)
}
