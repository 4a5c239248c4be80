// Data files of a host.
ghost use Rattle.std.specs.Prelude.{◌≡◌, IfOk, IfErr, OnOk, IsErr, IsErrOf, IsTrue, Some, length};
ghost use Rattle.std.specs.Option.{option_map};
ghost use Rattle.host_model.specs.Picture.{Becomes, file_at};
ghost use Rattle.host_model.specs.Calls.{HasCause, Looks};
ghost use Rattle.host_model.specs.Stores.{Stores};
ghost use Rattle.host_model.specs.declared.call.HostCall.TheVariants.{Sync};
ghost use Rattle.data_files.specs.Cells.{AreFileCells};
ghost use Rattle.data_files.specs.Files.{greatest_time, spelled_file, IsDataFile, HoldsCells, WritesCells, IsDamaged, MayMake, WriteCause, ReadCause};

use crate::file_bytes::{read, spell};
use crate::order::greatest_time;
use cell_merge::{Cell, Cells};
use host_model::{Host, HostFault, Name, Stop};
use std::alloc::Global;

/// What stands in a data file.
#[derive(Debug, Drop)]
pub struct DataFile {
    /// The cells, in key order.
    pub cells: Cells,
    /// The greatest of their times, in ticks, and 0 for no cells.
    pub greatest: u64,
}

/// Makes the file anew with these bytes, and syncs.
fn write_synced<H: Host>(host: &mut H, name: &Name, bytes: &[u8]) -> Result<(), HostFault>
    ensures stores { Stores name.now (MayMake (length bytes.now)) (Becomes (Some bytes.now)) result (H.state host.old) (H.state host.new) }
    ensures last { OnOk result ((H.state host.new).last ≡ Some Sync) }
    ensures cause { HasCause result (H.state host.old) (H.state host.new) }
{
    host.create(name)?;
    host.write(name, 0, bytes)?;
    host.sync(name)
}

/// Writes a file of these cells, in place of any file of this name, and gives its size in bytes.
///
/// The cells' keys rise, and each part of a cell fits its field. Stops at a fault of the host, which is counted, or for
/// want of memory, before it did anything. A fault or a crash on the way leaves the file as it was, or there with any
/// bytes, at most as many as it would have; no other file changes. On return it is on the disk. Takes memory for the
/// file's bytes, and time with them; three calls of the host, one of them a sync.
pub fn write_file<H: Host>(
    alloc: Global,
    host: &mut H,
    name: &Name,
    cells: &[Cell],
) -> Result<u64, Stop>
    requires { AreFileCells cells.now }
    ensures stores { Stores name.now (MayMake (length (spelled_file cells.now))) (Becomes (Some (spelled_file cells.now))) result (H.state host.old) (H.state host.new) }
    ensures written { OnOk result (IsDataFile (spelled_file cells.now) cells.now) }
    ensures writes { WritesCells name.now cells.now result (H.state host.old) (H.state host.new) }
    ensures size { IfOk result (λ size. size ≡ length (spelled_file cells.now)) }
    ensures last { OnOk result ((H.state host.new).last ≡ Some Sync) }
    ensures untouched { IsErrOf result Stop.NoMemory → host.new ≡ host.old }
    ensures stops { IfErr result (λ stop. WriteCause stop (H.state host.old) (H.state host.new)) }
{
    let bytes = spell(alloc, cells)?;
    write_synced(host, name, &bytes)?;
    Ok(bytes.len() as u64)
}

/// The bytes of a whole file, or none where it isn't there. Takes memory for them.
fn read_whole<H: Host>(alloc: Global, host: &mut H, name: &Name) -> Result<Option<Vec<u8>>, Stop>
    ensures looks { Looks (H.state host.old) (H.state host.new) }
    ensures is { IsTrue (H.state host.old).is_faithful → IfOk result (λ found. file_at (H.state host.old).files name.now ≡ option_map (λ bytes. bytes.items) found) }
    ensures stops { IfErr result (λ stop. WriteCause stop (H.state host.old) (H.state host.new)) }
{
    let Some(size) = host.length(name)? else {
        return Ok(None);
    };
    let mut bytes = vec![in alloc; 0u8; size as usize]?;
    host.read(name, 0, &mut bytes)?;
    Ok(Some(bytes))
}

/// Reads the file whole. It changes nothing.
///
/// `Damaged` names the file where it isn't there or isn't a data file's, and only there; each other stop is a fault of the
/// host, which is counted, or want of memory. Takes memory for the file's bytes and its cells, and time with them; two
/// calls of the host.
pub fn read_file<H: Host>(alloc: Global, host: &mut H, name: &Name) -> Result<DataFile, Stop>
    ensures looks { Looks (H.state host.old) (H.state host.new) }
    ensures holds { IsTrue (H.state host.old).is_faithful → IfOk result (λ file. HoldsCells name.now file.cells (H.state host.old).files) }
    ensures cells { IfOk result (λ file. AreFileCells file.cells) }
    ensures greatest { IfOk result (λ file. file.greatest ≡ greatest_time file.cells) }
    ensures damaged { IsTrue (H.state host.old).is_faithful → IsDamaged name.now (H.state host.old).files → IsErr result }
    ensures stops { IfErr result (λ stop. ReadCause name.now stop (H.state host.old) (H.state host.new)) }
{
    let own = name.copy(alloc)?;
    let Some(bytes) = read_whole(alloc, host, name)? else {
        return Err(Stop::Damaged(own));
    };
    match read(alloc, &bytes)? {
        Some(cells) => Ok(DataFile {
            greatest: greatest_time(&cells),
            cells: Cells::from_vec(cells),
        }),
        None => Err(Stop::Damaged(own)),
    }
}
