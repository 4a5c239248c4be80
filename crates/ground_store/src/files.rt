// Data files, each put, read or taken out whole.
ghost use Rattle.std.specs.Prelude.{◌≡◌, None, IfErr, IfOk, OnOk, IsTrue, IsErr, length};
ghost use Rattle.host_model.specs.Alters.{Alters};
ghost use Rattle.host_model.specs.Calls.{Looks};
ghost use Rattle.metadata_schema.specs.Paths.{IsFilePath};
ghost use Rattle.data_files.specs.Cells.{AreFileCells};
ghost use Rattle.data_files.specs.Files.{HoldsCells, IsDamaged, ReadCause, greatest_time, spelled_file};
ghost use Rattle.store_layout.specs.Names.{file_of, IsFile};
ghost use Rattle.ground_store.specs.Acts.{Acts, stop_of};
ghost use Rattle.ground_store.specs.Steps.{Stays, MayWrite, Writes, MayTake, Takes};
ghost use Rattle.ground_store.specs.Causes.{FileCause};

use crate::again::{again, keep};
use crate::ground::Ground;
use cell_merge::Cell;
use data_files::DataFile;
use host_model::{Host, Name, Stop};
use row_keys::Path;
use std::alloc::Global;
use store_layout::file_of;

fn write<H: Host>(alloc: Global, host: &mut H, path: &Path, cells: &[Cell]) -> Result<u64, Stop>
    requires path { IsFilePath path.now }
    requires cells { AreFileCells cells.now }
    ensures alters { Alters (IsFile (file_of path.now)) (MayWrite (file_of path.now)) (Writes (file_of path.now) (spelled_file cells.now)) result (H.state host.old) (H.state host.new) }
    ensures size { IfOk result (λ size. size ≡ length (spelled_file cells.now)) }
    ensures stops { IfErr result (λ stop. FileCause stop (H.state host.old) (H.state host.new)) }
{
    let name = file_of(alloc, path)?;
    data_files::write_file(alloc, host, &name, cells)
}

fn read<H: Host>(alloc: Global, host: &mut H, path: &Path) -> Result<DataFile, Stop>
    requires { IsFilePath path.now }
    ensures looks { Looks (H.state host.old) (H.state host.new) }
    ensures holds { IsTrue (H.state host.old).is_faithful → IfOk result (λ file. HoldsCells (file_of path.now) file.cells (H.state host.old).files) }
    ensures cells { IfOk result (λ file. AreFileCells file.cells) }
    ensures greatest { IfOk result (λ file. file.greatest ≡ greatest_time file.cells) }
    ensures damaged { IsTrue (H.state host.old).is_faithful → IsDamaged (file_of path.now) (H.state host.old).files → IsErr result }
    ensures stops { IfErr result (λ stop. ReadCause (file_of path.now) stop (H.state host.old) (H.state host.new)) }
{
    let name = file_of(alloc, path)?;
    data_files::read_file(alloc, host, &name)
}

/// Takes a file out, if it is there.
pub fn take<H: Host>(host: &mut H, name: &Name) -> Result<(), Stop>
    ensures alters { Alters (IsFile name.now) (MayTake name.now) (Takes name.now) result (H.state host.old) (H.state host.new) }
    ensures stops { IfErr result (λ stop. FileCause stop (H.state host.old) (H.state host.new)) }
{
    host.remove(name)?;
    Ok(())
}

fn take_path<H: Host>(alloc: Global, host: &mut H, path: &Path) -> Result<(), Stop>
    requires { IsFilePath path.now }
    ensures alters { Alters (IsFile (file_of path.now)) (MayTake (file_of path.now)) (Takes (file_of path.now)) result (H.state host.old) (H.state host.new) }
    ensures stops { IfErr result (λ stop. FileCause stop (H.state host.old) (H.state host.new)) }
{
    let name = file_of(alloc, path)?;
    take(host, &name)
}

impl<H: Host> Ground<H> {
    /// Makes the data file of a path, with these cells, and answers its size in bytes. Whole and on the disk at `Ok`. A stop
    /// or a crash inside may leave anything in that one file, so nothing should name it yet. One creation, one write and one
    /// sync; memory for its bytes.
    pub fn put_file(&mut self, path: &Path, cells: &[Cell]) -> Result<u64, Stop>
        requires path { IsFilePath path.now }
        requires cells { AreFileCells cells.now }
        ensures acts { Acts H.state (MayWrite (file_of path.now)) (Writes (file_of path.now) (spelled_file cells.now)) (stop_of result) self.old self.new }
        ensures size { IfOk result (λ size. size ≡ length (spelled_file cells.now)) }
        ensures same { (self.new.nodes ≡ self.old.nodes) × (self.new.logs ≡ self.old.logs) }
        ensures stops { self.old.stopped ≡ None → IfErr result (λ stop. FileCause stop (H.state self.old.host) (H.state self.new.host)) }
    {
        if let Some(stop) = &self.stopped {
            return Err(again(self.alloc, stop));
        }
        match write(self.alloc, &mut self.host, path, cells) {
            Ok(size) => Ok(size),
            Err(stop) => Err(keep(self.alloc, &mut self.stopped, stop)),
        }
    }

    /// The cells of the data file of a path, and their greatest time. `Damaged` names the file, exactly where it isn't there
    /// or isn't in its grammar. One look at its length and one read; time and memory go with its size.
    pub fn read_file(&mut self, path: &Path) -> Result<DataFile, Stop>
        requires { IsFilePath path.now }
        ensures acts { Acts H.state Stays Stays (stop_of result) self.old self.new }
        ensures holds { IsTrue (H.state self.old.host).is_faithful → IfOk result (λ file. HoldsCells (file_of path.now) file.cells (H.state self.old.host).files) }
        ensures cells { IfOk result (λ file. AreFileCells file.cells) }
        ensures greatest { IfOk result (λ file. file.greatest ≡ greatest_time file.cells) }
        ensures damaged { IsTrue (H.state self.old.host).is_faithful → IsDamaged (file_of path.now) (H.state self.old.host).files → IsErr result }
        ensures same { (self.new.nodes ≡ self.old.nodes) × (self.new.logs ≡ self.old.logs) }
        ensures stops { self.old.stopped ≡ None → IfErr result (λ stop. ReadCause (file_of path.now) stop (H.state self.old.host) (H.state self.new.host)) }
    {
        if let Some(stop) = &self.stopped {
            return Err(again(self.alloc, stop));
        }
        match read(self.alloc, &mut self.host, path) {
            Ok(file) => Ok(file),
            Err(stop) => Err(keep(self.alloc, &mut self.stopped, stop)),
        }
    }

    /// Takes the data file of a path out, if it is there. Whole or absent at a stop or a crash, and lasting at `Ok`. One call
    /// of the host.
    pub fn remove_file(&mut self, path: &Path) -> Result<(), Stop>
        requires { IsFilePath path.now }
        ensures acts { Acts H.state (MayTake (file_of path.now)) (Takes (file_of path.now)) (stop_of result) self.old self.new }
        ensures same { (self.new.nodes ≡ self.old.nodes) × (self.new.logs ≡ self.old.logs) }
        ensures stops { self.old.stopped ≡ None → IfErr result (λ stop. FileCause stop (H.state self.old.host) (H.state self.new.host)) }
    {
        if let Some(stop) = &self.stopped {
            return Err(again(self.alloc, stop));
        }
        match take_path(self.alloc, &mut self.host, path) {
            Ok(()) => Ok(()),
            Err(stop) => Err(keep(self.alloc, &mut self.stopped, stop)),
        }
    }
}
