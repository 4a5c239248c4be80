// Names that are drawn, and files that are put or taken out.
ghost use Rattle.std.specs.Prelude.{◌≡◌, None, All, IfErr, IfOk, IsErr, IsTrue, OnOk, length};
ghost use Rattle.std.specs.FinMap as map;
ghost use Rattle.row_keys.specs.Forms.{IsLogName};
ghost use Rattle.metadata_schema.specs.Paths.{IsFilePath};
ghost use Rattle.data_files.specs.Cells.{AreFileCells};
ghost use Rattle.data_files.specs.Files.{spelled_file};
ghost use Rattle.log_files.specs.Mutations.{IsLogged};
ghost use Rattle.log_files.specs.Sorted.{sorted_name};
ghost use Rattle.store_layout.specs.Names.{IsRemovableName, file_of};
ghost use Rattle.store_layout.specs.Nodes.{IsNoCounter, next_name_path};
ghost use Rattle.ground_store.specs.Acts.{Acts, stop_of};
ghost use Rattle.ground_store.specs.Causes.{FileCause};
ghost use Rattle.ground_store.specs.Drawing.{DrawCause, Draws, HasDrawn, IsDrawFull, IsOwn, MayDraw};
ghost use Rattle.ground_store.specs.Steps.{MayTake, MayWrite, Takes, Writes, WritesSort};
ghost use Rattle.cluster_state.specs.Events.{KeepsState};
ghost use Rattle.cluster_state.specs.Passing.{GainsFile, GainsSort, IsFileAside, IsNameAside, IsServerLog, IsSortAside, KeepsAside, LosesFile, LosesName, TellsAside};
ghost use Rattle.cluster_state.specs.Starting.{SameBeside};
ghost use Rattle.cluster_state.specs.Station.{MovesStation};

use crate::cluster::Cluster;
use cell_merge::Cell;
use host_model::{Host, Name, Stop};
use metadata_schema::Mutation;
use new_files::next_file_number;
use row_keys::{LogName, Path};

/// The bytes of a log's name.
fn bytes_of(log: &LogName) -> &[u8]
    ensures bytes { result.now ≡ log.now }
    ensures form { IsLogName log.now }
{
    log.as_bytes()
}

impl<H: Host> Cluster<H> {
    /// Draws the number for the name of a new file: answers the number of `/next/name`, which is raised by one, so that no later draw
    /// answers it again. From 1 to 2^63 - 2. What is kept stays so, with the same plain state, also in whatever a crash inside leaves.
    ///
    /// `Damaged` names the nodes, exactly where they say no such number. `Full` comes exactly where the number after it would reach
    /// 2^63 or there is no room for the change. Each other stop is a fault of the disk or the host's memory, which is counted, or want
    /// of memory, or one that was answered before. A fault of the host or a crash inside leaves the number drawn or not; at any other
    /// stop the host was asked nothing. One multi: two syncs.
    pub fn draw_name(&mut self) -> Result<u64, Stop>
        ensures acts { Acts H.state (MayDraw self.old.base.nodes) (Draws self.old.base.nodes) (stop_of result) self.old.base self.new.base }
        ensures keeps { Acts H.state KeepsState KeepsState (stop_of result) self.old.base self.new.base }
        ensures drawn { IfOk result (λ number. HasDrawn number self.old.base.nodes.nodes self.new.base.nodes.nodes) }
        ensures name { self.new.base.nodes.name ≡ self.old.base.nodes.name }
        ensures logs { self.new.base.logs ≡ self.old.base.logs }
        ensures beside { SameBeside self.old self.new }
        ensures none { IsNoCounter self.old.base.nodes.nodes next_name_path → IsErr result }
        ensures full { IsDrawFull self.old.base.nodes → IsErr result }
        ensures untouched { IfErr result (λ stop. IsOwn stop → self.new.base.host ≡ self.old.base.host) }
        ensures station { IsTrue (H.state self.old.base.host).is_faithful → MovesStation H.state (stop_of result) self.old self.new }
        ensures stops { self.old.base.stopped ≡ None → IfErr result (λ stop. DrawCause self.old.base.nodes stop (H.state self.old.base.host) (H.state self.new.base.host)) }
    {
        self.base.check()?;
        let planned = match next_file_number(self.alloc, self.base.nodes()) {
            Ok(number) => number,
            Err(stop) => return Err(self.base.stop(stop)),
        };
        self.base.draw_name()
    }

    /// Makes the data file of a path, with these cells, and answers its size in bytes. Whole and on the disk at `Ok`. A stop or a
    /// crash inside may leave anything in that one file. Where no record, flag or node names it, what is kept stays so, with the same
    /// plain state, also then. One creation, one write and one sync; memory for its bytes.
    pub fn put_file(&mut self, path: &Path, cells: &[Cell]) -> Result<u64, Stop>
        requires path { IsFilePath path.now }
        requires cells { AreFileCells cells.now }
        ensures acts { Acts H.state (MayWrite (file_of path.now)) (Writes (file_of path.now) (spelled_file cells.now)) (stop_of result) self.old.base self.new.base }
        ensures keeps { Acts H.state (KeepsAside (IsFileAside path.now)) (KeepsAside (IsFileAside path.now)) (stop_of result) self.old.base self.new.base }
        ensures size { IfOk result (λ size. size ≡ length (spelled_file cells.now)) }
        ensures same { (self.new.base.nodes ≡ self.old.base.nodes) × (self.new.base.logs ≡ self.old.base.logs) }
        ensures beside { SameBeside self.old self.new }
        ensures station { IsTrue (H.state self.old.base.host).is_faithful → TellsAside H.state (IsFileAside path.now) (GainsFile path.now cells.now) (stop_of result) self.old self.new }
        ensures stops { self.old.base.stopped ≡ None → IfErr result (λ stop. FileCause stop (H.state self.old.base.host) (H.state self.new.base.host)) }
    {
        let size = self.base.put_file(path, cells)?;
        Ok(size)
    }

    /// Takes the data file of a path out, if it is there. Whole or absent at a stop or a crash, and lasting at `Ok`. Where no record,
    /// flag or node names it, what is kept stays so, with the same plain state, also then. One call of the host.
    pub fn remove_file(&mut self, path: &Path) -> Result<(), Stop>
        requires { IsFilePath path.now }
        ensures acts { Acts H.state (MayTake (file_of path.now)) (Takes (file_of path.now)) (stop_of result) self.old.base self.new.base }
        ensures keeps { Acts H.state (KeepsAside (IsFileAside path.now)) (KeepsAside (IsFileAside path.now)) (stop_of result) self.old.base self.new.base }
        ensures same { (self.new.base.nodes ≡ self.old.base.nodes) × (self.new.base.logs ≡ self.old.base.logs) }
        ensures beside { SameBeside self.old self.new }
        ensures station { IsTrue (H.state self.old.base.host).is_faithful → TellsAside H.state (IsFileAside path.now) (LosesFile path.now) (stop_of result) self.old self.new }
        ensures stops { self.old.base.stopped ≡ None → IfErr result (λ stop. FileCause stop (H.state self.old.base.host) (H.state self.new.base.host)) }
    {
        self.base.remove_file(path)
    }

    /// Writes the sorted file of a log: these mutations by table, row and time, and those that agree in all three in the order that
    /// they have here. On the disk at `Ok`. A stop or a crash inside may leave anything in that one file. Where no node names it, what
    /// is kept stays so, with the same plain state, also then. One creation, one write and one sync; time n log n for n mutations.
    pub fn put_sorted(&mut self, log: &LogName, mutations: &[Mutation]) -> Result<(), Stop>
        requires { All IsLogged mutations.now }
        ensures acts { Acts H.state (MayWrite (sorted_name log.now)) (WritesSort (sorted_name log.now) mutations.now) (stop_of result) self.old.base self.new.base }
        ensures keeps { Acts H.state (KeepsAside (IsSortAside log.now)) (KeepsAside (IsSortAside log.now)) (stop_of result) self.old.base self.new.base }
        ensures same { (self.new.base.nodes ≡ self.old.base.nodes) × (self.new.base.logs ≡ self.old.base.logs) }
        ensures beside { SameBeside self.old self.new }
        ensures station { IsTrue (H.state self.old.base.host).is_faithful → TellsAside H.state (IsSortAside log.now) (GainsSort log.now mutations.now) (stop_of result) self.old self.new }
        ensures stops { self.old.base.stopped ≡ None → IfErr result (λ stop. FileCause stop (H.state self.old.base.host) (H.state self.new.base.host)) }
    {
        bytes_of(log);
        self.base.put_sorted(log, mutations)
    }

    /// Takes the data file, the log or the sorted log of this name out, if it is there; it isn't the log of a server in the list. Whole
    /// or absent at a stop or a crash, and lasting at `Ok`. Where no record, flag or node names it, what is kept stays so, with the
    /// same plain state, also then. One call of the host.
    pub fn remove_name(&mut self, name: &Name) -> Result<(), Stop>
        requires form { IsRemovableName name.now }
        requires others { IsServerLog name.now self.old.servers → ⊥ }
        ensures acts { Acts H.state (MayTake name.now) (Takes name.now) (stop_of result) self.old.base self.new.base }
        ensures keeps { Acts H.state (KeepsAside (IsNameAside name.now)) (KeepsAside (IsNameAside name.now)) (stop_of result) self.old.base self.new.base }
        ensures logs { OnOk result (self.new.base.logs ≡ map.remove self.old.base.logs name.now) }
        ensures nodes { self.new.base.nodes ≡ self.old.base.nodes }
        ensures beside { SameBeside self.old self.new }
        ensures station { IsTrue (H.state self.old.base.host).is_faithful → TellsAside H.state (IsNameAside name.now) (LosesName name.now) (stop_of result) self.old self.new }
        ensures stops { self.old.base.stopped ≡ None → IfErr result (λ stop. FileCause stop (H.state self.old.base.host) (H.state self.new.base.host)) }
    {
        self.base.remove_name(name)
    }
}
