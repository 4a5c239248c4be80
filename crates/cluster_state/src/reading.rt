// Files, logs and names that are read.
ghost use Rattle.std.specs.Prelude.{◌≡◌, None, All, IfErr, IfOk, IsErr, IsTrue};
ghost use Rattle.host_model.specs.Picture.{file_names};
ghost use Rattle.metadata_schema.specs.Paths.{IsFilePath};
ghost use Rattle.data_files.specs.Cells.{AreFileCells};
ghost use Rattle.data_files.specs.Files.{HoldsCells, IsDamaged, ReadCause, greatest_time};
ghost use Rattle.log_files.specs.Mutations.{IsLogged};
ghost use Rattle.log_files.specs.Logs as logs;
ghost use Rattle.log_files.specs.Logs.{HasLog, IsNoLog};
ghost use Rattle.log_files.specs.Sorted.{sorted_name, AreInOrder, HasSorted, IsNoSorted};
ghost use Rattle.store_layout.specs.Names.{file_of};
ghost use Rattle.ground_store.specs.Acts.{Acts, stop_of};
ghost use Rattle.ground_store.specs.Causes.{FileCause};
ghost use Rattle.ground_store.specs.Steps.{Stays};
ghost use Rattle.cluster_state.specs.Starting.{SameBeside};
ghost use Rattle.cluster_state.specs.Station.{StaysStation};

use crate::cluster::Cluster;
use data_files::DataFile;
use host_model::{Host, Name, Stop};
use metadata_schema::Mutation;
use row_keys::{LogName, Path};

impl<H: Host> Cluster<H> {
    /// The cells of the data file of a path, and their greatest time. `Damaged` names the file, exactly where it isn't there or isn't
    /// in its grammar. One look at its length and one read; time and memory go with its size.
    pub fn read_file(&mut self, path: &Path) -> Result<DataFile, Stop>
        requires { IsFilePath path.now }
        ensures acts { Acts H.state Stays Stays (stop_of result) self.old.base self.new.base }
        ensures holds { IsTrue (H.state self.old.base.host).is_faithful → IfOk result (λ file. HoldsCells (file_of path.now) file.cells (H.state self.old.base.host).files) }
        ensures cells { IfOk result (λ file. AreFileCells file.cells) }
        ensures greatest { IfOk result (λ file. file.greatest ≡ greatest_time file.cells) }
        ensures damaged { IsTrue (H.state self.old.base.host).is_faithful → IsDamaged (file_of path.now) (H.state self.old.base.host).files → IsErr result }
        ensures same { (self.new.base.nodes ≡ self.old.base.nodes) × (self.new.base.logs ≡ self.old.base.logs) }
        ensures beside { SameBeside self.old self.new }
        ensures station { IsTrue (H.state self.old.base.host).is_faithful → StaysStation H.state (stop_of result) self.old self.new }
        ensures stops { self.old.base.stopped ≡ None → IfErr result (λ stop. ReadCause (file_of path.now) stop (H.state self.old.base.host) (H.state self.new.base.host)) }
    {
        self.base.read_file(path)
    }

    /// The mutations of a log, in their order. `Damaged` names the log, exactly where its file isn't there or isn't a log.
    pub fn log_mutations(&mut self, log: &LogName) -> Result<Vec<Mutation>, Stop>
        ensures acts { Acts H.state Stays Stays (stop_of result) self.old.base self.new.base }
        ensures are { IsTrue (H.state self.old.base.host).is_faithful → IfOk result (λ mutations. HasLog log.now mutations.items (H.state self.old.base.host).files) }
        ensures logged { IfOk result (λ mutations. All IsLogged mutations.items) }
        ensures damaged { IsTrue (H.state self.old.base.host).is_faithful → IsNoLog log.now (H.state self.old.base.host).files → IsErr result }
        ensures same { (self.new.base.nodes ≡ self.old.base.nodes) × (self.new.base.logs ≡ self.old.base.logs) }
        ensures beside { SameBeside self.old self.new }
        ensures station { IsTrue (H.state self.old.base.host).is_faithful → StaysStation H.state (stop_of result) self.old self.new }
        ensures stops { self.old.base.stopped ≡ None → IfErr result (λ stop. logs.ReadCause log.now (IsNoLog log.now (H.state self.old.base.host).files) stop (H.state self.old.base.host) (H.state self.new.base.host)) }
    {
        self.base.log_mutations(log)
    }

    /// The mutations of a log's sorted file, in their order. `Damaged` names the sorted file, exactly where it isn't there or isn't a
    /// sorted log.
    pub fn sorted_mutations(&mut self, log: &LogName) -> Result<Vec<Mutation>, Stop>
        ensures acts { Acts H.state Stays Stays (stop_of result) self.old.base self.new.base }
        ensures are { IsTrue (H.state self.old.base.host).is_faithful → IfOk result (λ mutations. HasSorted (sorted_name log.now) mutations.items (H.state self.old.base.host).files) }
        ensures logged { IfOk result (λ mutations. All IsLogged mutations.items) }
        ensures in_order { IfOk result (λ mutations. AreInOrder mutations.items) }
        ensures damaged { IsTrue (H.state self.old.base.host).is_faithful → IsNoSorted (sorted_name log.now) (H.state self.old.base.host).files → IsErr result }
        ensures same { (self.new.base.nodes ≡ self.old.base.nodes) × (self.new.base.logs ≡ self.old.base.logs) }
        ensures beside { SameBeside self.old self.new }
        ensures station { IsTrue (H.state self.old.base.host).is_faithful → StaysStation H.state (stop_of result) self.old self.new }
        ensures stops { self.old.base.stopped ≡ None → IfErr result (λ stop. logs.ReadCause (sorted_name log.now) (IsNoSorted (sorted_name log.now) (H.state self.old.base.host).files) stop (H.state self.old.base.host) (H.state self.new.base.host)) }
    {
        self.base.sorted_mutations(log)
    }

    /// The names of the host's files, in byte order. Asks the host once.
    pub fn names_left(&mut self) -> Result<Vec<Name>, Stop>
        ensures acts { Acts H.state Stays Stays (stop_of result) self.old.base self.new.base }
        ensures names { IsTrue (H.state self.old.base.host).is_faithful → IfOk result (λ names. names.items ≡ file_names (H.state self.old.base.host).files) }
        ensures same { (self.new.base.nodes ≡ self.old.base.nodes) × (self.new.base.logs ≡ self.old.base.logs) }
        ensures beside { SameBeside self.old self.new }
        ensures station { IsTrue (H.state self.old.base.host).is_faithful → StaysStation H.state (stop_of result) self.old self.new }
        ensures stops { self.old.base.stopped ≡ None → IfErr result (λ stop. FileCause stop (H.state self.old.base.host) (H.state self.new.base.host)) }
    {
        self.base.names_left()
    }
}
