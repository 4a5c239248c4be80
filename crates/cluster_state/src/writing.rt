// Data files that are written.
ghost use Rattle.std.specs.Prelude.{◌≡◌, None, IfErr, IfOk, IsErr, IsTrue};
ghost use Rattle.row_keys.specs.Forms.{IsTableId};
ghost use Rattle.metadata_schema.specs.Paths.{IsDirectory};
ghost use Rattle.data_files.specs.Cells.{AreFileCells};
ghost use Rattle.store_layout.specs.Nodes.{IsNoCounter, next_name_path};
ghost use Rattle.ground_store.specs.Acts.{Acts, stop_of};
ghost use Rattle.ground_store.specs.Drawing.{DrawCause, IsDrawFull};
ghost use Rattle.new_files.specs.Putting.{IsUndrawn, MayPutNew, PutsNew};
ghost use Rattle.new_files.specs.Written.{IsNewFile};
ghost use Rattle.cluster_state.specs.Events.{KeepsState};
ghost use Rattle.cluster_state.specs.Starting.{SameBeside};
ghost use Rattle.cluster_state.specs.Station.{MovesStation};

use crate::cluster::Cluster;
use cell_merge::Cell;
use host_model::{Host, Stop};
use new_files::{FileKind, NewFile, a_new_file_may_be_written, put_new_file};
use row_keys::{Octets, TableId};

/// The bytes of a table's id.
fn bytes_of(table: &TableId) -> &[u8]
    ensures bytes { result.now ≡ table.now }
    ensures form { IsTableId table.now }
{
    table.as_bytes()
}

impl<H: Host> Cluster<H> {
    /// Writes these cells as a new data file, in a directory of a table: draws the number of its name, and then writes the file. Whole
    /// and on the disk at `Ok`, and nothing names it yet. What is kept stays so, with the same plain state, also in whatever a crash
    /// inside leaves.
    ///
    /// `Damaged` names the nodes, exactly where they say no next number of a name. `Full` comes exactly where the number after it
    /// would reach 2^63 or there is no room for the change that draws it. At these two the host was asked nothing. Each other stop is
    /// a fault of the disk or the host's memory, which is counted, or want of memory, or one that was answered before. One multi, then
    /// one creation, one write and one sync; memory for the file's bytes.
    pub fn put_new_file(
        &mut self,
        table: &TableId,
        dir: &Octets,
        kind: FileKind,
        cells: &[Cell],
    ) -> Result<NewFile, Stop>
        requires dir { IsDirectory dir.now }
        requires cells { AreFileCells cells.now }
        ensures acts { Acts H.state (MayPutNew table.now dir.now kind self.old.base.nodes) (PutsNew table.now dir.now kind cells.now self.old.base.nodes) (stop_of result) self.old.base self.new.base }
        ensures keeps { Acts H.state KeepsState KeepsState (stop_of result) self.old.base self.new.base }
        ensures file { IfOk result (λ file. IsNewFile table.now dir.now kind cells.now file self.old.base.nodes.nodes self.new.base.nodes.nodes) }
        ensures name { self.new.base.nodes.name ≡ self.old.base.nodes.name }
        ensures logs { self.new.base.logs ≡ self.old.base.logs }
        ensures beside { SameBeside self.old self.new }
        ensures none { IsNoCounter self.old.base.nodes.nodes next_name_path → IsErr result }
        ensures full { IsDrawFull self.old.base.nodes → IsErr result }
        ensures untouched { IfErr result (λ stop. IsUndrawn stop → self.new.base.host ≡ self.old.base.host) }
        ensures station { IsTrue (H.state self.old.base.host).is_faithful → MovesStation H.state (stop_of result) self.old self.new }
        ensures stops { self.old.base.stopped ≡ None → IfErr result (λ stop. DrawCause self.old.base.nodes stop (H.state self.old.base.host) (H.state self.new.base.host)) }
    {
        a_new_file_may_be_written();
        bytes_of(table);
        self.base.check()?;
        put_new_file(self.alloc, &mut self.base, table, dir, kind, cells)
    }
}
