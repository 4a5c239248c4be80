// New tables.
ghost use Rattle.std.specs.Prelude.{◌≡◌, ◌+◌, ◌<◌, ◌^◌, ◌++◌, ◌∷◌, [], true, false, length, Some, None, Ok, Err, IfOk, IfErr, OnOk, OnErr, IsTrue};
ghost use Rattle.std.specs.FinMap as map;
ghost use Rattle.host_model.specs.Alters.{Alters};
ghost use Rattle.host_model.specs.declared.call.HostCall.TheVariants.{Sync};
ghost use Rattle.row_keys.specs.Forms.{IsWordName};
ghost use Rattle.node_store.specs.Nodes.{multi_applied};
ghost use Rattle.node_store.specs.Multi.{spelled_multi};
ghost use Rattle.node_store.specs.Image.{IsNodeFile, IsStored};
ghost use Rattle.node_store.specs.Steps.{MayGive, Gives};
ghost use Rattle.node_store.specs.Answers.{IsFull};
ghost use Rattle.table_store.specs.Numbers.{base36};
ghost use Rattle.table_store.specs.Tables.{is_taken};
ghost use Rattle.store_layout.specs.Names.{nodes_name};
ghost use Rattle.table_store.specs.Layout.{create_ops};
ghost use Rattle.table_store.specs.Kept.{SaysTables};
ghost use Rattle.table_store.specs.StoreValue.{MayCreate, Creates, HasCreated, CreateStops, IsUnasked};
ghost use Rattle.table_store.specs.Room.{IsCreateFull};
ghost use Rattle.table_store.specs.Appending.{Applies, IsFullOrNoMemory};
ghost use Rattle.table_store.specs.Creating.{creation, DrawStops, CommitStops};

use crate::appending::append;
use crate::ids::table_id;
use crate::index::TableIndex;
use crate::nodes::create_ops;
use crate::stop::{again, keep};
use crate::store::TableStore;
use crate::values::NUMBER_END;
use host_model::{Host, Stop};
use node_store::{NodeOp, NodeStore};
use plain_model::{Entry, Op, Source};
use row_keys::{Rows, TableId, TableName};
use std::alloc::{AllocError, Global};

fn creation(alloc: Global, line: u32, id: &TableId, name: &TableName) -> Result<Entry, AllocError>
    ensures is { IfOk result (λ entry. entry ≡ creation line id.now name.now) }
    ensures named { OnOk result (IsWordName name.now) }
{
    Ok(Entry {
        op: Op::Create {
            id: id.copy(alloc)?,
            name: name.copy(alloc)?,
            splits: Rows::new(alloc),
        },
        source: Source::Line(line),
        line,
        lock: None,
    })
}

/// Adds a table under the next number, and gives the changes that make it and its entry.
fn draw(
    alloc: Global,
    by_name: &mut TableIndex,
    next: u64,
    line: u32,
    name: TableName,
) -> Result<(Vec<NodeOp>, Entry), Stop>
    requires { next < 2 ^ 63 }
    ensures added { OnOk result (by_name.new ≡ map.insert by_name.old name (base36 next)) }
    ensures below { OnOk result (next + 1 < 2 ^ 63) }
    ensures named { OnOk result (IsWordName name) }
    ensures ops { IfOk result (λ drawn. drawn.0.items ≡ create_ops (base36 next) name (next + 1)) }
    ensures entry { IfOk result (λ drawn. drawn.1 ≡ creation line (base36 next) name) }
    ensures stops { IfErr result (λ stop. DrawStops stop next) }
{
    if next + 1 >= NUMBER_END {
        return Err(Stop::Full);
    }
    let id = table_id(alloc, next)?;
    let ops = create_ops(alloc, &id, &name, next + 1)?;
    let entry = creation(alloc, line, &id, &name)?;
    by_name.insert(name, id)?;
    Ok((ops, entry))
}

fn offer(entries: &mut Vec<Entry>, entry: Entry) -> Result<(), AllocError>
    ensures ok { OnOk result (entries.new.items ≡ entries.old.items ++ entry ∷ []) }
    ensures err { OnErr result (entries.new.items ≡ entries.old.items) }
{
    entries.push(entry)?;
    Ok(())
}

/// Makes changes that apply, and puts their entry behind the others. A crash inside leaves all of the changes or none.
/// The entry is put there first, so that nothing can fail behind the changes.
fn commit<H: Host>(
    nodes: &mut NodeStore,
    host: &mut H,
    ops: &[NodeOp],
    entries: &mut Vec<Entry>,
    entry: Entry,
) -> Result<(), Stop>
    requires stored { IsTrue (H.state host.old).is_faithful → IsStored nodes.old (H.state host.old).files }
    requires applies { Applies ops.now nodes.old.nodes }
    ensures alters { Alters (IsNodeFile nodes.old.name) (MayGive ops.now nodes.old) (Gives ops.now nodes.old) result (H.state host.old) (H.state host.new) }
    ensures ok { OnOk result (multi_applied ops.now nodes.old.nodes ≡ Ok nodes.new.nodes) }
    ensures entered { OnOk result (entries.new.items ≡ entries.old.items ++ entry ∷ []) }
    ensures name { nodes.new.name ≡ nodes.old.name }
    ensures end { OnOk result (nodes.new.end ≡ nodes.old.end + 5 + length (spelled_multi ops.now)) }
    ensures stored { IsTrue (H.state host.new).is_faithful → OnOk result (IsStored nodes.new (H.state host.new).files) }
    ensures last { OnOk result ((H.state host.new).last ≡ Some Sync) }
    ensures stops { IfErr result (λ stop. CommitStops stop ops.now nodes.old entry entries.old.items entries.new.items (H.state host.old) (H.state host.new)) }
    ensures due { IsFull ops.now nodes.old → IsFullOrNoMemory result }
    ensures untouched { IfErr result (λ stop. IsUnasked stop → host.new ≡ host.old) }
{
    offer(entries, entry)?;
    match append(nodes, host, ops) {
        Ok(()) => Ok(()),
        Err(Stop::Host(fault)) => Err(Stop::Host(fault)),
        Err(stop) => {
            entries.pop();
            Err(stop)
        }
    }
}

impl TableStore {
    /// Makes a table of this name under the next number, as the operation of the line of this number. False comes
    /// exactly where a table has the name, and then nothing is done. It answers `Full` exactly where the next number would
    /// reach 2^63 or the nodes have no room for the changes (or `NoMemory` in its place), `NoMemory`, or a fault of the
    /// host. After an error the store has stopped: it answers the same one to each later call, and asks the host nothing.
    /// Only a fault of the host leaves the entry in doubt. A crash inside leaves the store with the table or without it, and
    /// an image that could be read can still be.
    /// Costs one multi of the nodes, and the logarithm of the number of tables. This project's own.
    pub fn create_table<H: Host>(
        &mut self,
        host: &mut H,
        line: u32,
        name: TableName,
    ) -> Result<bool, Stop>
        requires stored { self.old.stop ≡ None → IsTrue (H.state host.old).is_faithful → IsStored self.old.nodes (H.state host.old).files }
        ensures dead { (stop : Stop) → self.old.stop ≡ Some stop → (result ≡ Err stop) × (self.new ≡ self.old) × (host.new ≡ host.old) }
        ensures taken { self.old.stop ≡ None → is_taken name self.old.tables ≡ true → result ≡ Ok false }
        ensures same { is_taken name self.old.tables ≡ true → (self.new ≡ self.old) × (host.new ≡ host.old) }
        ensures made { is_taken name self.old.tables ≡ false → IfOk result (λ made. made ≡ true) }
        ensures created { is_taken name self.old.tables ≡ false → OnOk result (HasCreated line name self.old self.new) }
        ensures stored { IsTrue (H.state host.new).is_faithful → OnOk result (IsStored self.new.nodes (H.state host.new).files) }
        ensures says { IsTrue (H.state host.new).is_faithful → OnOk result (SaysTables (H.state host.new).files self.new.tables) }
        ensures last { is_taken name self.old.tables ≡ false → OnOk result ((H.state host.new).last ≡ Some Sync) }
        ensures alters { is_taken name self.old.tables ≡ false → Alters (IsNodeFile nodes_name) (MayCreate name self.old.tables) (Creates name self.old.tables) result (H.state host.old) (H.state host.new) }
        ensures stopped { IfErr result (λ stop. self.new.stop ≡ Some stop) }
        ensures history { IfErr result (λ stop. self.new.history ≡ self.old.history) }
        ensures stops { self.old.stop ≡ None → IfErr result (λ stop. CreateStops stop line name self.old self.new (H.state host.old) (H.state host.new)) }
        ensures due { self.old.stop ≡ None → is_taken name self.old.tables ≡ false → IsCreateFull name self.old.tables self.old.nodes → IsFullOrNoMemory result }
        ensures untouched { IfErr result (λ stop. IsUnasked stop → host.new ≡ host.old) }
    {
        if let Some(stop) = &self.stop {
            return Err(again(stop));
        }
        if self.by_name.contains(&name) {
            return Ok(false);
        }
        let (ops, entry) = match draw(self.alloc, &mut self.by_name, self.next, line, name) {
            Ok(drawn) => drawn,
            Err(stop) => return Err(keep(&mut self.stop, stop)),
        };
        match commit(&mut self.nodes, host, &ops, &mut self.entries, entry) {
            Ok(()) => {
                self.committed = self.entries.len();
                self.next += 1;
                Ok(true)
            }
            Err(stop) => Err(keep(&mut self.stop, stop)),
        }
    }
}
