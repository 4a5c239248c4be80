// The node store.
ghost use Rattle.std.specs.Prelude.{◌≡◌, ◌⊎◌, ◌+◌, List, ℕ, length, Some, Ok, Err, IfOk, IfErr, IsErrOf, OnOk, IsTrue, MatchBool, MatchOption};
ghost use Rattle.std.specs.FinMap as map;
ghost use Rattle.std.specs.Option.{option_copied};
ghost use Rattle.host_model.specs.Kinds.{IsLook};
ghost use Rattle.host_model.specs.Calls.{HasCause, Looks};
ghost use Rattle.host_model.specs.Alters.{Alters};
ghost use Rattle.host_model.specs.declared.call.HostCall.TheVariants.{Sync};
ghost use Rattle.host_model.specs.declared.fault.Stop.TheVariants.{NoMemory};
ghost use Rattle.journal_core.specs.Journal.{FileCause};
ghost use Rattle.node_store.specs.declared.changes.NodeStop.{NodeStop};
ghost use Rattle.node_store.specs.Children.{children_of};
ghost use Rattle.node_store.specs.Nodes.{multi_applied};
ghost use Rattle.node_store.specs.Multi.{spelled_multi};
ghost use Rattle.node_store.specs.Image.{IsNodeFile, IsStored, IsBorn, IsUnborn};
ghost use Rattle.node_store.specs.Steps.{MayGive, Gives, MayStart, Starts};
ghost use Rattle.node_store.specs.Answers.{IsDue, IsRefusal, IsEarly, MultiCause, OpenCause, AnswersOrNoMemory};

use crate::changes::{Node, NodeOp, NodeStop};
use crate::fold::fold_records;
use crate::multi_text::spell_multi;
use crate::path_map::PathMap;
use crate::staged::apply;
use host_model::{Host, HostFault, Name, Stop};
use journal_core::Journal;
use row_keys::Path;
use std::alloc::{AllocError, Global};
use std::marker::Model;

// A file of fewer bytes has no record whose gate was opened.
const BORN_LENGTH: u64 = 2;

/// The nodes of a cluster in memory, over the journal of multis that makes them lasting.
///
/// Contracts see the name of the nodes, what each path has, and where the journal goes on, which tells whether a multi has
/// room. Callers hand on that the files are as this value left them, which `IsStored` says. The paths are a flat map: none
/// needs another one. Nodes with versions and multis are those of the ZooKeeper under Apache Accumulo 2.1; their file is
/// this project's own.
#[derive(Debug, Drop)]
pub struct NodeStore {
    alloc: Global,
    journal: Journal,
    nodes: PathMap<Node>,
}

impl Model for NodeStore {
    ghost use Rattle.node_store.specs.Value.{StoreValue, store_code};

    ghost Value = { StoreValue };

    ghost coded = { store_code };

    ghost view = { λ store. record { name = store.journal.name; nodes = store.nodes; end = store.journal.end } };
}

impl NodeStore {
    /// Makes a store without nodes, in place of any of this name.
    ///
    /// Stops at a fault of the disk or the host's memory, which is counted, or for want of memory. A stop or a crash on the
    /// way leaves the nodes' file as it was, or with fewer than two bytes; want of memory leaves the host as it was. Three calls of the host, one of them a sync.
    pub fn create<H: Host>(alloc: Global, host: &mut H, name: &Name) -> Result<NodeStore, Stop>
        ensures alters { Alters (IsNodeFile name.now) (MayStart name.now) (Starts name.now) result (H.state host.old) (H.state host.new) }
        ensures made { IfOk result (λ store. store ≡ record { name = name.now; nodes = map.empty; end = 0 }) }
        ensures stored { IsTrue (H.state host.new).is_faithful → IfOk result (λ store. IsStored store (H.state host.new).files) }
        ensures last { OnOk result ((H.state host.new).last ≡ Some Sync) }
        ensures untouched { IsErrOf result NoMemory → host.new ≡ host.old }
        ensures stops { IfErr result (λ stop. FileCause stop (H.state host.old) (H.state host.new)) }
    {
        let journal = Journal::create(alloc, host, name)?;
        Ok(NodeStore {
            alloc,
            journal,
            nodes: PathMap::new(alloc),
        })
    }

    /// Opens a store, as a crash may have left it. It changes nothing.
    ///
    /// `Damaged` names the nodes, and comes only where the host has none by this name: the file isn't there or isn't a
    /// journal's, or a record isn't a multi that applies. Each other stop is a fault of the disk or the host's memory, which
    /// is counted, or want of memory, and then the host is as it was or its last call only asked. Two calls of the host. The
    /// time grows with the file, times the logarithm of the number of nodes, and the memory with the file.
    pub fn open<H: Host>(alloc: Global, host: &mut H, name: &Name) -> Result<NodeStore, Stop>
        ensures looks { Looks (H.state host.old) (H.state host.new) }
        ensures last { OnOk result (IsLook (H.state host.new).last) }
        ensures name { IfOk result (λ store. store.name ≡ name.now) }
        ensures stored { IsTrue (H.state host.old).is_faithful → IfOk result (λ store. IsStored store (H.state host.old).files) }
        ensures asked { IsErrOf result NoMemory → (host.new ≡ host.old) ⊎ IsLook (H.state host.new).last }
        ensures stops { IfErr result (λ stop. OpenCause name.now stop (H.state host.old) (H.state host.new)) }
    {
        let mut journal = Journal::open(alloc, host, name)?;
        let Some(nodes) = fold_records(alloc, journal.records())? else {
            return Err(Stop::Damaged(name.copy(alloc)?));
        };
        journal.forget_records();
        Ok(NodeStore {
            alloc,
            journal,
            nodes,
        })
    }

    /// Makes changes in their order, all or none, which are lasting on return.
    ///
    /// `Exists`, `Missing` and `Version` come exactly where the first change that doesn't apply is refused so; then nothing
    /// was done, and the store goes on. `Full` comes exactly where a version would reach 2^63 before that, or where all
    /// changes apply and their record has 2^32 bytes or more or brings the journal past 2^40. Want of memory may come in
    /// place of each of these, and of Ok. Each other stop is a fault of the disk or the host's memory, which is counted; it
    /// leaves the changes made or not, as a crash on the way does. After any `Stop` open the store again: the nodes in
    /// memory may be neither those before nor those after.
    ///
    /// All memory is taken before the host is called. Six calls of the host, two of them syncs, and no open. The time grows
    /// with the changes and their bytes, times the logarithm of the number of nodes; the other nodes aren't touched.
    pub fn multi<H: Host>(&mut self, host: &mut H, ops: &[NodeOp]) -> Result<(), NodeStop>
        requires { IsTrue (H.state host.old).is_faithful → IsStored self.old (H.state host.old).files }
        ensures alters { Alters (IsNodeFile self.old.name) (MayGive ops.now self.old) (Gives ops.now self.old) result (H.state host.old) (H.state host.new) }
        ensures ok { OnOk result (multi_applied ops.now self.old.nodes ≡ Ok self.new.nodes) }
        ensures name { self.new.name ≡ self.old.name }
        ensures end { OnOk result (self.new.end ≡ self.old.end + 5 + length (spelled_multi ops.now)) }
        ensures stored { IsTrue (H.state host.new).is_faithful → OnOk result (IsStored self.new (H.state host.new).files) }
        ensures last { OnOk result ((H.state host.new).last ≡ Some Sync) }
        ensures cause { IfErr result (λ stop. MultiCause ops.now self.old stop (H.state host.old) (H.state host.new)) }
        ensures due { (stop : NodeStop) → IsDue ops.now self.old stop → AnswersOrNoMemory (Err stop) result }
        ensures refused { IfErr result (λ stop. IsRefusal stop → self.new ≡ self.old) }
        ensures untouched { IfErr result (λ stop. IsEarly stop → host.new ≡ host.old) }
    {
        apply(self.alloc, &mut self.nodes, ops)?;
        let Some(payload) = spell_multi(self.alloc, ops)? else {
            return Err(NodeStop::Stop(Stop::Full));
        };
        self.journal.append(host, &payload)?;
        Ok(())
    }

    /// The name of the nodes. Takes no memory.
    pub fn name(&self) -> &Name
        ensures { result.now ≡ self.now.name }
    {
        self.journal.name()
    }

    /// The node of a path, if it has one. Takes no memory; the time is logarithmic in the number of nodes.
    pub fn get(&self, path: &Path) -> Option<&Node>
        ensures { option_copied result ≡ map.get self.now.nodes path.now }
    {
        self.nodes.get(path)
    }

    /// The paths that add one `/` and one further name to this one, in byte order; this path itself may have a node or not.
    ///
    /// Takes memory for the answer. The time grows with the paths below this one and the logarithm of the number of nodes.
    pub fn children(&self, path: &Path) -> Result<Vec<Path>, AllocError>
        ensures { IfOk result (λ paths. paths.items ≡ children_of path.now (map.keys self.now.nodes)) }
    {
        self.nodes.children(self.alloc, path)
    }

    /// The paths of all nodes, in byte order. Takes memory for the answer; the time grows with the number of nodes.
    pub fn paths(&self) -> Result<Vec<Path>, AllocError>
        ensures { IfOk result (λ paths. paths.items ≡ map.keys self.now.nodes) }
    {
        self.nodes.paths(self.alloc)
    }
}

/// Whether nodes of this name are there: their file has at least two bytes, of which the first is 1, so that a first multi
/// was made.
///
/// Stops at a fault of the disk or the host's memory, which is counted. At most two calls of the host; takes no memory.
pub fn is_born<H: Host>(host: &mut H, name: &Name) -> Result<bool, HostFault>
    ensures looks { Looks (H.state host.old) (H.state host.new) }
    ensures last { OnOk result (IsLook (H.state host.new).last) }
    ensures born { IsTrue (H.state host.old).is_faithful → IfOk result (λ born. MatchBool born (IsBorn name.now (H.state host.old).files) (IsUnborn name.now (H.state host.old).files)) }
    ensures cause { HasCause result (H.state host.old) (H.state host.new) }
{
    let Some(size) = host.length(name)? else {
        return Ok(false);
    };
    if size < BORN_LENGTH {
        return Ok(false);
    }
    let mut first = [0];
    host.read(name, 0, &mut first)?;
    Ok(first[0] == 1)
}
