// Grounds of new stores.
ghost use Rattle.std.specs.Prelude.{◌≡◌, ◌⊎◌, All, Some, IfErr, IfOk, OnOk, IsErrOf, IsTrue, MatchBool, length};
ghost use Rattle.host_model.specs.Calls.{Looks};
ghost use Rattle.host_model.specs.Kinds.{IsLook, IsLookOrSync};
ghost use Rattle.host_model.specs.Leaves.{AllSettled};
ghost use Rattle.host_model.specs.declared.call.HostCall.TheVariants.{Sync};
ghost use Rattle.host_model.specs.declared.fault.Stop.TheVariants.{NoMemory};
ghost use Rattle.data_files.specs.Files.{spelled_file};
ghost use Rattle.node_store.specs.Image.{IsStored};
ghost use Rattle.store_layout.specs.Names.{nodes_name};
ghost use Rattle.store_layout.specs.NewStore.{IsUnbornDisk, IsNewStore, first_cells, root_file};
ghost use Rattle.ground_store.specs.Opening.{AreFirst, Begins, BeginsFrom, InitStops, IsFirstName, IsFresh, IsReady, MakeStops, host_behind};
ghost use Rattle.ground_store.specs.declared.stop.GroundStop.TheVariants as begins;

use crate::ground::Ground;
use crate::opening::over;
use crate::stop::GroundStop;
use data_files::write_file;
use host_model::{Host, Name, Stop};
use node_store::{NodeStop, NodeStore, is_born};
use std::alloc::Global;
use store_layout::{a_new_store_begins, first_cells, first_ops, nodes_name, root_file_name};

fn is_first_name(nodes: &Name, root: &Name, other: &Name) -> bool
    ensures { MatchBool result (IsFirstName nodes.now root.now other.now) (IsFirstName nodes.now root.now other.now → ⊥) }
{
    other == nodes || other == root
}

/// Whether all of these are names that a new store has.
fn are_first_names(nodes: &Name, root: &Name, names: &[Name]) -> bool
    ensures { MatchBool result (All (IsFirstName nodes.now root.now) names.now) (All (IsFirstName nodes.now root.now) names.now → ⊥) }
{
    names.iter().all(|other| is_first_name(nodes, root, other))
}

/// Whether no store was begun, and no file is there that no new store has.
fn is_unborn_disk<H: Host>(
    alloc: Global,
    host: &mut H,
    nodes: &Name,
    root: &Name,
) -> Result<bool, Stop>
    requires { (nodes.now ≡ nodes_name) × (root.now ≡ root_file) }
    ensures looks { Looks (H.state host.old) (H.state host.new) }
    ensures last { OnOk result (IsLook (H.state host.new).last) }
    ensures unborn { IsTrue (H.state host.old).is_faithful → IfOk result (λ unborn. MatchBool unborn (IsUnbornDisk (H.state host.old).files) (IsUnbornDisk (H.state host.old).files → ⊥)) }
    ensures asked { IsErrOf result NoMemory → IsLook (H.state host.new).last }
    ensures stops { IfErr result (λ stop. MakeStops stop (H.state host.old) (H.state host.new)) }
{
    if is_born(host, nodes)? {
        return Ok(false);
    }
    let names = host.names(alloc)?;
    Ok(are_first_names(nodes, root, &names))
}

/// Makes the first nodes, behind the first file of the root tablet, which has so many bytes.
fn make_nodes<H: Host>(
    alloc: Global,
    host: &mut H,
    name: &Name,
    size: u64,
) -> Result<NodeStore, Stop>
    requires name { name.now ≡ nodes_name }
    requires size { size ≡ length (spelled_file first_cells) }
    ensures begins { BeginsFrom IsReady (H.state host.old) (H.state host.new) }
    ensures rests { IsTrue (H.state host.old).is_honest → AllSettled (H.state host.old) → OnOk result (AllSettled (H.state host.new)) }
    ensures first { IfOk result AreFirst }
    ensures stored { IsTrue (H.state host.new).is_faithful → IfOk result (λ store. IsStored store (H.state host.new).files) }
    ensures new_store { IsTrue (H.state host.old).is_faithful → IsReady (H.state host.old).files → OnOk result (IsNewStore (H.state host.new).files) }
    ensures last { OnOk result ((H.state host.new).last ≡ Some Sync) }
    ensures asked { IsErrOf result NoMemory → (host.new ≡ host.old) ⊎ ((H.state host.new).last ≡ Some Sync) }
    ensures stops { IfErr result (λ stop. MakeStops stop (H.state host.old) (H.state host.new)) }
{
    a_new_store_begins();
    let ops = first_ops(alloc, size)?;
    let mut store = NodeStore::create(alloc, host, name)?;
    match store.multi(host, &ops) {
        Ok(()) => Ok(store),
        Err(NodeStop::Stop(stop)) => Err(stop),
        Err(NodeStop::Exists | NodeStop::Missing | NodeStop::Version(_)) => unreachable!(),
    }
}

/// Makes a new store on an unborn disk: the root tablet's first file, and then the nodes.
fn make<H: Host>(alloc: Global, host: &mut H, nodes: &Name, root: &Name) -> Result<NodeStore, Stop>
    requires { (nodes.now ≡ nodes_name) × (root.now ≡ root_file) }
    ensures begins { Begins (H.state host.old) (H.state host.new) }
    ensures rests { IsTrue (H.state host.old).is_honest → AllSettled (H.state host.old) → OnOk result (AllSettled (H.state host.new)) }
    ensures first { IfOk result AreFirst }
    ensures stored { IsTrue (H.state host.new).is_faithful → IfOk result (λ store. IsStored store (H.state host.new).files) }
    ensures new_store { IsTrue (H.state host.old).is_faithful → IsUnbornDisk (H.state host.old).files → OnOk result (IsNewStore (H.state host.new).files) }
    ensures last { OnOk result ((H.state host.new).last ≡ Some Sync) }
    ensures asked { IsErrOf result NoMemory → (host.new ≡ host.old) ⊎ ((H.state host.new).last ≡ Some Sync) }
    ensures stops { IfErr result (λ stop. MakeStops stop (H.state host.old) (H.state host.new)) }
{
    let cells = first_cells(alloc)?;
    let size = write_file(alloc, host, root, &cells)?;
    make_nodes(alloc, host, nodes, size)
}

/// Makes a new store on an unborn disk, and gives its nodes: the root tablet's first file, and then the nodes, in one multi.
///
/// `NotBlank` comes exactly where the disk isn't unborn, and on such a disk the host is only asked, whatever the answer;
/// `NotInit` never. Each other stop is a fault of the disk or the host's memory, which is counted, or want of memory, and
/// then the host is as it was, or its last call only asked or was a sync: there is always room for the first nodes. A stop
/// or a crash inside leaves a disk that is unborn, with the root tablet's file or without it, or the new store there. It
/// makes at most fifteen calls of the host, of which four are syncs; time and memory go with the number of names. This
/// project's own.
pub fn init_nodes<H: Host>(alloc: Global, host: &mut H) -> Result<NodeStore, GroundStop>
    ensures begins { Begins (H.state host.old) (H.state host.new) }
    ensures rests { IsTrue (H.state host.old).is_honest → AllSettled (H.state host.old) → OnOk result (AllSettled (H.state host.new)) }
    ensures first { IfOk result AreFirst }
    ensures stored { IsTrue (H.state host.new).is_faithful → IfOk result (λ store. IsStored store (H.state host.new).files) }
    ensures was_unborn { IsTrue (H.state host.old).is_faithful → OnOk result (IsUnbornDisk (H.state host.old).files) }
    ensures new_store { IsTrue (H.state host.old).is_faithful → OnOk result (IsNewStore (H.state host.new).files) }
    ensures spares { IsTrue (H.state host.old).is_faithful → (IsUnbornDisk (H.state host.old).files → ⊥) → Looks (H.state host.old) (H.state host.new) }
    ensures last { OnOk result ((H.state host.new).last ≡ Some Sync) }
    ensures asked { IsErrOf result (begins.Stop NoMemory) → (host.new ≡ host.old) ⊎ IsLookOrSync (H.state host.new).last }
    ensures stops { IfErr result (λ stop. InitStops stop (H.state host.old) (H.state host.new)) }
{
    let nodes = nodes_name(alloc)?;
    let root = root_file_name(alloc)?;
    if !is_unborn_disk(alloc, host, &nodes, &root)? {
        return Err(GroundStop::NotBlank);
    }
    Ok(make(alloc, host, &nodes, &root)?)
}

impl<H: Host> Ground<H> {
    /// Makes a new store on an unborn disk: the root tablet's first file, and then the nodes, in one multi. It hands the host
    /// back where there is no ground.
    ///
    /// `NotBlank` comes exactly where the disk isn't unborn, and then the host was only asked; `NotInit` never. Each other
    /// stop is a fault of the disk or the host's memory, which is counted, or want of memory, and then the host is as it was,
    /// or its last call only asked or was a sync. A stop or a crash inside leaves a disk that is unborn, with the root
    /// tablet's file or without it, or the new store there. At most two looks at the file of the nodes and one at all names,
    /// then twelve calls of the host, of which four are syncs; time and memory go with the number of names. This project's
    /// own.
    pub fn init(alloc: Global, mut host: H) -> Result<Ground<H>, (GroundStop, H)>
        requires { IsTrue (H.state host).is_honest → AllSettled (H.state host) }
        ensures begins { Begins (H.state host) (H.state (host_behind result)) }
        ensures fresh { IfOk result IsFresh }
        ensures first { IfOk result (λ ground. AreFirst ground.nodes) }
        ensures was_unborn { IsTrue (H.state host).is_faithful → OnOk result (IsUnbornDisk (H.state host).files) }
        ensures new_store { IsTrue (H.state host).is_faithful → IfOk result (λ ground. IsNewStore (H.state ground.host).files) }
        ensures spares { IsTrue (H.state host).is_faithful → (IsUnbornDisk (H.state host).files → ⊥) → Looks (H.state host) (H.state (host_behind result)) }
        ensures asked { IfErr result (λ answer. answer.0 ≡ begins.Stop NoMemory → (answer.1 ≡ host) ⊎ IsLookOrSync (H.state answer.1).last) }
        ensures stops { IfErr result (λ answer. InitStops answer.0 (H.state host) (H.state answer.1)) }
    {
        match init_nodes(alloc, &mut host) {
            Ok(nodes) => Ok(over(alloc, host, nodes)),
            Err(stop) => Err((stop, host)),
        }
    }
}
