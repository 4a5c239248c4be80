// Grounds of stores that are there.
ghost use Rattle.std.specs.Prelude.{◌≡◌, ◌⊎◌, IfErr, IfOk, OnOk, IsErr, IsErrOf, IsTrue};
ghost use Rattle.host_model.specs.Calls.{Looks};
ghost use Rattle.host_model.specs.Kinds.{IsLook};
ghost use Rattle.host_model.specs.Leaves.{AllSettled};
ghost use Rattle.host_model.specs.declared.fault.Stop.TheVariants.{NoMemory};
ghost use Rattle.node_store.specs.Image.{HasNoNodes, IsBorn, IsStored};
ghost use Rattle.store_layout.specs.Names.{nodes_name};
ghost use Rattle.ground_store.specs.Opening.{IsFresh, OpenStops, host_behind};
ghost use Rattle.ground_store.specs.declared.stop.GroundStop.TheVariants as begins;

use crate::ground::Ground;
use crate::log_map::LogMap;
use crate::stop::GroundStop;
use host_model::Host;
use node_store::{NodeStore, is_born};
use std::alloc::Global;
use store_layout::nodes_name;

/// Opens the nodes of the store that is there, as a crash may have left it. It writes nothing.
///
/// `NotInit` comes exactly where the file of the nodes was never begun, and `NotBlank` never. `Damaged` names that file,
/// where it was begun and has no nodes. Each other stop is a fault of the disk or the host's memory, which is counted, or
/// want of memory, and then the host is as it was or its last call only asked. Four calls of the host at the most; time and
/// memory go with the size of that file, and the time with the logarithm of the number of nodes. This project's own.
pub fn open_nodes<H: Host>(alloc: Global, host: &mut H) -> Result<NodeStore, GroundStop>
    ensures looks { Looks (H.state host.old) (H.state host.new) }
    ensures last { OnOk result (IsLook (H.state host.new).last) }
    ensures name { IfOk result (λ nodes. nodes.name ≡ nodes_name) }
    ensures stored { IsTrue (H.state host.old).is_faithful → IfOk result (λ nodes. IsStored nodes (H.state host.old).files) }
    ensures born { IsTrue (H.state host.old).is_faithful → OnOk result (IsBorn nodes_name (H.state host.old).files) }
    ensures asked { IsErrOf result (begins.Stop NoMemory) → (host.new ≡ host.old) ⊎ IsLook (H.state host.new).last }
    ensures stops { IfErr result (λ stop. OpenStops stop (H.state host.old) (H.state host.new)) }
{
    let name = nodes_name(alloc)?;
    if !is_born(host, &name)? {
        return Err(GroundStop::NotInit);
    }
    Ok(NodeStore::open(alloc, host, &name)?)
}

/// A ground that has done nothing yet.
pub fn over<H: Host>(alloc: Global, host: H, nodes: NodeStore) -> Ground<H>
    requires name { nodes.name ≡ nodes_name }
    requires stored { IsTrue (H.state host).is_faithful → IsStored nodes (H.state host).files }
    requires settled { IsTrue (H.state host).is_honest → AllSettled (H.state host) }
    ensures host { result.host ≡ host }
    ensures nodes { result.nodes ≡ nodes }
    ensures fresh { IsFresh result }
{
    Ground {
        alloc,
        host,
        nodes,
        logs: LogMap::new(alloc),
        stopped: None,
    }
}

impl<H: Host> Ground<H> {
    /// Opens the store that is there, as a crash may have left it. It writes nothing, and hands the host back where there is
    /// no ground.
    ///
    /// `NotInit` comes exactly where the file of the nodes was never begun, and `NotBlank` never. `Damaged` names that file,
    /// where it was begun and has no nodes. Each other stop is a fault of the disk or the host's memory, which is counted, or
    /// want of memory, and then the host is as it was or its last call only asked. Four calls of the host at the most; time
    /// and memory go with the size of that file, and the time with the logarithm of the number of nodes. This project's own.
    pub fn open(alloc: Global, mut host: H) -> Result<Ground<H>, (GroundStop, H)>
        requires { IsTrue (H.state host).is_honest → AllSettled (H.state host) }
        ensures looks { Looks (H.state host) (H.state (host_behind result)) }
        ensures fresh { IfOk result IsFresh }
        ensures name { IfOk result (λ ground. ground.nodes.name ≡ nodes_name) }
        ensures stored { IsTrue (H.state host).is_faithful → IfOk result (λ ground. IsStored ground.nodes (H.state host).files) }
        ensures born { IsTrue (H.state host).is_faithful → OnOk result (IsBorn nodes_name (H.state host).files) }
        ensures damaged { IsTrue (H.state host).is_faithful → HasNoNodes nodes_name (H.state host).files → IsErr result }
        ensures asked { IfErr result (λ answer. answer.0 ≡ begins.Stop NoMemory → (answer.1 ≡ host) ⊎ IsLook (H.state answer.1).last) }
        ensures stops { IfErr result (λ answer. OpenStops answer.0 (H.state host) (H.state answer.1)) }
    {
        match open_nodes(alloc, &mut host) {
            Ok(nodes) => Ok(over(alloc, host, nodes)),
            Err(stop) => Err((stop, host)),
        }
    }
}
