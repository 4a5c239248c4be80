// Nodes over a host.
ghost use Rattle.std.specs.Prelude.{◌≡◌, None, Some, Ok, Err, IfOk, IfErr, OnOk};
ghost use Rattle.std.specs.Option.{option_copied};
ghost use Rattle.std.specs.FinMap as map;
ghost use Rattle.host_model.specs.Calls.{Looks};
ghost use Rattle.host_model.specs.Alters.{Alters};
ghost use Rattle.host_model.specs.declared.fault.Stop.{Stop};
ghost use Rattle.host_model.specs.declared.fault.Stop.TheVariants.{Full};
ghost use Rattle.node_store.specs.Nodes.{multi_applied};
ghost use Rattle.node_store.specs.Image.{IsNodeFile};
ghost use Rattle.node_store.specs.Steps.{MayStart, Starts};
ghost use Rattle.node_store.specs.Answers.{IsFull};
ghost use Rattle.fate_runner.specs.Works.{Acts};
ghost use Rattle.fate_trial.specs.Layout.{nodes_name, Applies, slot_path, value_at};
ghost use Rattle.fate_trial.specs.Site.{GoesOn, IsDead, MayMake, Makes, stop_of};
ghost use Rattle.fate_trial.specs.Stops.{CreateStop, OpenStop, Fails, StopsSo};

use crate::layout::{Slot, nodes_name, slot_path};
use host_model::{Host, HostFault, Stop};
use node_store::{NodeOp, NodeStop, NodeStore};
use row_keys::{Octets, Path};
use std::alloc::{AllocError, Global};

/// A stop of a change of the nodes, which names no file.
#[derive(Clone, Copy, Debug, PartialEq, Eq)]
pub enum Halt {
    /// The host answered a fault.
    Host(HostFault),
    /// There is no room for the change.
    Full,
    /// The program found no memory.
    NoMemory,
}

/// The nodes of a store, over a host that it owns. After a stop of a change it asks nothing of the host any more, and
/// answers the same stop.
#[derive(Drop)]
pub struct Site<H: Host> {
    /// Where memory is taken.
    pub alloc: Global,
    /// The host.
    pub host: H,
    /// The nodes, as the last change that was made left them.
    pub nodes: NodeStore,
    /// What a change has answered, and each later one answers.
    pub stopped: Option<Halt>,
}

/// The stop that is answered.
fn stop_of(halt: Halt) -> Stop
    ensures { result ≡ stop_of halt }
{
    match halt {
        Halt::Host(fault) => Stop::Host(fault),
        Halt::Full => Stop::Full,
        Halt::NoMemory => Stop::NoMemory,
    }
}

impl<H: Host> Site<H> {
    /// A site over a new store, without nodes, in place of any that is there. Three calls of the host.
    ///
    /// Stops at a fault of the disk or the host's memory, which is counted, or for want of memory, and hands the host back.
    pub fn create(alloc: Global, mut host: H) -> Result<Site<H>, (Stop, H)>
        ensures live { IfOk result (λ site. GoesOn H.state site) }
        ensures runs { IfOk result (λ site. site.stopped ≡ None) }
        ensures made { IfOk result (λ site. site.nodes.nodes ≡ map.empty) }
        ensures alters { IfOk result (λ site. Alters (IsNodeFile nodes_name) (MayStart nodes_name) (Starts nodes_name) result (H.state host) (H.state site.host)) }
        ensures stops { IfErr result (λ answer. CreateStop answer.0 (H.state host) (H.state answer.1)) }
    {
        let Ok(name) = nodes_name(alloc) else {
            return Err((Stop::NoMemory, host));
        };
        match NodeStore::create(alloc, &mut host, &name) {
            Ok(nodes) => Ok(Site {
                alloc,
                host,
                nodes,
                stopped: None,
            }),
            Err(stop) => Err((stop, host)),
        }
    }

    /// A site over the store that is there, as a crash may have left it. Two calls of the host.
    ///
    /// `Damaged` names the nodes, and comes only where the host has none. Else it stops at a fault of the disk or the host's
    /// memory, which is counted, or for want of memory. Where it stops it hands the host back.
    pub fn open(alloc: Global, mut host: H) -> Result<Site<H>, (Stop, H)>
        ensures live { IfOk result (λ site. GoesOn H.state site) }
        ensures runs { IfOk result (λ site. site.stopped ≡ None) }
        ensures looks { IfOk result (λ site. Looks (H.state host) (H.state site.host)) }
        ensures stops { IfErr result (λ answer. OpenStop answer.0 (H.state host) (H.state answer.1)) }
    {
        let Ok(name) = nodes_name(alloc) else {
            return Err((Stop::NoMemory, host));
        };
        match NodeStore::open(alloc, &mut host, &name) {
            Ok(nodes) => Ok(Site {
                alloc,
                host,
                nodes,
                stopped: None,
            }),
            Err(stop) => Err((stop, host)),
        }
    }
}

impl<H: Host> Site<H> {
    /// Whether it goes on, or else why it has stopped.
    pub fn going(&self) -> Result<(), Stop>
        ensures runs { OnOk result (self.now.stopped ≡ None) }
        ensures dead { (stop : Stop) → IsDead H.state self.now stop → result ≡ Err stop }
        ensures stops { IfErr result (λ stop. IsDead H.state self.now stop) }
    {
        match self.stopped {
            None => Ok(()),
            Some(halt) => Err(stop_of(halt)),
        }
    }

    /// The value at a path, if it has a node.
    #[tactic(auto, unfolding(crate::specs::Layout::value_at))]
    pub fn value(&self, path: &Path) -> Option<&Octets>
        ensures { option_copied result ≡ value_at self.now.nodes.nodes path.now }
    {
        match self.nodes.get(path) {
            Some(node) => Some(&node.value),
            None => None,
        }
    }

    /// The value in a slot of this transaction. Takes memory for its path.
    pub fn slot(&self, slot: Slot, tid: u64) -> Result<Option<&Octets>, AllocError>
        ensures { IfOk result (λ found. option_copied found ≡ value_at self.now.nodes.nodes (slot_path slot tid)) }
    {
        let path = slot_path(self.alloc, slot, tid)?;
        Ok(self.value(&path))
    }

    /// Makes changes that apply, all or none, lasting on return. Two syncs.
    ///
    /// `Full` comes where the store has no room for them, and want of memory may come in its place.
    pub fn change(&mut self, ops: &[NodeOp]) -> Result<(), Stop>
        requires live { GoesOn H.state self.old }
        requires runs { self.old.stopped ≡ None }
        requires applies { Applies ops.now self.old.nodes.nodes }
        ensures acts { Acts result (MayMake ops.now) (Makes ops.now) (H.state self.old.host) (H.state self.new.host) }
        ensures made { OnOk result (multi_applied ops.now self.old.nodes.nodes ≡ Ok self.new.nodes.nodes) }
        ensures live { GoesOn H.state self.new }
        ensures goes_on { OnOk result (self.new.stopped ≡ None) }
        ensures stops { IfErr result (λ stop. Fails H.state ops.now stop self.old self.new) }
        ensures full { IsFull ops.now self.old.nodes → StopsSo Full result }
    {
        match self.nodes.multi(&mut self.host, ops) {
            Ok(()) => Ok(()),
            Err(NodeStop::Stop(Stop::Host(fault))) => {
                self.stopped = Some(Halt::Host(fault));
                Err(Stop::Host(fault))
            }
            Err(NodeStop::Stop(Stop::Full)) => {
                self.stopped = Some(Halt::Full);
                Err(Stop::Full)
            }
            Err(NodeStop::Stop(Stop::NoMemory)) => {
                self.stopped = Some(Halt::NoMemory);
                Err(Stop::NoMemory)
            }
            Err(_) => unreachable!(),
        }
    }
}
