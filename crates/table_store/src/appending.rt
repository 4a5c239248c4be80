// Changes of the nodes.
ghost use Rattle.std.specs.Prelude.{◌≡◌, ◌+◌, length, Some, Ok, IfErr, OnOk, IsTrue};
ghost use Rattle.host_model.specs.Alters.{Alters};
ghost use Rattle.host_model.specs.declared.call.HostCall.TheVariants.{Sync};
ghost use Rattle.node_store.specs.Nodes.{multi_applied};
ghost use Rattle.node_store.specs.Multi.{spelled_multi};
ghost use Rattle.node_store.specs.Image.{IsNodeFile, IsStored};
ghost use Rattle.node_store.specs.Steps.{MayGive, Gives};
ghost use Rattle.node_store.specs.Answers.{IsFull};
ghost use Rattle.table_store.specs.StoreValue.{IsUnasked};
ghost use Rattle.table_store.specs.Appending.{Applies, AppendStops, IsFullOrNoMemory};

use host_model::{Host, Stop};
use node_store::{NodeOp, NodeStop, NodeStore};

/// Makes changes that apply. A crash inside leaves all of them or none. Costs what one multi does.
pub fn append<H: Host>(nodes: &mut NodeStore, host: &mut H, ops: &[NodeOp]) -> Result<(), Stop>
    requires stored { IsTrue (H.state host.old).is_faithful → IsStored nodes.old (H.state host.old).files }
    requires applies { Applies ops.now nodes.old.nodes }
    ensures alters { Alters (IsNodeFile nodes.old.name) (MayGive ops.now nodes.old) (Gives ops.now nodes.old) result (H.state host.old) (H.state host.new) }
    ensures ok { OnOk result (multi_applied ops.now nodes.old.nodes ≡ Ok nodes.new.nodes) }
    ensures name { nodes.new.name ≡ nodes.old.name }
    ensures end { OnOk result (nodes.new.end ≡ nodes.old.end + 5 + length (spelled_multi ops.now)) }
    ensures stored { IsTrue (H.state host.new).is_faithful → OnOk result (IsStored nodes.new (H.state host.new).files) }
    ensures last { OnOk result ((H.state host.new).last ≡ Some Sync) }
    ensures stops { IfErr result (λ stop. AppendStops ops.now nodes.old stop (H.state host.old) (H.state host.new)) }
    ensures due { IsFull ops.now nodes.old → IsFullOrNoMemory result }
    ensures untouched { IfErr result (λ stop. IsUnasked stop → host.new ≡ host.old) }
{
    match nodes.multi(host, ops) {
        Ok(()) => Ok(()),
        Err(NodeStop::Stop(stop)) => Err(stop),
        Err(NodeStop::Exists | NodeStop::Missing | NodeStop::Version(_)) => unreachable!(),
    }
}
