// Changes of the nodes.
ghost use Rattle.std.specs.Prelude.{◌≡◌, ◌+◌, length, None, Ok, Err, IfErr, IfOk, OnOk, IsTrue};
ghost use Rattle.node_store.specs.Nodes.{multi_applied};
ghost use Rattle.node_store.specs.Multi.{spelled_multi};
ghost use Rattle.node_store.specs.Steps.{MayGive};
ghost use Rattle.node_store.specs.Answers.{MultiCause, IsDue, IsRefusal, IsEarly, AnswersOrNoMemory};
ghost use Rattle.node_store.specs.declared.changes.NodeStop.{NodeStop as Refusal};
ghost use Rattle.ground_store.specs.Acts.{Acts, KeepsStopOf, stop_in};
ghost use Rattle.ground_store.specs.Steps.{Gave};

use crate::again::{again, keep};
use crate::ground::Ground;
use host_model::{Host, Stop};
use node_store::{NodeOp, NodeStop};
use std::alloc::Global;

impl<H: Host> Ground<H> {
    /// Makes changes of the nodes, all of them or none. `Exists`, `Missing` and `Version` come exactly where the first change
    /// that fails says so, and then nothing changes and the host is asked nothing. `Full` comes exactly where there is no room
    /// or a version would reach its end. Two syncs; time goes with the changes.
    pub fn multi(&mut self, ops: &[NodeOp]) -> Result<(), NodeStop>
        ensures acts { Acts H.state (MayGive ops.now self.old.nodes) (Gave ops.now self.old.nodes result) (stop_in result) self.old self.new }
        ensures nodes { OnOk result (multi_applied ops.now self.old.nodes.nodes ≡ Ok self.new.nodes.nodes) }
        ensures end { OnOk result (self.new.nodes.end ≡ self.old.nodes.end + 5 + length (spelled_multi ops.now)) }
        ensures name { self.new.nodes.name ≡ self.old.nodes.name }
        ensures logs { self.new.logs ≡ self.old.logs }
        ensures due { self.old.stopped ≡ None → (stop : Refusal) → IsDue ops.now self.old.nodes stop → AnswersOrNoMemory (Err stop) result }
        ensures refused { IfErr result (λ stop. IsRefusal stop → self.new ≡ self.old) }
        ensures untouched { IfErr result (λ stop. IsEarly stop → self.new.host ≡ self.old.host) }
        ensures stops { self.old.stopped ≡ None → IfErr result (λ stop. MultiCause ops.now self.old.nodes stop (H.state self.old.host) (H.state self.new.host)) }
    {
        if let Some(stop) = &self.stopped {
            return Err(NodeStop::Stop(again(self.alloc, stop)));
        }
        match self.nodes.multi(&mut self.host, ops) {
            Ok(()) => Ok(()),
            Err(stop) => Err(keep_stop(self.alloc, &mut self.stopped, stop)),
        }
    }
}

/// Keeps why a multi stopped, where it is no refusal, and answers it.
fn keep_stop(alloc: Global, kept: &mut Option<Stop>, stop: NodeStop) -> NodeStop
    ensures { KeepsStopOf stop kept.old kept.new result }
{
    match stop {
        NodeStop::Stop(stop) => NodeStop::Stop(keep(alloc, kept, stop)),
        NodeStop::Exists => NodeStop::Exists,
        NodeStop::Missing => NodeStop::Missing,
        NodeStop::Version(found) => NodeStop::Version(found),
    }
}
