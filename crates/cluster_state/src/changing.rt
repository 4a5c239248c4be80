// Nodes that are changed.
ghost use Rattle.std.specs.Prelude.{◌≡◌, ◌+◌, None, Ok, Err, All, IfErr, IsTrue, OnOk, length};
ghost use Rattle.node_store.specs.declared.changes.NodeStop.{NodeStop as Refusal};
ghost use Rattle.node_store.specs.Answers.{AnswersOrNoMemory, IsDue, IsEarly, IsRefusal, MultiCause};
ghost use Rattle.node_store.specs.Multi.{spelled_multi};
ghost use Rattle.node_store.specs.Nodes.{multi_applied};
ghost use Rattle.node_store.specs.Steps.{MayGive};
ghost use Rattle.ground_store.specs.Acts.{Acts, stop_in};
ghost use Rattle.ground_store.specs.Steps.{Gave};
ghost use Rattle.cluster_state.specs.Changing.{IsOfOthers, KeepsGiven, MayKeepGiven, StationGiven};
ghost use Rattle.cluster_state.specs.Starting.{SameBeside};

use crate::cluster::Cluster;
use host_model::Host;
use node_store::{NodeOp, NodeStop};

impl<H: Host> Cluster<H> {
    /// Makes changes of the nodes, all of them or none; none is of the root record or of a server. Where what is kept is so still with
    /// the changed nodes, with the same plain state or another, it is kept as before or as then in whatever a crash inside leaves, and
    /// as then at `Ok`.
    ///
    /// `Exists`, `Missing` and `Version` come exactly where the first change that fails says so, and then nothing changes and the host
    /// is asked nothing. `Full` comes exactly where there is no room or a version would reach its end. Each other stop is a fault of
    /// the disk or the host's memory, which is counted, or want of memory, or one that was answered before. Two syncs; time goes with
    /// the changes.
    pub fn multi(&mut self, ops: &[NodeOp]) -> Result<(), NodeStop>
        requires { All IsOfOthers ops.now }
        ensures acts { Acts H.state (MayGive ops.now self.old.base.nodes) (Gave ops.now self.old.base.nodes result) (stop_in result) self.old.base self.new.base }
        ensures keeps { Acts H.state (MayKeepGiven ops.now) (KeepsGiven ops.now result) (stop_in result) self.old.base self.new.base }
        ensures nodes { OnOk result (multi_applied ops.now self.old.base.nodes.nodes ≡ Ok self.new.base.nodes.nodes) }
        ensures end { OnOk result (self.new.base.nodes.end ≡ self.old.base.nodes.end + 5 + length (spelled_multi ops.now)) }
        ensures name { self.new.base.nodes.name ≡ self.old.base.nodes.name }
        ensures logs { self.new.base.logs ≡ self.old.base.logs }
        ensures beside { SameBeside self.old self.new }
        ensures due { self.old.base.stopped ≡ None → (stop : Refusal) → IsDue ops.now self.old.base.nodes stop → AnswersOrNoMemory (Err stop) result }
        ensures refused { IfErr result (λ stop. IsRefusal stop → self.new ≡ self.old) }
        ensures untouched { IfErr result (λ stop. IsEarly stop → self.new.base.host ≡ self.old.base.host) }
        ensures station { IsTrue (H.state self.old.base.host).is_faithful → StationGiven H.state ops.now result self.old self.new }
        ensures stops { self.old.base.stopped ≡ None → IfErr result (λ stop. MultiCause ops.now self.old.base.nodes stop (H.state self.old.base.host) (H.state self.new.base.host)) }
    {
        self.base.check()?;
        self.base.multi(ops)
    }
}
