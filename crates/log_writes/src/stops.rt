// Stops of changes that are never refused.
ghost use Rattle.std.specs.Prelude.{◌≡◌};
ghost use Rattle.node_store.specs.declared.changes.NodeStop.TheVariants.{Stop as Stopped};
ghost use Rattle.node_store.specs.Answers.{IsRefusal};

use host_model::Stop;
use node_store::NodeStop;

/// Why changes of the nodes stopped that can't be refused.
pub fn own_stop(stop: NodeStop) -> Stop
    requires { IsRefusal stop → ⊥ }
    ensures { stop ≡ Stopped result }
{
    match stop {
        NodeStop::Stop(stop) => stop,
        NodeStop::Exists | NodeStop::Missing | NodeStop::Version(_) => unreachable!(),
    }
}
