// Stops for what is wrong with the nodes.
ghost use Rattle.std.specs.Prelude.{◌≡◌, None, Some};
ghost use Rattle.ground_store.specs.Acts.{Acts};
ghost use Rattle.ground_store.specs.Drawing.{IsOwn};
ghost use Rattle.ground_store.specs.Steps.{Stays};
ghost use Rattle.level_scan.specs.Causes.{IsStopFor};

use crate::nodes_fault::NodesFault;
use ground_store::Ground;
use host_model::{Host, Stop};
use std::alloc::Global;
use store_layout::nodes_name;

/// Damage to the file of the nodes, or want of memory.
pub fn stop_for(alloc: Global, fault: NodesFault) -> Stop
    ensures is { IsStopFor fault result }
    ensures own { IsOwn result }
{
    match fault {
        NodesFault::Damaged => match nodes_name(alloc) {
            Ok(name) => Stop::Damaged(name),
            Err(_) => Stop::NoMemory,
        },
        NodesFault::NoMemory => Stop::NoMemory,
    }
}

/// Stops the ground for this fault, and answers the stop.
pub fn stop_ground<H: Host>(alloc: Global, ground: &mut Ground<H>, fault: NodesFault) -> Stop
    requires { ground.old.stopped ≡ None }
    ensures acts { Acts H.state Stays Stays (Some result) ground.old ground.new }
    ensures host { ground.new.host ≡ ground.old.host }
    ensures same { (ground.new.nodes ≡ ground.old.nodes) × (ground.new.logs ≡ ground.old.logs) }
    ensures is { IsStopFor fault result }
{
    ground.stop(stop_for(alloc, fault))
}
