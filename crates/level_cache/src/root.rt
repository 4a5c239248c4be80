// The record of the root tablet.
ghost use Rattle.std.specs.Prelude.{◌≡◌, None, IfErr, IfOk, IsTrue};
ghost use Rattle.store_meaning.specs.Ground.{Ground as Known, IsGroundOf};
ghost use Rattle.store_meaning.specs.Levels.{Reading, IsRootRecord, IsReadingOf};
ghost use Rattle.ground_store.specs.Acts.{Acts, stop_of};
ghost use Rattle.ground_store.specs.Steps.{Stays};
ghost use Rattle.level_scan.specs.Causes.{RootStop};
ghost use Rattle.level_scan.specs.Levels.{IsNoDamage};

use ground_store::Ground;
use host_model::{Host, Stop};
use level_scan::root_of_nodes;
use metadata_schema::TabletRecord;
use std::alloc::Global;

/// The record of the root tablet, which the nodes have. The host isn't asked.
pub fn root_tablet<H: Host>(alloc: Global, ground: &mut Ground<H>) -> Result<TabletRecord, Stop>
    ensures acts { Acts H.state Stays Stays (stop_of result) ground.old ground.new }
    ensures host { ground.new.host ≡ ground.old.host }
    ensures same { (ground.new.nodes ≡ ground.old.nodes) × (ground.new.logs ≡ ground.old.logs) }
    ensures root { IfOk result (IsRootRecord ground.old.nodes.nodes) }
    ensures told { IsTrue (H.state ground.old.host).is_faithful → (reading : Reading) (known : Known) → IsGroundOf (H.state ground.old.host).files known → IsReadingOf known reading
        → IfOk result (λ root. root ≡ reading.root) }
    ensures undamaged { ground.old.stopped ≡ None → IsTrue (H.state ground.old.host).is_faithful → (reading : Reading) (known : Known) → IsGroundOf (H.state ground.old.host).files known → IsReadingOf known reading
        → IfErr result IsNoDamage }
    ensures stops { ground.old.stopped ≡ None → IfErr result (RootStop ground.old.nodes.nodes) }
{
    ground.check()?;
    match root_of_nodes(alloc, ground.nodes()) {
        Ok(root) => Ok(root),
        Err(stop) => Err(ground.stop(stop)),
    }
}
