// The level of the metadata table's tablets, from its beginnings.
ghost use Rattle.std.specs.Prelude.{◌≡◌, None, IfErr, IfOk, IsTrue};
ghost use Rattle.store_meaning.specs.Ground.{Ground as Known, IsGroundOf};
ghost use Rattle.store_meaning.specs.Levels.{Reading, IsReadingOf};
ghost use Rattle.state_reader.specs.declared.level.LevelKind.TheVariants.{Metadata};
ghost use Rattle.ground_store.specs.Acts.{Acts, stop_of};
ghost use Rattle.ground_store.specs.Steps.{Stays};
ghost use Rattle.hosted_memories.specs.Hosted.{memories_of};
ghost use Rattle.level_scan.specs.Levels.{IsNoDamage};
ghost use Rattle.level_cache.specs.Shown.{TellsLevel, HasRootMemory};
ghost use Rattle.level_cache.specs.Causes.{MetadataStop};

use crate::root::root_tablet;
use ground_store::Ground;
use host_model::{Host, Stop};
use hosted_memories::HostedMemories;
use level_index::LevelIndex;
use level_scan::metadata_level;
use std::alloc::Global;

/// The records of the metadata table's tablets: what the root tablet of the nodes' record tells.
pub fn read_metadata<H: Host>(
    alloc: Global,
    ground: &mut Ground<H>,
    memories: &HostedMemories,
) -> Result<LevelIndex, Stop>
    ensures acts { Acts H.state Stays Stays (stop_of result) ground.old ground.new }
    ensures same { (ground.new.nodes ≡ ground.old.nodes) × (ground.new.logs ≡ ground.old.logs) }
    ensures told { IsTrue (H.state ground.old.host).is_faithful → (reading : Reading) (known : Known) → IsGroundOf (H.state ground.old.host).files known → IsReadingOf known reading
        → HasRootMemory known reading (memories_of memories.now) → IfOk result (TellsLevel Metadata reading.metadata) }
    ensures undamaged { ground.old.stopped ≡ None → IsTrue (H.state ground.old.host).is_faithful → (reading : Reading) (known : Known) → IsGroundOf (H.state ground.old.host).files known → IsReadingOf known reading
        → HasRootMemory known reading (memories_of memories.now) → IfErr result IsNoDamage }
    ensures stops { ground.old.stopped ≡ None → IfErr result (λ stop. MetadataStop ground.old.nodes.nodes (memories_of memories.now) stop (H.state ground.old.host) (H.state ground.new.host)) }
{
    let root = root_tablet(alloc, ground)?;
    metadata_level(alloc, ground, &root, memories)
}
