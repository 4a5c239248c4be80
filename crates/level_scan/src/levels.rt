// The two upper levels.
ghost use Rattle.std.specs.Prelude.{◌≡◌, [], ◌∷◌, List, None, All, IfErr, IfOk, IsErr, IsTrue, OnOk};
ghost use Rattle.metadata_schema.specs.declared.tablet.TabletRecord.{TabletRecord as Record};
ghost use Rattle.level_rows.specs.Chain.{rows_of, IsChain};
ghost use Rattle.level_rows.specs.Broken.{IsBroken};
ghost use Rattle.store_meaning.specs.Levels.{IsRecordAt, Reading, root_id};
ghost use Rattle.state_reader.specs.declared.level.LevelKind.TheVariants.{Metadata, Users};
ghost use Rattle.state_reader.specs.Reads.{alone};
ghost use Rattle.level_index.specs.Entries.{level_of};
ghost use Rattle.ground_store.specs.Acts.{Acts, stop_of};
ghost use Rattle.ground_store.specs.Steps.{Stays};
ghost use Rattle.hosted_memories.specs.Hosted.{memories_of};
ghost use Rattle.level_scan.specs.Tablets.{AreHosted};
ghost use Rattle.level_scan.specs.Reads.{IsReadOf, LacksMemory, IsAmiss};
ghost use Rattle.level_scan.specs.Causes.{LevelStop, UsersStop};
ghost use Rattle.level_scan.specs.Levels.{own_rows, IsUsersRead, AreUsersAmiss, ShowsMetadata, ShowsUsers, IsNoDamage};

use crate::cells::chain_cells;
use crate::index::index_of;
use crate::stopping::stop_ground;
use crate::tablets::{TableTablets, metadata_tablets, root_alone};
use ground_store::Ground;
use host_model::{Host, Stop};
use hosted_memories::HostedMemories;
use level_index::LevelIndex;
use metadata_schema::TabletRecord;
use state_reader::LevelKind;
use std::alloc::Global;

/// The level of this kind that the tablets of a chain tell.
fn chain_level<H: Host>(
    alloc: Global,
    ground: &mut Ground<H>,
    kind: LevelKind,
    tablets: &TableTablets,
    memories: &HostedMemories,
) -> Result<LevelIndex, Stop>
    requires { All (λ tablet. IsRecordAt tablets.now.table tablet.end tablet) tablets.now.chain }
    ensures acts { Acts H.state Stays Stays (stop_of result) ground.old ground.new }
    ensures same { (ground.new.nodes ≡ ground.old.nodes) × (ground.new.logs ≡ ground.old.logs) }
    ensures kind { IfOk result (λ index. index.kind ≡ kind) }
    ensures reads { IsTrue (H.state ground.old.host).is_faithful
        → IfOk result (IsReadOf (H.state ground.old.host).files (rows_of tablets.now.table tablets.now.records) (memories_of memories.now) tablets.now.chain kind) }
    ensures hosted { OnOk result (AreHosted (memories_of memories.now) tablets.now.chain) }
    ensures stops { ground.old.stopped ≡ None
        → IfErr result (λ stop. LevelStop (rows_of tablets.now.table tablets.now.records) (memories_of memories.now) tablets.now.chain kind stop (H.state ground.old.host) (H.state ground.new.host)) }
{
    let cells = chain_cells(
        alloc,
        ground,
        &tablets.table,
        tablets.records.as_slice(),
        tablets.chain.as_slice(),
        memories,
    )?;
    match index_of(alloc, kind, &cells) {
        Ok(index) => Ok(index),
        Err(fault) => Err(stop_ground(alloc, ground, fault)),
    }
}

/// The records of the metadata table's tablets, with the paths and flags beside them: what the cells of the root tablet tell, which
/// are those of its files and of its memory. Over an image that is read so, whose root record this is and of whose root tablet this
/// is the memory, it is the level of that reading.
///
/// `Damaged` names the first file of the tablet that isn't there or isn't of its grammar; or the file of the nodes, where the root
/// tablet has no memory, or its cells tell of no level. Each other stop is a fault of the host, which is counted, or want of memory.
/// The ground keeps a stop; one that has stopped answers it again and is asked nothing. Nothing changes. Two calls of the host a
/// file; takes memory for the cells, and time n log n for n of them.
pub fn metadata_level<H: Host>(
    alloc: Global,
    ground: &mut Ground<H>,
    root: &TabletRecord,
    memories: &HostedMemories,
) -> Result<LevelIndex, Stop>
    requires { IsRecordAt root_id None root.now }
    ensures acts { Acts H.state Stays Stays (stop_of result) ground.old ground.new }
    ensures same { (ground.new.nodes ≡ ground.old.nodes) × (ground.new.logs ≡ ground.old.logs) }
    ensures kind { IfOk result (λ index. index.kind ≡ Metadata) }
    ensures reads { IsTrue (H.state ground.old.host).is_faithful
        → IfOk result (IsReadOf (H.state ground.old.host).files (alone root.now) (memories_of memories.now) (root.now ∷ []) Metadata) }
    ensures level { IsTrue (H.state ground.old.host).is_faithful → (reading : Reading) → ShowsMetadata (H.state ground.old.host).files (memories_of memories.now) root.now reading
        → IfOk result (λ index. level_of index ≡ reading.metadata) }
    ensures undamaged { ground.old.stopped ≡ None → IsTrue (H.state ground.old.host).is_faithful → (reading : Reading)
        → ShowsMetadata (H.state ground.old.host).files (memories_of memories.now) root.now reading → IfErr result IsNoDamage }
    ensures amiss { IsTrue (H.state ground.old.host).is_faithful → IsAmiss (H.state ground.old.host).files (alone root.now) (memories_of memories.now) (root.now ∷ []) Metadata → IsErr result }
    ensures lacks { LacksMemory (memories_of memories.now) (root.now ∷ []) → IsErr result }
    ensures stops { ground.old.stopped ≡ None
        → IfErr result (λ stop. LevelStop (alone root.now) (memories_of memories.now) (root.now ∷ []) Metadata stop (H.state ground.old.host) (H.state ground.new.host)) }
{
    ground.check()?;
    match root_alone(alloc, root) {
        Ok(tablets) => chain_level(alloc, ground, LevelKind::Metadata, &tablets, memories),
        Err(_) => Err(ground.stop(Stop::NoMemory)),
    }
}

/// The records of all tables' tablets, with the paths and flags beside them: what the cells of the metadata table's tablets tell,
/// one tablet's behind the other's from the last one down, each tablet's of its files and of its memory. Over an image that is read
/// so, whose level of the metadata table's tablets this is, and of whose metadata tablets these are the memories, it is the level of
/// that reading.
///
/// `Damaged` names the first file of these tablets that isn't there or isn't of its grammar; or the file of the nodes, where the
/// records of `!0` make up no chain, one of its tablets has no memory, or the cells tell of no level. Each other stop is a fault of
/// the host, which is counted, or want of memory. The ground keeps a stop; one that has stopped answers it again and is asked
/// nothing. Nothing changes. Two calls of the host a file; takes memory for the cells, and time n log n for n of them.
pub fn users_level<H: Host>(
    alloc: Global,
    ground: &mut Ground<H>,
    metadata: &LevelIndex,
    memories: &HostedMemories,
) -> Result<LevelIndex, Stop>
    ensures acts { Acts H.state Stays Stays (stop_of result) ground.old ground.new }
    ensures same { (ground.new.nodes ≡ ground.old.nodes) × (ground.new.logs ≡ ground.old.logs) }
    ensures kind { IfOk result (λ index. index.kind ≡ Users) }
    ensures reads { IsTrue (H.state ground.old.host).is_faithful → IfOk result (IsUsersRead (H.state ground.old.host).files (memories_of memories.now) (level_of metadata.now)) }
    ensures level { IsTrue (H.state ground.old.host).is_faithful → (reading : Reading) → ShowsUsers (H.state ground.old.host).files (memories_of memories.now) (level_of metadata.now) reading
        → IfOk result (λ index. level_of index ≡ reading.users) }
    ensures undamaged { ground.old.stopped ≡ None → IsTrue (H.state ground.old.host).is_faithful → (reading : Reading)
        → ShowsUsers (H.state ground.old.host).files (memories_of memories.now) (level_of metadata.now) reading → IfErr result IsNoDamage }
    ensures amiss { IsTrue (H.state ground.old.host).is_faithful → AreUsersAmiss (H.state ground.old.host).files (memories_of memories.now) (level_of metadata.now) → IsErr result }
    ensures lacks { (chain : List Record) → IsChain (own_rows (level_of metadata.now)) chain → LacksMemory (memories_of memories.now) chain → IsErr result }
    ensures broken { IsBroken (own_rows (level_of metadata.now)) → IsErr result }
    ensures stops { ground.old.stopped ≡ None
        → IfErr result (λ stop. UsersStop (own_rows (level_of metadata.now)) (memories_of memories.now) stop (H.state ground.old.host) (H.state ground.new.host)) }
{
    ground.check()?;
    match metadata_tablets(alloc, metadata) {
        Ok(tablets) => chain_level(alloc, ground, LevelKind::Users, &tablets, memories),
        Err(fault) => Err(stop_ground(alloc, ground, fault)),
    }
}
