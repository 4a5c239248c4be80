// The records of a table of any level.
ghost use Rattle.std.specs.Prelude.{◌≡◌, [], ◌∷◌, None, All, IfErr, IfOk, IfSome, IsSome, IsTrue};
ghost use Rattle.store_meaning.specs.Ground.{Ground as Known, IsGroundOf};
ghost use Rattle.store_meaning.specs.Levels.{Reading, IsRecordAt, IsReadingOf, root_id};
ghost use Rattle.ground_store.specs.Acts.{Acts, stop_of};
ghost use Rattle.ground_store.specs.Steps.{Stays};
ghost use Rattle.hosted_memories.specs.Hosted.{memories_of};
ghost use Rattle.level_index.specs.Entries.{level_of};
ghost use Rattle.level_index.specs.Lists.{AreRecordsOf};
ghost use Rattle.level_scan.specs.Causes.{RootStop};
ghost use Rattle.level_scan.specs.Levels.{IsNoDamage};
ghost use Rattle.level_cache.specs.Cached.{kept_level};
ghost use Rattle.level_cache.specs.Shown.{level_in, ShowsLevels, HaveMemoriesDownTo};
ghost use Rattle.level_cache.specs.Tables.{rows_in, AreRecordsAt, HaveMemoriesOver};
ghost use Rattle.level_cache.specs.Causes.{LevelsStop};

use crate::cache::LevelCache;
use crate::root::root_tablet;
use crate::tables::level_with;
use ground_store::Ground;
use host_model::{Host, Stop};
use hosted_memories::HostedMemories;
use metadata_schema::TabletRecord;
use row_keys::TableId;
use state_reader::LevelKind;
use std::alloc::{AllocError, Global};

/// A list of this record alone.
fn list_of(alloc: Global, tablet: TabletRecord) -> Result<Vec<TabletRecord>, AllocError>
    ensures { IfOk result (λ records. records.items ≡ tablet ∷ []) }
{
    let mut records = Vec::new(alloc);
    records.push(tablet)?;
    Ok(records)
}

/// The records of `+r`: that of the root tablet alone.
pub fn root_records<H: Host>(
    alloc: Global,
    ground: &mut Ground<H>,
) -> Result<Vec<TabletRecord>, Stop>
    ensures acts { Acts H.state Stays Stays (stop_of result) ground.old ground.new }
    ensures host { ground.new.host ≡ ground.old.host }
    ensures same { (ground.new.nodes ≡ ground.old.nodes) × (ground.new.logs ≡ ground.old.logs) }
    ensures told { IsTrue (H.state ground.old.host).is_faithful → (reading : Reading) (known : Known) → IsGroundOf (H.state ground.old.host).files known → IsReadingOf known reading
        → IfOk result (λ records. records.items ≡ reading.root ∷ []) }
    ensures forms { IfOk result (λ records. All (λ tablet. IsRecordAt root_id tablet.end tablet) records.items) }
    ensures undamaged { ground.old.stopped ≡ None → IsTrue (H.state ground.old.host).is_faithful → (reading : Reading) (known : Known) → IsGroundOf (H.state ground.old.host).files known → IsReadingOf known reading
        → IfErr result IsNoDamage }
    ensures stops { ground.old.stopped ≡ None → IfErr result (RootStop ground.old.nodes.nodes) }
{
    let root = root_tablet(alloc, ground)?;
    match list_of(alloc, root) {
        Ok(records) => Ok(records),
        Err(_) => Err(ground.stop(Stop::NoMemory)),
    }
}

impl LevelCache {
    /// Copies of the records that the level of this kind has of a table.
    fn copies_of(
        &self,
        alloc: Global,
        kind: LevelKind,
        table: &TableId,
    ) -> Result<Vec<TabletRecord>, AllocError>
        ensures listed { IfOk result (λ records. IfSome (kept_level kind self.now) (λ index. AreRecordsOf (level_of index) table.now records.items)) }
        ensures forms { IfOk result (λ records. All (λ tablet. IsRecordAt table.now tablet.end tablet) records.items) }
    {
        match self.level(kind) {
            Some(index) => index.records_of(alloc, table),
            None => Ok(Vec::new(alloc)),
        }
    }

    /// The records that the level of this kind has of a table.
    pub(crate) fn records_on<H: Host>(
        &mut self,
        alloc: Global,
        ground: &mut Ground<H>,
        memories: &HostedMemories,
        kind: LevelKind,
        table: &TableId,
    ) -> Result<Vec<TabletRecord>, Stop>
        ensures acts { Acts H.state Stays Stays (stop_of result) ground.old ground.new }
        ensures same { (ground.new.nodes ≡ ground.old.nodes) × (ground.new.logs ≡ ground.old.logs) }
        ensures told { IsTrue (H.state ground.old.host).is_faithful → (reading : Reading) (known : Known) → ShowsLevels (H.state ground.old.host).files self.old reading known
            → HaveMemoriesDownTo kind known reading (memories_of memories.now) → IfOk result (λ records. AreRecordsAt ((level_in reading kind).records table.now) records.items) }
        ensures keeps { IsTrue (H.state ground.old.host).is_faithful → (reading : Reading) (known : Known) → ShowsLevels (H.state ground.old.host).files self.old reading known
            → HaveMemoriesDownTo kind known reading (memories_of memories.now) → ShowsLevels (H.state ground.new.host).files self.new reading known }
        ensures undamaged { ground.old.stopped ≡ None → IsTrue (H.state ground.old.host).is_faithful → (reading : Reading) (known : Known) → ShowsLevels (H.state ground.old.host).files self.old reading known
            → HaveMemoriesDownTo kind known reading (memories_of memories.now) → IfErr result IsNoDamage }
        ensures forms { IfOk result (λ records. All (λ tablet. IsRecordAt table.now tablet.end tablet) records.items) }
        ensures stops { ground.old.stopped ≡ None → IfErr result (λ stop. LevelsStop ground.old.nodes.nodes (memories_of memories.now) self.new stop (H.state ground.old.host) (H.state ground.new.host)) }
        ensures cached { IsSome (kept_level kind self.old) → (ground.new.host ≡ ground.old.host) × (self.new ≡ self.old) }
    {
        self.load(alloc, ground, memories, kind)?;
        match self.copies_of(alloc, kind, table) {
            Ok(records) => Ok(records),
            Err(_) => Err(ground.stop(Stop::NoMemory)),
        }
    }

    /// The records of a table, of whatever level, in the order of their rows. Over an image that is read so, and memories that are those
    /// of the tablets above, they are the records of that reading. Levels that aren't there are read, as by `load`, and its stops come
    /// in the same way. Takes memory for copies of the records, and time with their number and the logarithm of the rows once the level
    /// is there.
    pub fn records<H: Host>(
        &mut self,
        alloc: Global,
        ground: &mut Ground<H>,
        memories: &HostedMemories,
        table: &TableId,
    ) -> Result<Vec<TabletRecord>, Stop>
        ensures acts { Acts H.state Stays Stays (stop_of result) ground.old ground.new }
        ensures same { (ground.new.nodes ≡ ground.old.nodes) × (ground.new.logs ≡ ground.old.logs) }
        ensures records { IsTrue (H.state ground.old.host).is_faithful → (reading : Reading) (known : Known) → ShowsLevels (H.state ground.old.host).files self.old reading known
            → HaveMemoriesOver table.now known reading (memories_of memories.now) → IfOk result (λ records. AreRecordsAt (rows_in reading table.now) records.items) }
        ensures keeps { IsTrue (H.state ground.old.host).is_faithful → (reading : Reading) (known : Known) → ShowsLevels (H.state ground.old.host).files self.old reading known
            → HaveMemoriesOver table.now known reading (memories_of memories.now) → ShowsLevels (H.state ground.new.host).files self.new reading known }
        ensures undamaged { ground.old.stopped ≡ None → IsTrue (H.state ground.old.host).is_faithful → (reading : Reading) (known : Known) → ShowsLevels (H.state ground.old.host).files self.old reading known
            → HaveMemoriesOver table.now known reading (memories_of memories.now) → IfErr result IsNoDamage }
        ensures forms { IfOk result (λ records. All (λ tablet. IsRecordAt table.now tablet.end tablet) records.items) }
        ensures stops { ground.old.stopped ≡ None → IfErr result (λ stop. LevelsStop ground.old.nodes.nodes (memories_of memories.now) self.new stop (H.state ground.old.host) (H.state ground.new.host)) }
        ensures cached { IsSome self.old.metadata → IsSome self.old.users → (ground.new.host ≡ ground.old.host) × (self.new ≡ self.old) }
    {
        match level_with(table) {
            Some(kind) => self.records_on(alloc, ground, memories, kind, table),
            None => root_records(alloc, ground),
        }
    }
}
