// The record at a row of any level.
ghost use Rattle.std.specs.Prelude.{◌≡◌, ℕ, List, [], ◌∷◌, Option, None, IfErr, IfOk, IsSome, IsTrue};
ghost use Rattle.std.specs.Option.{option_copied, option_and_then};
ghost use Rattle.row_keys.specs.MetadataRow.{IsMetadataRow};
ghost use Rattle.store_meaning.specs.Ground.{Ground as Known, IsGroundOf};
ghost use Rattle.store_meaning.specs.Levels.{Reading, IsReadingOf, root_rows};
ghost use Rattle.ground_store.specs.Acts.{Acts, stop_of};
ghost use Rattle.ground_store.specs.Steps.{Stays};
ghost use Rattle.hosted_memories.specs.Hosted.{memories_of};
ghost use Rattle.level_index.specs.Entries.{level_of};
ghost use Rattle.level_scan.specs.Causes.{RootStop};
ghost use Rattle.level_scan.specs.Levels.{IsNoDamage};
ghost use Rattle.level_cache.specs.Cached.{kept_level};
ghost use Rattle.level_cache.specs.Shown.{level_in, ShowsLevels, HaveMemoriesDownTo};
ghost use Rattle.level_cache.specs.Tables.{level_with, rows_in, IsFoundIn, HaveMemoriesOver, HaveMemoriesAbove};
ghost use Rattle.level_cache.specs.Causes.{LevelsStop};

use crate::cache::LevelCache;
use crate::root::root_tablet;
use crate::tables::level_with;
use ground_store::Ground;
use host_model::{Host, Stop};
use hosted_memories::HostedMemories;
use metadata_schema::TabletRecord;
use row_keys::{Row, TableId};
use state_reader::{LevelKind, tablet_at};
use std::alloc::{AllocError, Global};

/// The record of `+r` with this end row: the root tablet has none.
fn root_at<H: Host>(
    alloc: Global,
    ground: &mut Ground<H>,
    end: Option<&Row>,
) -> Result<Option<TabletRecord>, Stop>
    ensures acts { Acts H.state Stays Stays (stop_of result) ground.old ground.new }
    ensures host { ground.new.host ≡ ground.old.host }
    ensures same { (ground.new.nodes ≡ ground.old.nodes) × (ground.new.logs ≡ ground.old.logs) }
    ensures told { IsTrue (H.state ground.old.host).is_faithful → (reading : Reading) (known : Known) → IsGroundOf (H.state ground.old.host).files known → IsReadingOf known reading
        → IfOk result (λ found. found ≡ root_rows reading (option_copied end.entry)) }
    ensures undamaged { ground.old.stopped ≡ None → IsTrue (H.state ground.old.host).is_faithful → (reading : Reading) (known : Known) → IsGroundOf (H.state ground.old.host).files known → IsReadingOf known reading
        → IfErr result IsNoDamage }
    ensures stops { ground.old.stopped ≡ None → IfErr result (RootStop ground.old.nodes.nodes) }
{
    let root = root_tablet(alloc, ground)?;
    match end {
        None => Ok(Some(root)),
        Some(_) => Ok(None),
    }
}

impl LevelCache {
    /// A copy of the record that the level of this kind has at the row.
    fn copy_at(
        &self,
        alloc: Global,
        kind: LevelKind,
        row: &Row,
    ) -> Result<Option<TabletRecord>, AllocError>
        ensures { (table : List ℕ) (end : Option (List ℕ)) → IsMetadataRow table end row.now
            → IfOk result (λ found. found ≡ option_and_then (λ index. (level_of index).records table end) (kept_level kind self.now)) }
    {
        let Some(index) = self.level(kind) else {
            return Ok(None);
        };
        match index.record(row) {
            Some(tablet) => Ok(Some(tablet.copy(alloc)?)),
            None => Ok(None),
        }
    }

    /// The record that the level of this kind has at the row.
    fn row_on<H: Host>(
        &mut self,
        alloc: Global,
        ground: &mut Ground<H>,
        memories: &HostedMemories,
        kind: LevelKind,
        row: &Row,
    ) -> Result<Option<TabletRecord>, Stop>
        ensures acts { Acts H.state Stays Stays (stop_of result) ground.old ground.new }
        ensures same { (ground.new.nodes ≡ ground.old.nodes) × (ground.new.logs ≡ ground.old.logs) }
        ensures told { IsTrue (H.state ground.old.host).is_faithful → (reading : Reading) (known : Known) → ShowsLevels (H.state ground.old.host).files self.old reading known
            → HaveMemoriesDownTo kind known reading (memories_of memories.now)
            → IfOk result (λ found. (table : List ℕ) (end : Option (List ℕ)) → IsMetadataRow table end row.now → found ≡ (level_in reading kind).records table end) }
        ensures keeps { IsTrue (H.state ground.old.host).is_faithful → (reading : Reading) (known : Known) → ShowsLevels (H.state ground.old.host).files self.old reading known
            → HaveMemoriesDownTo kind known reading (memories_of memories.now) → ShowsLevels (H.state ground.new.host).files self.new reading known }
        ensures undamaged { ground.old.stopped ≡ None → IsTrue (H.state ground.old.host).is_faithful → (reading : Reading) (known : Known) → ShowsLevels (H.state ground.old.host).files self.old reading known
            → HaveMemoriesDownTo kind known reading (memories_of memories.now) → IfErr result IsNoDamage }
        ensures stops { ground.old.stopped ≡ None → IfErr result (λ stop. LevelsStop ground.old.nodes.nodes (memories_of memories.now) self.new stop (H.state ground.old.host) (H.state ground.new.host)) }
        ensures cached { IsSome (kept_level kind self.old) → (ground.new.host ≡ ground.old.host) × (self.new ≡ self.old) }
    {
        self.load(alloc, ground, memories, kind)?;
        match self.copy_at(alloc, kind, row) {
            Ok(found) => Ok(found),
            Err(_) => Err(ground.stop(Stop::NoMemory)),
        }
    }

    /// The record of this table and end row, which stands at this row.
    fn row_of<H: Host>(
        &mut self,
        alloc: Global,
        ground: &mut Ground<H>,
        memories: &HostedMemories,
        named: (&TableId, Option<&Row>),
        row: &Row,
    ) -> Result<Option<TabletRecord>, Stop>
        requires { IsMetadataRow named.0.now (option_copied named.1) row.now }
        ensures acts { Acts H.state Stays Stays (stop_of result) ground.old ground.new }
        ensures same { (ground.new.nodes ≡ ground.old.nodes) × (ground.new.logs ≡ ground.old.logs) }
        ensures told { IsTrue (H.state ground.old.host).is_faithful → (reading : Reading) (known : Known) → ShowsLevels (H.state ground.old.host).files self.old reading known
            → HaveMemoriesOver named.entry.0.now known reading (memories_of memories.now) → IfOk result (λ found. found ≡ rows_in reading named.entry.0.now (option_copied named.entry.1)) }
        ensures keeps { IsTrue (H.state ground.old.host).is_faithful → (reading : Reading) (known : Known) → ShowsLevels (H.state ground.old.host).files self.old reading known
            → HaveMemoriesOver named.entry.0.now known reading (memories_of memories.now) → ShowsLevels (H.state ground.new.host).files self.new reading known }
        ensures undamaged { ground.old.stopped ≡ None → IsTrue (H.state ground.old.host).is_faithful → (reading : Reading) (known : Known) → ShowsLevels (H.state ground.old.host).files self.old reading known
            → HaveMemoriesOver named.entry.0.now known reading (memories_of memories.now) → IfErr result IsNoDamage }
        ensures stops { ground.old.stopped ≡ None → IfErr result (λ stop. LevelsStop ground.old.nodes.nodes (memories_of memories.now) self.new stop (H.state ground.old.host) (H.state ground.new.host)) }
        ensures cached { IsSome self.old.metadata → IsSome self.old.users → (ground.new.host ≡ ground.old.host) × (self.new ≡ self.old) }
    {
        match level_with(named.0) {
            Some(kind) => self.row_on(alloc, ground, memories, kind, row),
            None => root_at(alloc, ground, named.1),
        }
    }

    /// The record that stands at a tablet's row, of whatever level, or none where there is none or the row is no tablet's. Over an image
    /// that is read so, and memories that are those of the tablets above, it is the record of that reading. Levels that aren't there
    /// are read, as by `load`, and its stops come in the same way. Takes memory for a copy of the record, and time with the logarithm
    /// of the rows once the level is there.
    pub fn row<H: Host>(
        &mut self,
        alloc: Global,
        ground: &mut Ground<H>,
        memories: &HostedMemories,
        row: &Row,
    ) -> Result<Option<TabletRecord>, Stop>
        ensures acts { Acts H.state Stays Stays (stop_of result) ground.old ground.new }
        ensures same { (ground.new.nodes ≡ ground.old.nodes) × (ground.new.logs ≡ ground.old.logs) }
        ensures row { IsTrue (H.state ground.old.host).is_faithful → (reading : Reading) (known : Known) → ShowsLevels (H.state ground.old.host).files self.old reading known
            → HaveMemoriesAbove row.now known reading (memories_of memories.now) → IfOk result (IsFoundIn reading row.now) }
        ensures keeps { IsTrue (H.state ground.old.host).is_faithful → (reading : Reading) (known : Known) → ShowsLevels (H.state ground.old.host).files self.old reading known
            → HaveMemoriesAbove row.now known reading (memories_of memories.now) → ShowsLevels (H.state ground.new.host).files self.new reading known }
        ensures undamaged { ground.old.stopped ≡ None → IsTrue (H.state ground.old.host).is_faithful → (reading : Reading) (known : Known) → ShowsLevels (H.state ground.old.host).files self.old reading known
            → HaveMemoriesAbove row.now known reading (memories_of memories.now) → IfErr result IsNoDamage }
        ensures stops { ground.old.stopped ≡ None → IfErr result (λ stop. LevelsStop ground.old.nodes.nodes (memories_of memories.now) self.new stop (H.state ground.old.host) (H.state ground.new.host)) }
        ensures cached { IsSome self.old.metadata → IsSome self.old.users → (ground.new.host ≡ ground.old.host) × (self.new ≡ self.old) }
    {
        ground.check()?;
        let found = match tablet_at(alloc, row) {
            Ok(found) => found,
            Err(_) => return Err(ground.stop(Stop::NoMemory)),
        };
        match found {
            Some((table, end)) => {
                self.row_of(alloc, ground, memories, (&table, end.as_ref()), row)
            }
            None => Ok(None),
        }
    }
}
