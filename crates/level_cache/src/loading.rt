// Levels are read once.
ghost use Rattle.std.specs.Prelude.{◌≡◌, None, IfErr, IfOk, IsSome, IsTrue, OnOk};
ghost use Rattle.store_meaning.specs.Ground.{Ground as Known};
ghost use Rattle.store_meaning.specs.Levels.{Reading};
ghost use Rattle.state_reader.specs.declared.level.LevelKind.TheVariants.{Users};
ghost use Rattle.ground_store.specs.Acts.{Acts, stop_of};
ghost use Rattle.ground_store.specs.Steps.{Stays};
ghost use Rattle.hosted_memories.specs.Hosted.{memories_of};
ghost use Rattle.level_scan.specs.Levels.{IsNoDamage};
ghost use Rattle.level_cache.specs.Cached.{kept_level};
ghost use Rattle.level_cache.specs.Shown.{TellsLevel, ShowsLevels, HasRootMemory, HaveUpperMemories, HaveMemoriesDownTo};
ghost use Rattle.level_cache.specs.Causes.{MetadataStop, LevelsStop};

use crate::cache::LevelCache;
use crate::reading::read_metadata;
use ground_store::Ground;
use host_model::{Host, Stop};
use hosted_memories::HostedMemories;
use level_index::LevelIndex;
use level_scan::users_level;
use state_reader::LevelKind;
use std::alloc::Global;

impl LevelCache {
    /// Reads the level of the metadata table's tablets, if it hasn't been read.
    pub(crate) fn load_metadata<H: Host>(
        &mut self,
        alloc: Global,
        ground: &mut Ground<H>,
        memories: &HostedMemories,
    ) -> Result<(), Stop>
        ensures acts { Acts H.state Stays Stays (stop_of result) ground.old ground.new }
        ensures same { (ground.new.nodes ≡ ground.old.nodes) × (ground.new.logs ≡ ground.old.logs) }
        ensures there { OnOk result (IsSome self.new.metadata) }
        ensures users { self.new.users ≡ self.old.users }
        ensures keeps { IsTrue (H.state ground.old.host).is_faithful → (reading : Reading) (known : Known) → ShowsLevels (H.state ground.old.host).files self.old reading known
            → HasRootMemory known reading (memories_of memories.now) → ShowsLevels (H.state ground.new.host).files self.new reading known }
        ensures undamaged { ground.old.stopped ≡ None → IsTrue (H.state ground.old.host).is_faithful → (reading : Reading) (known : Known) → ShowsLevels (H.state ground.old.host).files self.old reading known
            → HasRootMemory known reading (memories_of memories.now) → IfErr result IsNoDamage }
        ensures stops { ground.old.stopped ≡ None → IfErr result (λ stop. MetadataStop ground.old.nodes.nodes (memories_of memories.now) stop (H.state ground.old.host) (H.state ground.new.host)) }
        ensures cached { IsSome self.old.metadata → (ground.new.host ≡ ground.old.host) × (self.new ≡ self.old) }
    {
        ground.check()?;
        if self.metadata.is_some() {
            return Ok(());
        }
        self.metadata = Some(read_metadata(alloc, ground, memories)?);
        Ok(())
    }

    /// Reads the level of all tables' tablets, and that above it, if it hasn't been read.
    fn read_users<H: Host>(
        &mut self,
        alloc: Global,
        ground: &mut Ground<H>,
        memories: &HostedMemories,
    ) -> Result<LevelIndex, Stop>
        ensures acts { Acts H.state Stays Stays (stop_of result) ground.old ground.new }
        ensures same { (ground.new.nodes ≡ ground.old.nodes) × (ground.new.logs ≡ ground.old.logs) }
        ensures users { self.new.users ≡ self.old.users }
        ensures told { IsTrue (H.state ground.old.host).is_faithful → (reading : Reading) (known : Known) → ShowsLevels (H.state ground.old.host).files self.old reading known
            → HaveUpperMemories known reading (memories_of memories.now) → IfOk result (TellsLevel Users reading.users) }
        ensures keeps { IsTrue (H.state ground.old.host).is_faithful → (reading : Reading) (known : Known) → ShowsLevels (H.state ground.old.host).files self.old reading known
            → HaveUpperMemories known reading (memories_of memories.now) → ShowsLevels (H.state ground.new.host).files self.new reading known }
        ensures undamaged { ground.old.stopped ≡ None → IsTrue (H.state ground.old.host).is_faithful → (reading : Reading) (known : Known) → ShowsLevels (H.state ground.old.host).files self.old reading known
            → HaveUpperMemories known reading (memories_of memories.now) → IfErr result IsNoDamage }
        ensures stops { ground.old.stopped ≡ None → IfErr result (λ stop. LevelsStop ground.old.nodes.nodes (memories_of memories.now) self.new stop (H.state ground.old.host) (H.state ground.new.host)) }
    {
        self.load_metadata(alloc, ground, memories)?;
        match &self.metadata {
            Some(metadata) => users_level(alloc, ground, metadata, memories),
            None => unreachable!(),
        }
    }

    /// Reads the level of all tables' tablets, and that above it, if it hasn't been read.
    pub(crate) fn load_users<H: Host>(
        &mut self,
        alloc: Global,
        ground: &mut Ground<H>,
        memories: &HostedMemories,
    ) -> Result<(), Stop>
        ensures acts { Acts H.state Stays Stays (stop_of result) ground.old ground.new }
        ensures same { (ground.new.nodes ≡ ground.old.nodes) × (ground.new.logs ≡ ground.old.logs) }
        ensures there { OnOk result (IsSome self.new.users) }
        ensures keeps { IsTrue (H.state ground.old.host).is_faithful → (reading : Reading) (known : Known) → ShowsLevels (H.state ground.old.host).files self.old reading known
            → HaveUpperMemories known reading (memories_of memories.now) → ShowsLevels (H.state ground.new.host).files self.new reading known }
        ensures undamaged { ground.old.stopped ≡ None → IsTrue (H.state ground.old.host).is_faithful → (reading : Reading) (known : Known) → ShowsLevels (H.state ground.old.host).files self.old reading known
            → HaveUpperMemories known reading (memories_of memories.now) → IfErr result IsNoDamage }
        ensures stops { ground.old.stopped ≡ None → IfErr result (λ stop. LevelsStop ground.old.nodes.nodes (memories_of memories.now) self.new stop (H.state ground.old.host) (H.state ground.new.host)) }
        ensures cached { IsSome self.old.users → (ground.new.host ≡ ground.old.host) × (self.new ≡ self.old) }
    {
        ground.check()?;
        if self.users.is_some() {
            return Ok(());
        }
        self.users = Some(self.read_users(alloc, ground, memories)?);
        Ok(())
    }

    /// Reads the level of this kind, and that above it, unless it was read before: then the host isn't asked. Over an image that is
    /// read so, and memories that are those of the tablets whose cells are read, what has been read is of that reading still, at `Ok`
    /// and at `Err`, and nothing is damaged.
    ///
    /// `Damaged` names the file of the nodes, where they have no record of the root tablet; or what `metadata_level` or `users_level`
    /// blames. Each other stop is a fault of the host, which is counted, or want of memory. The ground keeps a stop; one that has
    /// stopped answers it again and is asked nothing. Nothing changes. Two calls of the host a file; takes memory for the cells, and
    /// time n log n for n of them.
    pub fn load<H: Host>(
        &mut self,
        alloc: Global,
        ground: &mut Ground<H>,
        memories: &HostedMemories,
        kind: LevelKind,
    ) -> Result<(), Stop>
        ensures acts { Acts H.state Stays Stays (stop_of result) ground.old ground.new }
        ensures same { (ground.new.nodes ≡ ground.old.nodes) × (ground.new.logs ≡ ground.old.logs) }
        ensures there { OnOk result (IsSome (kept_level kind self.new)) }
        ensures keeps { IsTrue (H.state ground.old.host).is_faithful → (reading : Reading) (known : Known) → ShowsLevels (H.state ground.old.host).files self.old reading known
            → HaveMemoriesDownTo kind known reading (memories_of memories.now) → ShowsLevels (H.state ground.new.host).files self.new reading known }
        ensures undamaged { ground.old.stopped ≡ None → IsTrue (H.state ground.old.host).is_faithful → (reading : Reading) (known : Known) → ShowsLevels (H.state ground.old.host).files self.old reading known
            → HaveMemoriesDownTo kind known reading (memories_of memories.now) → IfErr result IsNoDamage }
        ensures stops { ground.old.stopped ≡ None → IfErr result (λ stop. LevelsStop ground.old.nodes.nodes (memories_of memories.now) self.new stop (H.state ground.old.host) (H.state ground.new.host)) }
        ensures cached { IsSome (kept_level kind self.old) → (ground.new.host ≡ ground.old.host) × (self.new ≡ self.old) }
    {
        match kind {
            LevelKind::Metadata => self.load_metadata(alloc, ground, memories),
            LevelKind::Users => self.load_users(alloc, ground, memories),
        }
    }
}
