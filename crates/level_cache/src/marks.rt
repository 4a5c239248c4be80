// The candidates and flags of all levels.
ghost use Rattle.std.specs.Prelude.{◌≡◌, None, IfErr, IfOk, IfSome, IsSome, IsTrue, OnOk};
ghost use Rattle.host_model.specs.Picture.{Image};
ghost use Rattle.store_meaning.specs.Ground.{Ground as Known};
ghost use Rattle.store_meaning.specs.Levels.{Reading};
ghost use Rattle.ground_store.specs.Acts.{Acts, stop_of};
ghost use Rattle.ground_store.specs.Steps.{Stays};
ghost use Rattle.hosted_memories.specs.Hosted.{memories_of};
ghost use Rattle.level_index.specs.Entries.{level_of};
ghost use Rattle.level_index.specs.Lists.{AreCandidatesOf, AreFlagsOf};
ghost use Rattle.level_scan.specs.Levels.{IsNoDamage};
ghost use Rattle.level_cache.specs.Cached.{kept_level};
ghost use Rattle.level_cache.specs.Shown.{ShowsLevels, HaveUpperMemories};
ghost use Rattle.level_cache.specs.Causes.{LevelsStop};
ghost use Rattle.level_cache.specs.Marks.{AreCandidatesIn, AreFlagsIn};

use crate::cache::LevelCache;
use crate::joining::{joined_flags, joined_paths};
use crate::listed::listed_files;
use ground_store::Ground;
use host_model::{Host, Stop};
use hosted_memories::HostedMemories;
use node_store::NodeStore;
use row_keys::Path;
use state_reader::{LevelKind, LoadFlag};
use std::alloc::{AllocError, Global};

impl LevelCache {
    /// Reads both levels, if they haven't been read.
    fn load_both<H: Host>(
        &mut self,
        alloc: Global,
        ground: &mut Ground<H>,
        memories: &HostedMemories,
    ) -> Result<(), Stop>
        ensures acts { Acts H.state Stays Stays (stop_of result) ground.old ground.new }
        ensures same { (ground.new.nodes ≡ ground.old.nodes) × (ground.new.logs ≡ ground.old.logs) }
        ensures metadata { OnOk result (IsSome self.new.metadata) }
        ensures users { OnOk result (IsSome self.new.users) }
        ensures keeps { IsTrue (H.state ground.old.host).is_faithful → (reading : Reading) (known : Known) → ShowsLevels (H.state ground.old.host).files self.old reading known
            → HaveUpperMemories known reading (memories_of memories.now) → ShowsLevels (H.state ground.new.host).files self.new reading known }
        ensures undamaged { ground.old.stopped ≡ None → IsTrue (H.state ground.old.host).is_faithful → (reading : Reading) (known : Known) → ShowsLevels (H.state ground.old.host).files self.old reading known
            → HaveUpperMemories known reading (memories_of memories.now) → IfErr result IsNoDamage }
        ensures stops { ground.old.stopped ≡ None → IfErr result (λ stop. LevelsStop ground.old.nodes.nodes (memories_of memories.now) self.new stop (H.state ground.old.host) (H.state ground.new.host)) }
        ensures cached { IsSome self.old.metadata → IsSome self.old.users → (ground.new.host ≡ ground.old.host) × (self.new ≡ self.old) }
    {
        self.load_users(alloc, ground, memories)?;
        self.load_metadata(alloc, ground, memories)
    }

    /// The candidates of the level of this kind.
    fn candidates_of(&self, alloc: Global, kind: LevelKind) -> Result<Vec<Path>, AllocError>
        ensures { IfOk result (λ paths. IfSome (kept_level kind self.now) (λ index. AreCandidatesOf (level_of index) paths.items)) }
    {
        match self.level(kind) {
            Some(index) => index.candidates(alloc),
            None => Ok(Vec::new(alloc)),
        }
    }

    /// The flags of the level of this kind.
    fn flags_of(&self, alloc: Global, kind: LevelKind) -> Result<Vec<LoadFlag>, AllocError>
        ensures { IfOk result (λ flags. IfSome (kept_level kind self.now) (λ index. AreFlagsOf (level_of index) flags.items)) }
    {
        match self.level(kind) {
            Some(index) => index.flags(alloc),
            None => Ok(Vec::new(alloc)),
        }
    }

    /// The candidates of the nodes and of both levels.
    fn all_candidates(&self, alloc: Global, nodes: &NodeStore) -> Result<Vec<Path>, AllocError>
        ensures { IfOk result (λ paths. IsSome self.now.metadata → IsSome self.now.users → (image : Image) (reading : Reading) (known : Known)
            → ShowsLevels image self.now reading known → AreCandidatesIn nodes.now.nodes reading paths.items) }
    {
        let listed = listed_files(alloc, nodes)?;
        let upper = self.candidates_of(alloc, LevelKind::Metadata)?;
        let lower = self.candidates_of(alloc, LevelKind::Users)?;
        joined_paths(joined_paths(listed, upper)?, lower)
    }

    /// The flags of both levels.
    fn all_flags(&self, alloc: Global) -> Result<Vec<LoadFlag>, AllocError>
        ensures { IfOk result (λ flags. IsSome self.now.metadata → IsSome self.now.users → (image : Image) (reading : Reading) (known : Known)
            → ShowsLevels image self.now reading known → AreFlagsIn reading flags.items) }
    {
        let upper = self.flags_of(alloc, LevelKind::Metadata)?;
        let lower = self.flags_of(alloc, LevelKind::Users)?;
        joined_flags(upper, lower)
    }

    /// The paths of all files that are to be deleted, each once, in their order: those of both levels, and those that nodes name. Over an
    /// image that is read so, and memories that are those of the root tablet and the metadata table's tablets, they are those of that
    /// reading. Levels that aren't there are read, as by `load`, and its stops come in the same way. Takes memory for copies of the
    /// paths, and time n log n for n of them once the levels are there.
    pub fn candidates<H: Host>(
        &mut self,
        alloc: Global,
        ground: &mut Ground<H>,
        memories: &HostedMemories,
    ) -> Result<Vec<Path>, Stop>
        ensures acts { Acts H.state Stays Stays (stop_of result) ground.old ground.new }
        ensures same { (ground.new.nodes ≡ ground.old.nodes) × (ground.new.logs ≡ ground.old.logs) }
        ensures candidates { IsTrue (H.state ground.old.host).is_faithful → (reading : Reading) (known : Known) → ShowsLevels (H.state ground.old.host).files self.old reading known
            → HaveUpperMemories known reading (memories_of memories.now) → IfOk result (λ paths. AreCandidatesIn ground.old.nodes.nodes reading paths.items) }
        ensures keeps { IsTrue (H.state ground.old.host).is_faithful → (reading : Reading) (known : Known) → ShowsLevels (H.state ground.old.host).files self.old reading known
            → HaveUpperMemories known reading (memories_of memories.now) → ShowsLevels (H.state ground.new.host).files self.new reading known }
        ensures undamaged { ground.old.stopped ≡ None → IsTrue (H.state ground.old.host).is_faithful → (reading : Reading) (known : Known) → ShowsLevels (H.state ground.old.host).files self.old reading known
            → HaveUpperMemories known reading (memories_of memories.now) → IfErr result IsNoDamage }
        ensures stops { ground.old.stopped ≡ None → IfErr result (λ stop. LevelsStop ground.old.nodes.nodes (memories_of memories.now) self.new stop (H.state ground.old.host) (H.state ground.new.host)) }
        ensures cached { IsSome self.old.metadata → IsSome self.old.users → (ground.new.host ≡ ground.old.host) × (self.new ≡ self.old) }
    {
        self.load_both(alloc, ground, memories)?;
        match self.all_candidates(alloc, ground.nodes()) {
            Ok(paths) => Ok(paths),
            Err(_) => Err(ground.stop(Stop::NoMemory)),
        }
    }

    /// The flags of all files that are being loaded, in the order of their paths: those of both levels. Over an image that is read so,
    /// and memories that are those of the root tablet and the metadata table's tablets, they are those of that reading. Levels that
    /// aren't there are read, as by `load`, and its stops come in the same way. Takes memory for copies of the flags, and time n log n
    /// for n of them once the levels are there.
    pub fn flags<H: Host>(
        &mut self,
        alloc: Global,
        ground: &mut Ground<H>,
        memories: &HostedMemories,
    ) -> Result<Vec<LoadFlag>, Stop>
        ensures acts { Acts H.state Stays Stays (stop_of result) ground.old ground.new }
        ensures same { (ground.new.nodes ≡ ground.old.nodes) × (ground.new.logs ≡ ground.old.logs) }
        ensures flags { IsTrue (H.state ground.old.host).is_faithful → (reading : Reading) (known : Known) → ShowsLevels (H.state ground.old.host).files self.old reading known
            → HaveUpperMemories known reading (memories_of memories.now) → IfOk result (λ flags. AreFlagsIn reading flags.items) }
        ensures keeps { IsTrue (H.state ground.old.host).is_faithful → (reading : Reading) (known : Known) → ShowsLevels (H.state ground.old.host).files self.old reading known
            → HaveUpperMemories known reading (memories_of memories.now) → ShowsLevels (H.state ground.new.host).files self.new reading known }
        ensures undamaged { ground.old.stopped ≡ None → IsTrue (H.state ground.old.host).is_faithful → (reading : Reading) (known : Known) → ShowsLevels (H.state ground.old.host).files self.old reading known
            → HaveUpperMemories known reading (memories_of memories.now) → IfErr result IsNoDamage }
        ensures stops { ground.old.stopped ≡ None → IfErr result (λ stop. LevelsStop ground.old.nodes.nodes (memories_of memories.now) self.new stop (H.state ground.old.host) (H.state ground.new.host)) }
        ensures cached { IsSome self.old.metadata → IsSome self.old.users → (ground.new.host ≡ ground.old.host) × (self.new ≡ self.old) }
    {
        self.load_both(alloc, ground, memories)?;
        match self.all_flags(alloc) {
            Ok(flags) => Ok(flags),
            Err(_) => Err(ground.stop(Stop::NoMemory)),
        }
    }
}
