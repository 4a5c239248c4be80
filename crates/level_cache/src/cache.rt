// The levels that were read.
ghost use Rattle.std.specs.Prelude.{◌≡◌};
ghost use Rattle.std.specs.Option.{option_copied};
ghost use Rattle.level_cache.specs.Cached.{nothing_read, kept_level};

use level_index::LevelIndex;
use state_reader::LevelKind;
use std::marker::Model;

/// The two upper levels of a running store, each once it has been read.
#[derive(Drop)]
pub struct LevelCache {
    pub(crate) metadata: Option<LevelIndex>,
    pub(crate) users: Option<LevelIndex>,
}

impl Model for LevelCache {
    ghost use Rattle.level_cache.specs.Cached.{CachedLevels, cached_code};
    ghost use Rattle.level_index.specs.contracts.index.LevelIndex as index_type;

    ghost Value = { CachedLevels };

    ghost coded = { cached_code index_type.the_row.coded };

    ghost view = { λ c. record { metadata = c.metadata; users = c.users } };
}

impl LevelCache {
    /// Nothing has been read. Takes no memory.
    pub fn new() -> LevelCache
        ensures { result ≡ nothing_read }
    {
        LevelCache {
            metadata: None,
            users: None,
        }
    }

    /// The level of this kind, if it has been read. Takes no memory.
    pub fn level(&self, kind: LevelKind) -> Option<&LevelIndex>
        ensures { option_copied result ≡ kept_level kind self.now }
    {
        match kind {
            LevelKind::Metadata => self.metadata.as_ref(),
            LevelKind::Users => self.users.as_ref(),
        }
    }
}
