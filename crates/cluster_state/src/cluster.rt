// The cluster as a value.
ghost use Rattle.std.specs.Prelude.{◌≡◌};

use entry_book::EntryBook;
use ground_store::Ground;
use host_model::Host;
use hosted_memories::HostedMemories;
use level_index::LevelIndex;
use node_store::NodeStore;
use plain_model::{Entries, Entry};
use server_list::ServerList;
use std::alloc::Global;
use std::marker::Model;

/// The station of a cluster: its ground and host, the tablet servers and the clock, the memories of the tablets on live servers,
/// and the history of the run.
///
/// After a stop it asks nothing of the host any more, and answers the same stop to each call that can answer one, or `NoMemory`
/// where the copy of a damaged file's name finds none.
#[derive(Drop)]
pub struct Cluster<H: Host> {
    pub(crate) alloc: Global,
    pub(crate) base: Ground<H>,
    pub(crate) servers: ServerList,
    pub(crate) book: EntryBook,
    pub(crate) hosted: HostedMemories,
    /// The records of `!0`, once they have been read.
    pub(crate) metadata: Option<LevelIndex>,
    /// The records of user tables, once they have been read.
    pub(crate) users: Option<LevelIndex>,
}

impl<H: Host> Model for Cluster<H> {
    ghost use Rattle.std.specs.Prelude.{◌≡◌, None};
    ghost use Rattle.cluster_state.specs.Value.{ClusterValue, cluster_code};
    ghost use Rattle.cluster_state.specs.Served.{IsCluster};
    ghost use Rattle.server_list.specs.contracts.list.ServerList as servers_type;
    ghost use Rattle.hosted_memories.specs.contracts.memories.HostedMemories as memories_type;
    ghost use Rattle.level_index.specs.contracts.index.LevelIndex as index_type;

    ghost Value = { ClusterValue H };

    ghost coded = { cluster_code H.code servers_type.the_row.coded memories_type.the_row.coded index_type.the_row.coded };

    ghost view = { λ c. record { base = c.base; servers = c.servers; book = c.book; hosted = c.hosted; metadata = c.metadata; users = c.users } };

    ghost invariant = { λ c. c.base.stopped ≡ None → IsCluster c.base c.servers };
}

impl<H: Host> Cluster<H> {
    /// The history, the entry in doubt, and the host. Takes no memory.
    pub fn finish(self) -> (Entries, Option<Entry>, H)
        ensures history { result.0 ≡ self.book.history }
        ensures doubt { result.1 ≡ self.book.offered }
        ensures host { result.2 ≡ self.base.host }
    {
        let (history, doubt) = self.book.finish();
        (history, doubt, self.base.finish())
    }

    /// Where it takes memory from.
    pub fn alloc(&self) -> Global {
        self.alloc
    }

    /// The nodes, as the last multi that was Ok left them. Takes no memory.
    pub fn nodes(&self) -> &NodeStore
        ensures { result.now ≡ self.now.base.nodes }
    {
        self.base.nodes()
    }
}
