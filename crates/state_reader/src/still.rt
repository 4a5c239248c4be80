// A still ground in memory.
ghost use Rattle.std.specs.Prelude.{◌≡◌};
ghost use Rattle.std.specs.FinMap as map;

use crate::name_map::NameMap;
use cell_merge::Cells;
use metadata_schema::Mutation;
use node_store::NodeStore;
use row_keys::{ListOf, LogNameForm, PathForm};
use std::alloc::Global;

/// Mutations, in the order in which they stand in a log.
pub type Mutations = ListOf<Mutation>;

/// A ground made in memory: the nodes, and the files, logs and sorted logs that it tells of.
#[derive(Drop)]
pub struct StillGround {
    pub nodes: NodeStore,
    /// The cells of data files, by their paths.
    pub files: NameMap<PathForm, Cells>,
    /// The mutations of logs, by their names.
    pub logs: NameMap<LogNameForm, Mutations>,
    /// Those of sorted logs, in order, by the names of their logs.
    pub sorted: NameMap<LogNameForm, Mutations>,
}

impl StillGround {
    /// A ground with these nodes, which tells of no file and no log. Takes no memory.
    pub fn new(alloc: Global, nodes: NodeStore) -> StillGround
        ensures { result ≡ record { nodes = nodes; files = map.empty; logs = map.empty; sorted = map.empty } }
    {
        StillGround {
            nodes,
            files: NameMap::new(alloc),
            logs: NameMap::new(alloc),
            sorted: NameMap::new(alloc),
        }
    }
}
