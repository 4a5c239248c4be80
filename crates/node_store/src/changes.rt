// Nodes, and changes of them.
ghost use Rattle.std.specs.Prelude.{◌≡◌};
ghost use Rattle.node_store.specs.declared.changes.NodeStop.TheVariants.{Stop as Stopped};
ghost use Rattle.host_model.specs.declared.fault.Stop.TheVariants.{NoMemory};

use row_keys::{Octets, Path};
use std::alloc::AllocError;

/// What a path has.
#[derive(Debug, Drop)]
pub struct Node {
    /// The value, of any bytes.
    pub value: Octets,
    /// How often the node was set since it was created; below 2^63.
    pub version: u64,
}

/// One change of a multi.
#[derive(Debug, Drop)]
pub enum NodeOp {
    /// Makes a node, where the path has none.
    Create {
        /// The path, which is to have no node.
        path: Path,
        /// The first value.
        value: Octets,
    },
    /// Gives a node another value and the next version.
    Set {
        /// The path of the node.
        path: Path,
        /// The new value.
        value: Octets,
        /// The version that the node is to have, if it matters.
        version: Option<u64>,
    },
    /// Takes a node out.
    Delete {
        /// The path of the node.
        path: Path,
        /// The version that the node is to have, if it matters.
        version: Option<u64>,
    },
}

/// Why a multi isn't made.
#[derive(Debug, Drop)]
pub enum NodeStop {
    /// A created path has a node already.
    Exists,
    /// A set or deleted path has no node.
    Missing,
    /// The node has this version, and another was asked for.
    Version(u64),
    /// The disk, the memory or the room for it failed.
    Stop(host_model::Stop),
}

impl From<host_model::Stop> for NodeStop {
    ghost from_gives = { λ stop answer. answer ≡ Stopped stop };

    fn from(stop: host_model::Stop) -> Self {
        NodeStop::Stop(stop)
    }
}

impl From<AllocError> for NodeStop {
    ghost from_gives = { λ _ answer. answer ≡ Stopped NoMemory };

    fn from(_: AllocError) -> Self {
        NodeStop::Stop(host_model::Stop::NoMemory)
    }
}

impl NodeOp {
    ghost use Rattle.node_store.specs.Nodes.{path_of};

    /// The path that it changes.
    pub fn path(&self) -> &Path
        ensures { result.now ≡ path_of self.now }
    {
        match self {
            NodeOp::Create { path, .. } => path,
            NodeOp::Set { path, .. } => path,
            NodeOp::Delete { path, .. } => path,
        }
    }
}
