// What holds of the nodes of images.
ghost use Rattle.node_store.specs.Laws.{NodesAreOne, StoredNodesAreThere, NodeFilesDecide, UnbornStaysUnborn};

/// An image has one map of nodes of a name, at the most.
pub fn nodes_are_one()
    ensures { NodesAreOne }
{}

/// Where a store's files are as it left them, the image has its nodes.
pub fn stored_nodes_are_there()
    ensures { StoredNodesAreThere }
{}

/// Which nodes an image has, whether they are born, and whether a store's files are as it left them, is a matter of the
/// node files alone.
pub fn node_files_decide()
    ensures { NodeFilesDecide }
{}

/// A crash in a creation leaves nodes unborn that were so before.
pub fn unborn_stays_unborn()
    ensures { UnbornStaysUnborn }
{}
