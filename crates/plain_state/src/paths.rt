// The paths of nodes that begin alike.
ghost use Rattle.std.specs.Prelude.{◌≡◌, IfOk};
ghost use Rattle.plain_state.specs.Paths.{paths_behind};

use node_store::NodeStore;
use row_keys::Path;
use std::alloc::{AllocError, Global};

/// The paths of all nodes that begin so, whatever comes behind, in byte order.
pub fn paths_behind(alloc: Global, nodes: &NodeStore, front: &[u8]) -> Result<Vec<Path>, AllocError>
    ensures { IfOk result (λ behind. behind.items ≡ paths_behind front.now nodes.now.nodes) }
{
    let paths = nodes.paths()?;
    let mut behind = Vec::new(alloc);
    for path in &paths {
        if path.as_bytes().starts_with(front) {
            behind.push(path.copy(alloc)?)?;
        }
    }
    Ok(behind)
}
