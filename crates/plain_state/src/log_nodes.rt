// The logs that nodes name.
ghost use Rattle.std.specs.Prelude.{IfOk};
ghost use Rattle.plain_state.specs.Logs.{AreListed, AreListedSorted};

use crate::paths::paths_behind;
use node_store::NodeStore;
use row_keys::Octets;
use std::alloc::{AllocError, Global};

const LOGS: &[u8] = b"/logs/";

const SORTED: &[u8] = b"/sorted/";

/// What the nodes under `/logs` name, whether or not it is a log's name.
pub fn listed(alloc: Global, nodes: &NodeStore) -> Result<Vec<Octets>, AllocError>
    ensures { IfOk result (λ logs. AreListed nodes.now.nodes logs.items) }
{
    let paths = paths_behind(alloc, nodes, LOGS)?;
    let mut logs = Vec::new(alloc);
    for path in &paths {
        if let Some(node) = nodes.get(path) {
            logs.push(node.value.copy(alloc)?)?;
        }
    }
    Ok(logs)
}

/// What the paths of the nodes under `/sorted` name, whether or not it is a log's name.
pub fn listed_sorted(alloc: Global, nodes: &NodeStore) -> Result<Vec<Octets>, AllocError>
    ensures { IfOk result (λ logs. AreListedSorted nodes.now.nodes logs.items) }
{
    let paths = paths_behind(alloc, nodes, SORTED)?;
    let mut logs = Vec::new(alloc);
    for path in &paths {
        if let Some(log) = path.as_bytes().strip_prefix(SORTED) {
            logs.push(Octets::new(alloc, log)?)?;
        }
    }
    Ok(logs)
}
