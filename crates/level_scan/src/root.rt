// The record of the root tablet.
ghost use Rattle.std.specs.Prelude.{IfOk, IfErr, IsErr};
ghost use Rattle.store_meaning.specs.Levels.{IsRootRecord};
ghost use Rattle.level_scan.specs.Causes.{LacksRoot, RootStop};

use crate::nodes_fault::NodesFault;
use crate::stopping::stop_for;
use host_model::Stop;
use metadata_schema::TabletRecord;
use node_store::NodeStore;
use state_reader::{ReadFault, root_record};
use std::alloc::Global;

/// The record of the root tablet that the nodes have. `Damaged` names the file of the nodes, exactly where they have none, or a
/// value of 2^32 bytes or more in its place; beside it there is want of memory alone. Takes memory for the record, and time with
/// the length of its value.
pub fn root_of_nodes(alloc: Global, nodes: &NodeStore) -> Result<TabletRecord, Stop>
    ensures ok { IfOk result (IsRootRecord nodes.now.nodes) }
    ensures lacks { LacksRoot nodes.now.nodes → IsErr result }
    ensures stops { IfErr result (RootStop nodes.now.nodes) }
{
    let fault = match root_record(alloc, nodes) {
        Ok(root) => return Ok(root),
        Err(fault) => fault,
    };
    match fault {
        ReadFault::NoMemory => Err(Stop::NoMemory),
        _ => Err(stop_for(alloc, NodesFault::Damaged)),
    }
}
