// Nodes read from the records of a journal.
ghost use Rattle.std.specs.Prelude.{◌≡◌, ◌≢◌, IfOk, IfErr, MatchBool, MatchOption};
ghost use Rattle.std.specs.FinMap as map;
ghost use Rattle.host_model.specs.declared.fault.Stop.TheVariants.{NoMemory};
ghost use Rattle.node_store.specs.declared.changes.NodeStop.TheVariants.{Stop as Stopped};
ghost use Rattle.node_store.specs.Image.{Turns, FoldTo};
ghost use Rattle.node_store.specs.Reading.{TurnsNone, FoldsNone};

use crate::changes::{Node, NodeStop};
use crate::multi_text::read_multi;
use crate::path_map::PathMap;
use crate::staged::apply;
use host_model::Stop;
use row_keys::Octets;
use std::alloc::Global;

/// Whether it is want of memory.
fn is_no_memory(stop: &NodeStop) -> bool
    ensures { MatchBool result (stop.now ≡ Stopped NoMemory) (stop.now ≢ Stopped NoMemory) }
{
    matches!(stop, NodeStop::Stop(Stop::NoMemory))
}

/// Makes the changes of a record. False comes exactly where it isn't a multi that applies.
fn apply_record(alloc: Global, nodes: &mut PathMap<Node>, payload: &[u8]) -> Result<bool, Stop>
    ensures made { IfOk result (λ made. MatchBool made (Turns payload.now nodes.old nodes.new) (TurnsNone payload.now nodes.old)) }
    ensures memory { IfErr result (λ stop. stop ≡ NoMemory) }
{
    let Some(ops) = read_multi(alloc, payload)? else {
        return Ok(false);
    };
    match apply(alloc, nodes, &ops) {
        Ok(()) => Ok(true),
        Err(stop) if is_no_memory(&stop) => Err(Stop::NoMemory),
        Err(_) => Ok(false),
    }
}

/// The nodes that records make, or none where one of them isn't a multi that applies.
pub fn fold_records(alloc: Global, records: &[Octets]) -> Result<Option<PathMap<Node>>, Stop>
    ensures made { IfOk result (λ found. MatchOption found (FoldsNone records.now) (λ nodes. FoldTo records.now map.empty nodes)) }
    ensures memory { IfErr result (λ stop. stop ≡ NoMemory) }
{
    let mut nodes = PathMap::new(alloc);
    for record in records {
        if !apply_record(alloc, &mut nodes, record.as_bytes())? {
            return Ok(None);
        }
    }
    Ok(Some(nodes))
}
