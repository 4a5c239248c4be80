// The queue of a table, as its nodes have it.
ghost use Rattle.std.specs.Prelude.{◌≡◌, None, IfOk, IfErr, MatchOption};
ghost use Rattle.node_store.specs.declared.changes.NodeOp.TheVariants.{Delete};
ghost use Rattle.table_locks.specs.Entries.{Stands, EachStands, HasStray, IsQueue, QueueCause, lock_path};
ghost use Rattle.table_locks.specs.declared.grants.LockEntry.{LockEntry};

use crate::LockEntry;
use crate::entry_text::{lock_path, number_at, queue_path, read_value};
use host_model::Stop;
use node_store::{NodeOp, NodeStore};
use row_keys::{Path, TableId};
use std::alloc::{AllocError, Global};

// The entry that the node of a path is.
fn entry_at(
    alloc: Global,
    nodes: &NodeStore,
    table: &TableId,
    path: &Path,
) -> Result<Option<LockEntry>, AllocError>
    ensures { IfOk result (λ found. MatchOption found ((entry : LockEntry) → Stands table.now nodes.now.nodes path.now entry → ⊥) (λ entry. Stands table.now nodes.now.nodes path.now entry)) }
{
    let Some(node) = nodes.get(path) else {
        return Ok(None);
    };
    let Some(number) = number_at(alloc, table, path)? else {
        return Ok(None);
    };
    match read_value(alloc, node.value.as_bytes())? {
        Some((kind, tid)) => Ok(Some(LockEntry { number, kind, tid })),
        None => Ok(None),
    }
}

// The entries that the nodes of these paths are, or none where one isn't an entry.
fn entries_at(
    alloc: Global,
    nodes: &NodeStore,
    table: &TableId,
    paths: &[Path],
) -> Result<Option<Vec<LockEntry>>, AllocError>
    ensures { IfOk result (λ found. MatchOption found (HasStray table.now nodes.now.nodes paths.now) (λ entries. EachStands table.now nodes.now.nodes paths.now entries.items)) }
{
    let mut entries = Vec::new(alloc);
    for path in paths {
        let Some(entry) = entry_at(alloc, nodes, table, path)? else {
            return Ok(None);
        };
        entries.push(entry)?;
    }
    Ok(Some(entries))
}

/// The entries of a table, in the order of their numbers.
///
/// Each path right below `/locks/ID` is one: `/locks/ID/lock-NNNNNNNNNN`, with the number in decimal, padded with zeros to
/// ten digits, and the value `READ t` or `WRITE t`. `Damaged` names the nodes, and comes exactly where a path or its value
/// isn't of that form; beside it there is want of memory alone. Takes memory for the paths and the entries, and asks nothing
/// of a host. The time grows with the nodes below `/locks/ID`, and the logarithm of all.
pub fn queue(alloc: Global, nodes: &NodeStore, table: &TableId) -> Result<Vec<LockEntry>, Stop>
    ensures ok { IfOk result (λ entries. IsQueue table.now nodes.now.nodes entries.items) }
    ensures stops { IfErr result (λ stop. QueueCause table.now nodes.now.name nodes.now.nodes stop) }
{
    let front = queue_path(alloc, table)?;
    let paths = nodes.children(&front)?;
    let Some(mut entries) = entries_at(alloc, nodes, table, &paths)? else {
        return Err(Stop::Damaged(nodes.name().copy(alloc)?));
    };
    entries.sort_unstable_by_key(|entry| entry.number);
    Ok(entries)
}

/// The change that takes an entry out of the queue of a table, which releases the lock. Takes memory for its path.
pub fn release_op(alloc: Global, table: &TableId, number: u64) -> Result<NodeOp, AllocError>
    ensures { IfOk result (λ op. op ≡ Delete (lock_path table.now number) None) }
{
    Ok(NodeOp::Delete {
        path: lock_path(alloc, table, number)?,
        version: None,
    })
}
