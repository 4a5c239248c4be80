// What the changes of a multi make of the nodes, beside the nodes.
ghost use Rattle.std.specs.Prelude.{◌≡◌, ◌⊎◌, ◌↔◌, ◌≤◌, ◌+◌, ◌==◌, ◌^◌, nat_lt, Err, Ok, IfOk, IfErr, OnOk, IsTrue};
ghost use Rattle.std.specs.FinMap as map;
ghost use Rattle.std.specs.Option.{option_copied};
ghost use Rattle.host_model.specs.declared.fault.Stop.TheVariants.{NoMemory};
ghost use Rattle.node_store.specs.declared.changes.NodeStop.TheVariants.{Stop as Stopped};
ghost use Rattle.node_store.specs.PathsTo.{overlaid};
ghost use Rattle.node_store.specs.Nodes.{allows, raised, turned, multi_applied};

use crate::changes::{Node, NodeOp, NodeStop};
use crate::path_map::PathMap;
use host_model::Stop;
use row_keys::{Octets, Path};
use std::alloc::Global;

const VERSION_END: u64 = 1 << 63;

fn allows(asked: Option<u64>, found: u64) -> bool
    ensures { result ≡ allows asked found }
{
    match asked {
        Some(version) => version == found,
        None => true,
    }
}

/// The node with a new value.
fn raise(alloc: Global, node: &Node, value: &Octets) -> Result<Option<Node>, NodeStop>
    ensures { (result ≡ raised node.now value.now) ⊎ (result ≡ Err (Stopped NoMemory)) }
{
    if node.version >= VERSION_END - 1 {
        return Err(NodeStop::Stop(Stop::Full));
    }
    Ok(Some(Node {
        value: value.copy(alloc)?,
        version: node.version + 1,
    }))
}

/// What a change makes of what its path has.
fn turn(alloc: Global, op: &NodeOp, found: Option<&Node>) -> Result<Option<Node>, NodeStop>
    ensures { (result ≡ turned op.now (option_copied found.entry)) ⊎ (result ≡ Err (Stopped NoMemory)) }
{
    match (op, found) {
        (NodeOp::Create { .. }, Some(_)) => Err(NodeStop::Exists),
        (NodeOp::Create { value, .. }, None) => Ok(Some(Node {
            value: value.copy(alloc)?,
            version: 0,
        })),
        (_, None) => Err(NodeStop::Missing),
        (NodeOp::Set { value, version, .. }, Some(node)) => {
            if allows(*version, node.version) {
                raise(alloc, node, value)
            } else {
                Err(NodeStop::Version(node.version))
            }
        }
        (NodeOp::Delete { version, .. }, Some(node)) => {
            if allows(*version, node.version) {
                Ok(None)
            } else {
                Err(NodeStop::Version(node.version))
            }
        }
    }
}

/// What the path has with the changes so far.
fn look<'a>(
    nodes: &'a PathMap<Node>,
    staged: &'a PathMap<Option<Node>>,
    path: &Path,
) -> Option<&'a Node>
    ensures { option_copied result ≡ map.get (overlaid nodes.now staged.now) path.now }
{
    match staged.get(path) {
        Some(change) => change.as_ref(),
        None => nodes.get(path),
    }
}

/// What the changes make of the paths that they touch, or why the first that is refused is.
pub fn stage(
    alloc: Global,
    nodes: &PathMap<Node>,
    ops: &[NodeOp],
) -> Result<PathMap<Option<Node>>, NodeStop>
    ensures ok { IfOk result (λ staged. multi_applied ops.now nodes.now ≡ Ok (overlaid nodes.now staged)) }
    ensures err { IfErr result (λ stop. (multi_applied ops.now nodes.now ≡ Err stop) ⊎ (stop ≡ Stopped NoMemory)) }
{
    let mut staged = PathMap::new(alloc);
    for op in ops {
        let path = op.path();
        let after = turn(alloc, op, look(nodes, &staged, path))?;
        staged.insert(path.copy(alloc)?, after)?;
    }
    Ok(staged)
}

/// Makes the changes. After want of memory some may be made; where they are refused none is.
pub fn apply(alloc: Global, nodes: &mut PathMap<Node>, ops: &[NodeOp]) -> Result<(), NodeStop>
    ensures ok { OnOk result (multi_applied ops.now nodes.old ≡ Ok nodes.new) }
    ensures err { IfErr result (λ stop. ((multi_applied ops.now nodes.old ≡ Err stop) × (nodes.new ≡ nodes.old)) ⊎ (stop ≡ Stopped NoMemory)) }
{
    let staged = stage(alloc, nodes, ops)?;
    nodes.merge(staged)?;
    Ok(())
}
