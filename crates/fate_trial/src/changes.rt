// Single changes of slots.
ghost use Rattle.std.specs.Prelude.{◌≡◌, ◌∷◌, [], None, IfOk};
ghost use Rattle.node_store.specs.declared.changes.NodeOp.TheVariants.{Create, Set, Delete};
ghost use Rattle.fate_trial.specs.Layout.{slot_path, has};

use crate::layout::{Slot, slot_path};
use crate::site::Site;
use host_model::Host;
use node_store::NodeOp;
use row_keys::{Octets, Path};
use std::alloc::{AllocError, Global};

/// Whether the slot has a node.
pub fn is_there<H: Host>(env: &Site<H>, slot: Slot, tid: u64) -> Result<bool, AllocError>
    ensures { IfOk result (λ there. there ≡ has env.now.nodes.nodes slot tid) }
{
    match env.slot(slot, tid)? {
        Some(_) => Ok(true),
        None => Ok(false),
    }
}

/// The change that makes the node of a path.
pub fn creation_at(alloc: Global, path: Path, value: Octets) -> Result<Vec<NodeOp>, AllocError>
    ensures { IfOk result (λ ops. ops.items ≡ Create path value ∷ []) }
{
    Ok(vec![in alloc; NodeOp::Create { path, value }]?)
}

/// The change that makes the slot's node.
pub fn creation<H: Host>(
    env: &Site<H>,
    slot: Slot,
    tid: u64,
    value: Octets,
) -> Result<Vec<NodeOp>, AllocError>
    ensures { IfOk result (λ ops. ops.items ≡ Create (slot_path slot tid) value ∷ []) }
{
    let path = slot_path(env.alloc, slot, tid)?;
    Ok(vec![in env.alloc; NodeOp::Create { path, value }]?)
}

/// The change that takes it out.
pub fn deletion<H: Host>(env: &Site<H>, slot: Slot, tid: u64) -> Result<Vec<NodeOp>, AllocError>
    ensures { IfOk result (λ ops. ops.items ≡ Delete (slot_path slot tid) None ∷ []) }
{
    let path = slot_path(env.alloc, slot, tid)?;
    Ok(vec![in env.alloc;
        NodeOp::Delete {
            path,
            version: None
        },
    ]?)
}

/// The change that gives the slot's node another value.
pub fn setting<H: Host>(
    env: &Site<H>,
    slot: Slot,
    tid: u64,
    value: Octets,
) -> Result<Vec<NodeOp>, AllocError>
    ensures { IfOk result (λ ops. ops.items ≡ Set (slot_path slot tid) value None ∷ []) }
{
    let path = slot_path(env.alloc, slot, tid)?;
    Ok(vec![in env.alloc;
        NodeOp::Set {
            path,
            value,
            version: None
        },
    ]?)
}
