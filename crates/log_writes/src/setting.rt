// The record of the root tablet is set.
ghost use Rattle.std.specs.Prelude.{◌≡◌, ◌+◌, [], ◌∷◌, length, None, IfErr, IfOk, IsSome, OnOk};
ghost use Rattle.std.specs.FinMap as map;
ghost use Rattle.metadata_schema.specs.Records.{IsWellFormed};
ghost use Rattle.node_store.specs.declared.changes.NodeOp.TheVariants.{Set};
ghost use Rattle.node_store.specs.Answers.{IsFull};
ghost use Rattle.node_store.specs.Multi.{spelled_multi};
ghost use Rattle.node_store.specs.Steps.{MayGive, Gives};
ghost use Rattle.store_layout.specs.Nodes.{root_path, root_value};
ghost use Rattle.store_meaning.specs.Levels.{IsRecordAt, IsRootRecord, root_id};
ghost use Rattle.ground_store.specs.Acts.{Acts, stop_of};
ghost use Rattle.ground_store.specs.Drawing.{IsOwn};
ghost use Rattle.log_writes.specs.Answers.{IsFullOrShort};
ghost use Rattle.log_writes.specs.Setting.{root_ops, SetsRoot, ValueCause, SetCause};

use crate::stops::own_stop;
use ground_store::Ground;
use host_model::{Host, Stop};
use log_files::put_updates;
use metadata_schema::{TabletRecord, columns_of};
use node_store::NodeOp;
use row_keys::{Octets, Path};
use std::alloc::{AllocError, Global};

const ROOT: &[u8] = b"/root";

/// No number of columns that a value can tell reaches this one.
const END_OF_COUNTS: usize = 1 << 32;

fn root_path(alloc: Global) -> Result<Path, AllocError>
    ensures { IfOk result (λ path. path ≡ root_path) }
{
    let path = Path::new(alloc, ROOT)?;
    Ok(path.unwrap())
}

/// The value of `/root` that spells this record.
fn root_value(alloc: Global, root: &TabletRecord) -> Result<Octets, Stop>
    requires { IsWellFormed root.now }
    ensures value { IfOk result (λ value. value ≡ root_value root.now) }
    ensures stops { IfErr result (ValueCause root.now) }
{
    let columns = columns_of(alloc, root)?;
    if columns.len() >= END_OF_COUNTS {
        return Err(Stop::Full);
    }
    let mut bytes = Vec::new(alloc);
    put_updates(&mut bytes, &columns)?;
    Ok(Octets::from_vec(bytes))
}

/// The change that sets the node to this value.
fn set_ops(alloc: Global, value: Octets) -> Result<Vec<NodeOp>, AllocError>
    ensures { IfOk result (λ ops. ops.items ≡ Set root_path value None ∷ []) }
{
    let set = NodeOp::Set {
        path: root_path(alloc)?,
        value,
        version: None,
    };
    Ok(vec![in alloc; set]?)
}

/// The change that sets this record.
fn root_ops(alloc: Global, root: &TabletRecord) -> Result<Vec<NodeOp>, Stop>
    requires { IsWellFormed root.now }
    ensures ops { IfOk result (λ ops. ops.items ≡ root_ops root.now) }
    ensures stops { IfErr result (ValueCause root.now) }
{
    let value = root_value(alloc, root)?;
    Ok(set_ops(alloc, value)?)
}

/// Sets the record of the root tablet, in its node, which is there. Whole or absent at a stop or a crash, and on the disk at `Ok`.
///
/// `Full` comes only where there is no room for the change, and there `Ok` never does: the node's version is at its end, the change
/// has 2^32 bytes or more, or the file of the nodes would have more than 2^40. Each other stop is a fault of the disk or the host's
/// memory, which is counted, or want of memory, or one that was answered before. At a stop of the program's own, as want of memory,
/// the host is as it was. One multi: two syncs and no open. Takes memory for the columns of the record, and time with their number
/// and the logarithm of the number of nodes.
pub fn set_root<H: Host>(
    alloc: Global,
    ground: &mut Ground<H>,
    root: &TabletRecord,
) -> Result<(), Stop>
    requires there { IsSome (map.get ground.old.nodes.nodes root_path) }
    requires root { IsRecordAt root_id None root.now }
    ensures acts { Acts H.state (MayGive (root_ops root.now) ground.old.nodes) (Gives (root_ops root.now) ground.old.nodes) (stop_of result) ground.old ground.new }
    ensures sets { OnOk result (SetsRoot root.now ground.old.nodes.nodes ground.new.nodes.nodes) }
    ensures root { OnOk result (IsRootRecord ground.new.nodes.nodes root.now) }
    ensures end { OnOk result (ground.new.nodes.end ≡ ground.old.nodes.end + 5 + length (spelled_multi (root_ops root.now))) }
    ensures name { ground.new.nodes.name ≡ ground.old.nodes.name }
    ensures logs { ground.new.logs ≡ ground.old.logs }
    ensures full { ground.old.stopped ≡ None → IsFull (root_ops root.now) ground.old.nodes → IsFullOrShort result }
    ensures untouched { IfErr result (λ stop. IsOwn stop → ground.new.host ≡ ground.old.host) }
    ensures stops { ground.old.stopped ≡ None → IfErr result (λ stop. SetCause root.now ground.old.nodes stop (H.state ground.old.host) (H.state ground.new.host)) }
{
    ground.check()?;
    let ops = match root_ops(alloc, root) {
        Ok(ops) => ops,
        Err(stop) => return Err(ground.stop(stop)),
    };
    match ground.multi(&ops) {
        Ok(()) => Ok(()),
        Err(stop) => Err(own_stop(stop)),
    }
}
