// Servers are taken out.
ghost use Rattle.std.specs.Prelude.{◌≡◌, [], ◌∷◌, None, IfErr, IfOk, OnOk, IsSome};
ghost use Rattle.std.specs.FinMap as map;
ghost use Rattle.node_store.specs.Steps.{MayGive, Gives};
ghost use Rattle.ground_store.specs.Acts.{Acts, stop_of};
ghost use Rattle.server_nodes.specs.Sessions.{server_path};
ghost use Rattle.server_nodes.specs.Ending.{delete_op, clear_ops, without_servers, MayGiveAny, GivesAny, TakeCause};

use crate::paths::{server_path, servers_path};
use crate::stops::own_stop;
use ground_store::Ground;
use host_model::{Host, Stop};
use node_store::{NodeOp, NodeStore};
use row_keys::ServerName;
use std::alloc::{AllocError, Global};

fn end_ops(alloc: Global, name: &ServerName) -> Result<Vec<NodeOp>, AllocError>
    ensures { IfOk result (λ ops. ops.items ≡ delete_op (server_path name.now) ∷ []) }
{
    let delete = NodeOp::Delete {
        path: server_path(alloc, name)?,
        version: None,
    };
    Ok(vec![in alloc; delete]?)
}

fn clear_ops(alloc: Global, nodes: &NodeStore) -> Result<Vec<NodeOp>, AllocError>
    ensures { IfOk result (λ ops. ops.items ≡ clear_ops nodes.now.nodes) }
{
    let parent = servers_path(alloc)?;
    let mut ops = Vec::new(alloc);
    for path in nodes.children(&parent)? {
        ops.push(NodeOp::Delete {
            path,
            version: None,
        })?;
    }
    Ok(ops)
}

/// Takes a server, which has a node, out: its node goes, and that of its log stays. Whole or absent at a stop or a crash.
///
/// `Full` comes only where there is no room for the change. Each other stop is a fault of the disk or the host's memory, which is
/// counted, or want of memory, or one that was answered before. One multi: two syncs and no open; time with the logarithm of the
/// number of nodes.
pub fn end<H: Host>(alloc: Global, ground: &mut Ground<H>, name: &ServerName) -> Result<(), Stop>
    requires { IsSome (map.get ground.old.nodes.nodes (server_path name.now)) }
    ensures acts { Acts H.state (MayGive (delete_op (server_path name.now) ∷ []) ground.old.nodes) (Gives (delete_op (server_path name.now) ∷ []) ground.old.nodes) (stop_of result) ground.old ground.new }
    ensures nodes { OnOk result (ground.new.nodes.nodes ≡ map.remove ground.old.nodes.nodes (server_path name.now)) }
    ensures name { ground.new.nodes.name ≡ ground.old.nodes.name }
    ensures logs { ground.new.logs ≡ ground.old.logs }
    ensures stops { ground.old.stopped ≡ None → IfErr result (λ stop. TakeCause (delete_op (server_path name.now) ∷ []) ground.old.nodes stop (H.state ground.old.host) (H.state ground.new.host)) }
{
    ground.check()?;
    let ops = match end_ops(alloc, name) {
        Ok(ops) => ops,
        Err(_) => return Err(ground.stop(Stop::NoMemory)),
    };
    match ground.multi(&ops) {
        Ok(()) => Ok(()),
        Err(stop) => Err(own_stop(stop)),
    }
}

/// Takes all servers out, as those of an earlier run are at opening. Whole or absent at a stop or a crash.
///
/// Stops as `end` does. One multi: two syncs and no open, and none where there are no servers, so that the host is asked nothing
/// then. Takes memory for their paths, and time with their number and the logarithm of the number of nodes.
pub fn clear<H: Host>(alloc: Global, ground: &mut Ground<H>) -> Result<(), Stop>
    ensures acts { Acts H.state (MayGiveAny (clear_ops ground.old.nodes.nodes) ground.old.nodes) (GivesAny (clear_ops ground.old.nodes.nodes) ground.old.nodes) (stop_of result) ground.old ground.new }
    ensures nodes { OnOk result (ground.new.nodes.nodes ≡ without_servers ground.old.nodes.nodes) }
    ensures none { OnOk result (clear_ops ground.old.nodes.nodes ≡ [] → ground.new ≡ ground.old) }
    ensures name { ground.new.nodes.name ≡ ground.old.nodes.name }
    ensures logs { ground.new.logs ≡ ground.old.logs }
    ensures stops { ground.old.stopped ≡ None → IfErr result (λ stop. TakeCause (clear_ops ground.old.nodes.nodes) ground.old.nodes stop (H.state ground.old.host) (H.state ground.new.host)) }
{
    ground.check()?;
    let ops = match clear_ops(alloc, ground.nodes()) {
        Ok(ops) => ops,
        Err(_) => return Err(ground.stop(Stop::NoMemory)),
    };
    if ops.is_empty() {
        return Ok(());
    }
    match ground.multi(&ops) {
        Ok(()) => Ok(()),
        Err(stop) => Err(own_stop(stop)),
    }
}
