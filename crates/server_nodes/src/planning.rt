// What is needed to start a server, before anything is asked of the host.
ghost use Rattle.std.specs.Prelude.{◌≡◌, ◌+◌, ◌<◌, ◌^◌, ◌++◌, [], ◌∷◌, None, ℕ, IfOk, IfErr};
ghost use Rattle.std.specs.Fmt.{decimal};
ghost use Rattle.node_store.specs.declared.changes.NodeOp.TheVariants.{Set};
ghost use Rattle.store_layout.specs.Nodes.{next_session_path};
ghost use Rattle.server_nodes.specs.Sessions.{session_of, log_of};
ghost use Rattle.server_nodes.specs.Starting.{put_op, start_ops, IsDrawable, PlanCause};

use crate::paths::{log_path, next_session_path, server_path};
use crate::sessions::{log_of, session_of};
use host_model::Stop;
use node_store::{NodeOp, NodeStore};
use row_keys::{LogName, Octets, Path, ServerName, SessionId};
use std::alloc::{AllocError, Global};
use store_layout::{draw_ops, next_number, nodes_name};

/// One past the greatest number that is drawn.
const NUMBER_END: u64 = 1 << 63;

/// A session that isn't drawn yet, its log, and the changes of the nodes with which its server starts.
#[derive(Drop)]
pub struct StartPlan {
    pub number: u64,
    pub session: SessionId,
    pub log: LogName,
    pub ops: Vec<NodeOp>,
}

/// The change that gives a path this value, whether it is there or not.
fn put_op(alloc: Global, nodes: &NodeStore, path: Path, value: &[u8]) -> Result<NodeOp, AllocError>
    ensures { IfOk result (λ op. op ≡ put_op nodes.now.nodes path value.now) }
{
    let there = nodes.get(&path).is_some();
    let value = Octets::new(alloc, value)?;
    if there {
        Ok(NodeOp::Set {
            path,
            value,
            version: None,
        })
    } else {
        Ok(NodeOp::Create { path, value })
    }
}

/// The number of the next session, behind which one more can be drawn.
fn drawable(alloc: Global, nodes: &NodeStore) -> Result<u64, Stop>
    ensures number { IfOk result (λ number. IsDrawable nodes.now.nodes number) }
    ensures stops { IfErr result (λ stop. PlanCause nodes.now.nodes stop) }
{
    let path = next_session_path(alloc)?;
    let Some(number) = next_number(alloc, nodes, &path)? else {
        return Err(Stop::Damaged(nodes_name(alloc)?));
    };
    if number + 1 >= NUMBER_END {
        return Err(Stop::Full);
    }
    Ok(number)
}

fn start_ops(
    alloc: Global,
    nodes: &NodeStore,
    name: &ServerName,
    number: u64,
    session: &SessionId,
    log: &LogName,
) -> Result<Vec<NodeOp>, AllocError>
    requires more { number + 1 < 2 ^ 63 }
    requires session { session.now ≡ session_of number }
    requires log { log.now ≡ log_of session.now }
    ensures { IfOk result (λ ops. ops.items ≡ start_ops nodes.now.nodes name.now number) }
{
    let counter = next_session_path(alloc)?;
    let mut ops = draw_ops(alloc, counter, number)?;
    let log_node = log_path(alloc, session)?;
    ops.push(put_op(alloc, nodes, log_node, log.as_bytes())?)?;
    let server_node = server_path(alloc, name)?;
    ops.push(put_op(alloc, nodes, server_node, session.as_bytes())?)?;
    Ok(ops)
}

/// All that a start needs.
pub fn plan_start(alloc: Global, nodes: &NodeStore, name: &ServerName) -> Result<StartPlan, Stop>
    ensures number { IfOk result (λ plan. IsDrawable nodes.now.nodes plan.number) }
    ensures session { IfOk result (λ plan. plan.session ≡ session_of plan.number) }
    ensures log { IfOk result (λ plan. plan.log ≡ log_of (session_of plan.number)) }
    ensures ops { IfOk result (λ plan. plan.ops.items ≡ start_ops nodes.now.nodes name.now plan.number) }
    ensures stops { IfErr result (λ stop. PlanCause nodes.now.nodes stop) }
{
    let number = drawable(alloc, nodes)?;
    let session = session_of(alloc, number)?;
    let log = log_of(alloc, &session)?;
    let ops = start_ops(alloc, nodes, name, number, &session, &log)?;
    Ok(StartPlan {
        number,
        session,
        log,
        ops,
    })
}
