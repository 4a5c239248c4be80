// A server starts.
ghost use Rattle.std.specs.Prelude.{◌≡◌, None, IfErr, IfOk, IsErr};
ghost use Rattle.std.specs.FinMap as map;
ghost use Rattle.store_layout.specs.Nodes.{IsNoCounter, next_session_path};
ghost use Rattle.ground_store.specs.Acts.{Acts, stop_of};
ghost use Rattle.server_nodes.specs.Sessions.{log_of};
ghost use Rattle.server_nodes.specs.Starting.{MayStart, Starts, StartCause, IsStartFull};
ghost use Rattle.server_nodes.specs.Started.{IsStarted};

use crate::planning::plan_start;
use crate::stops::own_stop;
use ground_store::Ground;
use host_model::{Host, Stop};
use row_keys::{ServerName, SessionId};
use std::alloc::Global;

/// Starts a server of this name: draws its session, makes its log, without mutations, and gives the server and the log their nodes,
/// in place of any that are there. Answers the session.
///
/// `Damaged` names the nodes, exactly where they say no next session. `Full` comes exactly where the number after it would reach
/// 2^63 or there is no room for the changes of the nodes. Each other stop is a fault of the disk or the host's memory, which is
/// counted, or want of memory, or one that was answered before. A stop or a crash on the way leaves the files as they were, or with
/// anything in the file of that log, which no node names then, or the server started. One creation, three syncs.
pub fn start<H: Host>(
    alloc: Global,
    ground: &mut Ground<H>,
    name: &ServerName,
) -> Result<SessionId, Stop>
    ensures acts { Acts H.state (MayStart name.now ground.old.nodes) (Starts name.now ground.old.nodes) (stop_of result) ground.old ground.new }
    ensures started { IfOk result (λ session. IsStarted name.now session ground.old.nodes.nodes ground.new.nodes.nodes) }
    ensures logs { IfOk result (λ session. ground.new.logs ≡ map.insert ground.old.logs (log_of session) (record { name = log_of session; end = 0 })) }
    ensures name { ground.new.nodes.name ≡ ground.old.nodes.name }
    ensures none { IsNoCounter ground.old.nodes.nodes next_session_path → IsErr result }
    ensures full { IsStartFull name.now ground.old.nodes → IsErr result }
    ensures stops { ground.old.stopped ≡ None → IfErr result (λ stop. StartCause name.now ground.old.nodes stop (H.state ground.old.host) (H.state ground.new.host)) }
{
    ground.check()?;
    let plan = match plan_start(alloc, ground.nodes(), name) {
        Ok(plan) => plan,
        Err(stop) => return Err(ground.stop(stop)),
    };
    ground.make_log(&plan.log)?;
    match ground.multi(&plan.ops) {
        Ok(()) => Ok(plan.session),
        Err(stop) => Err(own_stop(stop)),
    }
}
