// A server starts.
ghost use Rattle.std.specs.Prelude.{◌≡◌, false, None, IfErr, IsErr, OnOk, OnErr, IsTrue};
ghost use Rattle.store_layout.specs.Nodes.{IsNoCounter, next_session_path};
ghost use Rattle.ground_store.specs.Acts.{Acts, stop_of};
ghost use Rattle.ground_store.specs.Steps.{Stays};
ghost use Rattle.server_list.specs.Servers.{is_listed, server_of, started};
ghost use Rattle.server_nodes.specs.Starting.{MayStart, Starts, IsStartFull};
ghost use Rattle.cluster_state.specs.Events.{KeepsState};
ghost use Rattle.cluster_state.specs.Starting.{IsInList, ListCause, StartsIn, StartsServer, StartServerCause, SameBeside};
ghost use Rattle.cluster_state.specs.Station.{MovesStation};

use crate::cluster::Cluster;
use ground_store::Ground;
use host_model::{Host, Stop};
use row_keys::{ServerName, SessionId};
use server_list::ServerList;
use server_nodes::{a_server_may_start, start};
use std::alloc::Global;
use store_layout::nodes_name;

/// Puts a server that was started last in the list.
fn list_server<H: Host>(
    alloc: Global,
    ground: &mut Ground<H>,
    servers: &mut ServerList,
    name: ServerName,
    session: SessionId,
) -> Result<(), Stop>
    requires running { ground.old.stopped ≡ None }
    requires new { is_listed name servers.old ≡ false }
    ensures acts { Acts H.state Stays Stays (stop_of result) ground.old ground.new }
    ensures ok { OnOk result (ground.new ≡ ground.old) }
    ensures same { (ground.new.nodes ≡ ground.old.nodes) × (ground.new.logs ≡ ground.old.logs) }
    ensures fresh { OnOk result (server_of session servers.old ≡ None) }
    ensures listed { OnOk result (servers.new ≡ started name session servers.old) }
    ensures err { OnErr result (servers.new ≡ servers.old) }
    ensures stops { IfErr result (ListCause session servers.old) }
{
    ground.check()?;
    if servers.has_session(&session) {
        return match nodes_name(alloc) {
            Ok(nodes) => Err(ground.stop(Stop::Damaged(nodes))),
            Err(_) => Err(ground.stop(Stop::NoMemory)),
        };
    }
    match servers.start(name, session) {
        Ok(()) => Ok(()),
        Err(_) => Err(ground.stop(Stop::NoMemory)),
    }
}

/// Starts a server in the nodes and the logs, and puts it last in the list.
fn start_in<H: Host>(
    alloc: Global,
    ground: &mut Ground<H>,
    servers: &mut ServerList,
    name: &ServerName,
) -> Result<(), Stop>
    requires running { ground.old.stopped ≡ None }
    requires new { is_listed name.now servers.old ≡ false }
    ensures acts { Acts H.state (MayStart name.now ground.old.nodes) (Starts name.now ground.old.nodes) (stop_of result) ground.old ground.new }
    ensures starts { OnOk result (StartsIn name.now ground.old servers.old ground.new servers.new) }
    ensures name { ground.new.nodes.name ≡ ground.old.nodes.name }
    ensures err { OnErr result (servers.new ≡ servers.old) }
    ensures none { IsNoCounter ground.old.nodes.nodes next_session_path → IsErr result }
    ensures full { IsStartFull name.now ground.old.nodes → IsErr result }
    ensures stops { IfErr result (λ stop. StartServerCause name.now ground.old.nodes servers.old stop (H.state ground.old.host) (H.state ground.new.host)) }
{
    let own = match name.copy(alloc) {
        Ok(own) => own,
        Err(_) => return Err(ground.stop(Stop::NoMemory)),
    };
    let session = start(alloc, ground, name)?;
    list_server(alloc, ground, servers, own, session)
}

impl<H: Host> Cluster<H> {
    /// Starts a server of this name, live, last in the list: draws its session, makes its log, without mutations, and gives the server
    /// and the log their nodes. What is kept stays so, with the same plain state, also in whatever a crash inside leaves.
    ///
    /// `Damaged` names the nodes, where they say no next session, or one that a server in the list has. `Full` comes exactly where the
    /// number after it would reach 2^63 or there is no room for the changes of the nodes. Each other stop is a fault of the disk or the
    /// host's memory, which is counted, or want of memory, or one that was answered before. One creation, three syncs.
    pub fn start_server(&mut self, name: &ServerName) -> Result<(), Stop>
        requires { is_listed name.now self.old.servers ≡ false }
        ensures acts { Acts H.state (MayStart name.now self.old.base.nodes) (Starts name.now self.old.base.nodes) (stop_of result) self.old.base self.new.base }
        ensures keeps { Acts H.state KeepsState KeepsState (stop_of result) self.old.base self.new.base }
        ensures starts { OnOk result (StartsServer name.now self.old self.new) }
        ensures err { OnErr result (SameBeside self.old self.new) }
        ensures none { IsNoCounter self.old.base.nodes.nodes next_session_path → IsErr result }
        ensures full { IsStartFull name.now self.old.base.nodes → IsErr result }
        ensures station { IsTrue (H.state self.old.base.host).is_faithful → MovesStation H.state (stop_of result) self.old self.new }
        ensures stops { self.old.base.stopped ≡ None → IfErr result (λ stop. StartServerCause name.now self.old.base.nodes self.old.servers stop (H.state self.old.base.host) (H.state self.new.base.host)) }
    {
        a_server_may_start();
        self.base.check()?;
        start_in(self.alloc, &mut self.base, &mut self.servers, name)
    }
}
