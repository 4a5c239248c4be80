// A server that has expired goes.
ghost use Rattle.std.specs.Prelude.{◌≡◌, [], ◌∷◌, true, false, None, IfErr, OnOk, OnErr, IsTrue};
ghost use Rattle.std.specs.FinMap as map;
ghost use Rattle.std.specs.Option.{option_map_or};
ghost use Rattle.node_store.specs.Steps.{MayGive, Gives};
ghost use Rattle.ground_store.specs.Acts.{Acts, stop_of};
ghost use Rattle.server_list.specs.Servers.{ended, has_expired, server_named};
ghost use Rattle.server_nodes.specs.Sessions.{server_path};
ghost use Rattle.server_nodes.specs.Ending.{delete_op, TakeCause};
ghost use Rattle.cluster_state.specs.Events.{KeepsState};
ghost use Rattle.cluster_state.specs.Starting.{SameBeside};
ghost use Rattle.cluster_state.specs.Ending.{EndsServer};
ghost use Rattle.cluster_state.specs.Station.{MovesStation};

use crate::cluster::Cluster;
use host_model::{Host, Stop};
use row_keys::ServerName;
use server_nodes::{end, servers_may_be_taken_out};

impl<H: Host> Cluster<H> {
    /// Takes the server of this name, which has expired, out of the list and out of the nodes; its log stays. What is kept stays so,
    /// with the same plain state, also in whatever a crash inside leaves.
    ///
    /// `Full` comes only where there is no room for the change. Each other stop is a fault of the disk or the host's memory, which is
    /// counted, or want of memory, or one that was answered before. One multi: two syncs.
    pub fn end_server(&mut self, name: &ServerName) -> Result<(), Stop>
        requires { option_map_or (has_expired self.old.servers.clock) (server_named name.now self.old.servers) false ≡ true }
        ensures acts { Acts H.state (MayGive (delete_op (server_path name.now) ∷ []) self.old.base.nodes) (Gives (delete_op (server_path name.now) ∷ []) self.old.base.nodes) (stop_of result) self.old.base self.new.base }
        ensures keeps { Acts H.state KeepsState KeepsState (stop_of result) self.old.base self.new.base }
        ensures ends { OnOk result (EndsServer name.now self.old self.new) }
        ensures err { OnErr result (SameBeside self.old self.new) }
        ensures station { IsTrue (H.state self.old.base.host).is_faithful → MovesStation H.state (stop_of result) self.old self.new }
        ensures stops { self.old.base.stopped ≡ None → IfErr result (λ stop. TakeCause (delete_op (server_path name.now) ∷ []) self.old.base.nodes stop (H.state self.old.base.host) (H.state self.new.base.host)) }
    {
        servers_may_be_taken_out();
        self.base.check()?;
        match end(self.alloc, &mut self.base, name) {
            Ok(()) => {
                self.servers.end(name);
                Ok(())
            }
            Err(stop) => Err(stop),
        }
    }
}
