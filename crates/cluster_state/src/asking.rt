// What is asked of the list of servers.
ghost use Rattle.std.specs.Prelude.{◌≡◌, false};
ghost use Rattle.std.specs.Option.{option_map_or};
ghost use Rattle.server_list.specs.Servers.{has_expired, is_listed, is_live, server_named};

use crate::cluster::Cluster;
use host_model::Host;
use row_keys::ServerName;

impl<H: Host> Cluster<H> {
    /// Whether a server of this name, live or killed, is in the list, so that none of this name can start. Takes no memory, and time
    /// with the number of servers.
    pub fn is_listed(&self, name: &ServerName) -> bool
        ensures { result ≡ is_listed name.now self.now.servers }
    {
        self.servers.is_listed(name)
    }

    /// Whether a live server of this name is in the list, so that it can be killed. Takes no memory, and time with the number of
    /// servers.
    pub fn is_live(&self, name: &ServerName) -> bool
        ensures { result ≡ option_map_or is_live (server_named name.now self.now.servers) false }
    {
        self.servers.is_live(name)
    }

    /// Whether a killed server of this name is in the list and has expired, so that it can be ended. Takes no memory, and time with
    /// the number of servers.
    pub fn has_expired(&self, name: &ServerName) -> bool
        ensures { result ≡ option_map_or (has_expired self.now.servers.clock) (server_named name.now self.now.servers) false }
    {
        self.servers.has_expired(name)
    }
}
