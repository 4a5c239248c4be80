// The tablet servers, and the clock.
ghost use Rattle.std.specs.Prelude.{◌≡◌, ◌+◌, ◌<◌, ◌^◌, ℕ, List, true, false, None, IfOk, MatchOption};
ghost use Rattle.std.specs.FinMap as map;
ghost use Rattle.std.specs.Option.{option_copied, option_map_or};
ghost use Rattle.server_list.specs.Servers.{is_live, server_named, ticked};
ghost use Rattle.server_list.specs.Places.{place_of};
ghost use Rattle.hosted_memories.specs.Hosted.{memories_of, of_others};
ghost use Rattle.cluster_state.specs.Killing.{KillsServer};
ghost use Rattle.cluster_state.specs.Station.{StaysStation};

use crate::cluster::Cluster;
use host_model::Host;
use hosted_memories::HostedMemories;
use metadata_schema::TabletRecord;
use row_keys::{Row, ServerName, SessionId};
use server_list::Place;
use std::alloc::AllocError;
use tablet_mem::TabletMem;

/// Drops the memories of the tablets on the server of this session, if it is one.
fn drop_hosted(hosted: &mut HostedMemories, session: Option<&SessionId>)
    ensures { MatchOption (option_copied session.entry) (hosted.new ≡ hosted.old) (λ dead. (row : List ℕ) → map.get hosted.new row ≡ of_others dead (map.get hosted.old row)) }
{
    if let Some(session) = session {
        hosted.drop_session(session);
    }
}

impl<H: Host> Cluster<H> {
    /// Where the tablet of this record is: on the live server whose session its `loc` names; unreachable where that names a killed
    /// one that expires later than now; else on none. Takes memory for a copy of the server's name.
    pub fn place(&self, tablet: &TabletRecord) -> Result<Place, AllocError>
        ensures { IfOk result (λ place. place ≡ place_of tablet.now.loc self.now.servers) }
    {
        self.servers.place(self.alloc, tablet)
    }

    /// The clock, in ticks; 0 at opening. Takes no memory.
    pub fn clock(&self) -> u64
        ensures is { result ≡ self.now.servers.clock }
        ensures fits { result < 2 ^ 63 }
    {
        self.servers.clock()
    }

    /// Lets the clock go on. Takes no memory.
    pub fn tick(&mut self, ticks: u64)
        requires { self.old.servers.clock + ticks < 2 ^ 63 }
        ensures is { self.new ≡ record self.old { servers = ticked ticks self.old.servers } }
        ensures station { StaysStation H.state None self.old self.new }
    {
        self.servers.tick(ticks);
    }

    /// The memory of the tablet whose record stands at this row, or none where it is on no live server. Takes no memory, and time with
    /// the logarithm of the hosted tablets.
    pub fn memory(&self, row: &Row) -> Option<&TabletMem>
        ensures { option_copied result ≡ memories_of self.now.hosted row.now }
    {
        self.hosted.get(row)
    }

    /// Kills the live server of this name: the memories of its tablets are gone, and it stays in the list, killed, and expires 30 ticks
    /// from now. The host is asked nothing. Takes no memory, and time with the numbers of servers and of hosted tablets.
    pub fn kill_server(&mut self, name: &ServerName)
        requires { option_map_or is_live (server_named name.now self.old.servers) false ≡ true }
        ensures kills { KillsServer name.now self.old self.new }
        ensures station { StaysStation H.state None self.old self.new }
    {
        drop_hosted(&mut self.hosted, self.servers.session_of(name));
        self.servers.kill(name);
    }
}
