// The list of servers, and the clock.
ghost use Rattle.std.specs.Prelude.{◌≡◌, ◌+◌, ◌<◌, ◌^◌, ℕ, List, true, false, Some, None, IfOk, OnOk, OnErr, is_some, position, nat_le};
ghost use Rattle.std.specs.Option.{option_copied, option_map, option_map_or};
ghost use Rattle.indexmap.specs.IndexMap.{values};
ghost use Rattle.metadata_schema.specs.Bytes.{same};
ghost use Rattle.server_list.specs.Servers.{Servers, at_opening, is_live, has_expired, is_listed, server_named, server_of, started, killed, ended, ticked};
ghost use Rattle.server_list.specs.Places.{place_of, place_until};
ghost use Rattle.server_list.specs.Value.{entry_of};

use crate::{Place, ServerEntry};
use indexmap::IndexMap;
use metadata_schema::TabletRecord;
use row_keys::{ServerName, SessionId};
use std::alloc::{AllocError, Global};
use std::marker::Model;

/// How many ticks after it was killed a server has expired.
const TICKS_TO_EXPIRY: u64 = 30;

/// What is known of the server of a session.
#[derive(Drop)]
struct Standing {
    name: ServerName,
    expires: Option<u64>,
}

/// The servers in order of start, and the clock. Contracts see a list of entries and the clock. Since each server starts under
/// a new name and a new session, no two have one name or one session.
#[derive(Drop)]
pub struct ServerList {
    servers: IndexMap<SessionId, Standing>,
    clock: u64,
}

impl Model for ServerList {
    ghost use Rattle.std.specs.Prelude.{◌<◌, ◌^◌, map};
    ghost use Rattle.server_list.specs.Servers.{Servers};
    ghost use Rattle.server_list.specs.Value.{entry_of, servers_code};
    ghost use Rattle.server_list.specs.contracts.entry.ServerEntry as server;

    ghost Value = { Servers };

    ghost coded = { servers_code server.the_row.coded };

    ghost view = { λ l. record { list = map entry_of l.servers.entries; clock = l.clock } };

    ghost invariant = { λ l. l.clock < 2 ^ 63 };
}

type Standings = IndexMap<SessionId, Standing>;

/// The place of the server of this name.
fn index_of(servers: &Standings, name: &ServerName) -> Option<usize>
    ensures { result ≡ position (λ standing. same name.now standing.name) (values servers.now) }
{
    servers.values().position(|standing| *name == standing.name)
}

fn entry_of(
    alloc: Global,
    session: &SessionId,
    standing: &Standing,
) -> Result<ServerEntry, AllocError>
    ensures { IfOk result (λ entry. entry ≡ entry_of (session.now, standing.now)) }
{
    Ok(ServerEntry {
        name: standing.name.copy(alloc)?,
        session: session.copy(alloc)?,
        expires: standing.expires,
    })
}

/// Whether there is an expiry and it has come.
fn is_past(clock: u64, expires: Option<u64>) -> bool
    ensures { result ≡ option_map_or (λ at. nat_le at clock) expires false }
{
    match expires {
        Some(at) => at <= clock,
        None => false,
    }
}

/// Where the tablets of the server of this name and expiry are.
fn place_until(clock: u64, name: ServerName, expires: Option<u64>) -> Place
    ensures { result ≡ place_until clock name expires }
{
    match expires {
        None => Place::Live(name),
        Some(at) if at <= clock => Place::Unhosted,
        Some(at) => Place::Unreachable(name, at),
    }
}

impl ServerList {
    /// No servers, and the clock at 0, as at the opening of a store. Takes no memory.
    pub fn new(alloc: Global) -> ServerList
        ensures { result ≡ at_opening }
    {
        ServerList {
            servers: IndexMap::new(alloc),
            clock: 0,
        }
    }

    /// The clock, in ticks. Takes no memory.
    pub fn clock(&self) -> u64
        ensures is { result ≡ self.now.clock }
        ensures fits { result < 2 ^ 63 }
    {
        self.clock
    }

    /// Puts a server of this name and session last, live. At want of memory nothing has changed. Takes amortized constant
    /// time.
    pub fn start(&mut self, name: ServerName, session: SessionId) -> Result<(), AllocError>
        requires new_name { is_listed name self.old ≡ false }
        requires new_session { server_of session self.old ≡ None }
        ensures ok { OnOk result (self.new ≡ started name session self.old) }
        ensures err { OnErr result (self.new ≡ self.old) }
    {
        let standing = Standing {
            name,
            expires: None,
        };
        self.servers.insert(session, standing)?;
        Ok(())
    }

    /// Whether a server of this name is in the list. Takes no memory, and time with the number of servers.
    pub fn is_listed(&self, name: &ServerName) -> bool
        ensures { result ≡ is_listed name.now self.now }
    {
        index_of(&self.servers, name).is_some()
    }

    /// Whether a live server of this name is in the list. Takes no memory, and time with the number of servers.
    pub fn is_live(&self, name: &ServerName) -> bool
        ensures { result ≡ option_map_or is_live (server_named name.now self.now) false }
    {
        match index_of(&self.servers, name) {
            Some(at) => self.servers[at].expires.is_none(),
            None => false,
        }
    }

    /// Whether a killed server of this name is in the list and has expired. Takes no memory, and time with the number of servers.
    pub fn has_expired(&self, name: &ServerName) -> bool
        ensures { result ≡ option_map_or (has_expired self.now.clock) (server_named name.now self.now) false }
    {
        match index_of(&self.servers, name) {
            Some(at) => is_past(self.clock, self.servers[at].expires),
            None => false,
        }
    }

    /// Kills the server of this name: it stays in the list, and expires 30 ticks from now. Takes no memory, and time with the
    /// number of servers.
    pub fn kill(&mut self, name: &ServerName)
        requires { option_map_or is_live (server_named name.now self.old) false ≡ true }
        ensures { self.new ≡ killed name.now self.old }
    {
        if let Some(at) = index_of(&self.servers, name) {
            self.servers[at].expires = Some(self.clock + TICKS_TO_EXPIRY);
        }
    }

    /// Takes the server of this name, which has expired, out of the list. Takes no memory, and time with the number of
    /// servers.
    pub fn end(&mut self, name: &ServerName)
        requires { option_map_or (has_expired self.old.clock) (server_named name.now self.old) false ≡ true }
        ensures { self.new ≡ ended name.now self.old }
    {
        if let Some(at) = index_of(&self.servers, name) {
            self.servers.shift_remove_index(at);
        }
    }

    /// The server of this session, live or killed, if it is in the list. Takes constant time on average, and memory for a copy.
    pub fn server_of(
        &self,
        alloc: Global,
        session: &SessionId,
    ) -> Result<Option<ServerEntry>, AllocError>
        ensures { IfOk result (λ found. found ≡ server_of session.now self.now) }
    {
        match self.servers.get_full(session) {
            Some((_, session, standing)) => Ok(Some(entry_of(alloc, session, standing)?)),
            None => Ok(None),
        }
    }

    /// The session of the server of this name, live or killed, if it is in the list. Takes no memory, and time with the number of
    /// servers.
    pub fn session_of(&self, name: &ServerName) -> Option<&SessionId>
        ensures { option_copied result ≡ option_map (λ server. server.session) (server_named name.now self.now) }
    {
        match index_of(&self.servers, name) {
            Some(at) => match self.servers.get_index(at) {
                Some((session, _)) => Some(session),
                None => None,
            },
            None => None,
        }
    }

    /// Whether a server of this session, live or killed, is in the list. Takes no memory, and constant time on average.
    pub fn has_session(&self, session: &SessionId) -> bool
        ensures { result ≡ is_some (server_of session.now self.now) }
    {
        self.servers.contains_key(session)
    }

    /// Where the tablet of this record is, by its `loc`. Takes constant time on average, and memory for a copy of the name.
    pub fn place(&self, alloc: Global, tablet: &TabletRecord) -> Result<Place, AllocError>
        ensures { IfOk result (λ place. place ≡ place_of tablet.now.loc self.now) }
    {
        let Some(holder) = &tablet.loc else {
            return Ok(Place::Unhosted);
        };
        let Some(standing) = self.servers.get(&holder.session) else {
            return Ok(Place::Unhosted);
        };
        let name = standing.name.copy(alloc)?;
        Ok(place_until(self.clock, name, standing.expires))
    }

    /// All servers, in order of start. Takes memory for copies, and time with their number.
    pub fn entries(&self, alloc: Global) -> Result<Vec<ServerEntry>, AllocError>
        ensures { IfOk result (λ entries. entries.items ≡ self.now.list) }
    {
        let mut entries = Vec::new(alloc);
        for (session, standing) in &self.servers {
            entries.push(entry_of(alloc, session, standing)?)?;
        }
        Ok(entries)
    }

    /// Lets the clock go on. Takes no memory.
    pub fn tick(&mut self, ticks: u64)
        requires { self.old.clock + ticks < 2 ^ 63 }
        ensures { self.new ≡ ticked ticks self.old }
    {
        self.clock += ticks;
    }
}
