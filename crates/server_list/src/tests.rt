// Worked rows, by the rules that a killed server expires 30 ticks later and that a tablet is where its session is.
use super::*;
use metadata_schema::{Holder, TabletRecord};
use row_keys::{ListOf, Octets, ServerName, SessionId, TableId};
use std::alloc::Global;
use std::test::Fail;

fn name(alloc: Global, text: &[u8]) -> Result<ServerName, Fail> {
    Ok(ServerName::new(alloc, text)?.ok_or("no server's name")?)
}

fn session(alloc: Global, text: &[u8]) -> Result<SessionId, Fail> {
    Ok(SessionId::new(alloc, text)?.ok_or("no session")?)
}

/// The root tablet, with this session in its `loc`.
fn tablet(alloc: Global, holder: Option<Holder>) -> Result<TabletRecord, Fail> {
    Ok(TabletRecord {
        table: TableId::new(alloc, b"+r")?.ok_or("no table's id")?,
        end: None,
        prev: None,
        old_prev: None,
        dir: Octets::new(alloc, b"root_tablet")?,
        time: 0,
        loc: holder,
        future: None,
        files: ListOf::new(alloc),
        logs: ListOf::new(alloc),
        loaded: ListOf::new(alloc),
        chopped: false,
        merged: None,
    })
}

/// The root tablet on a server of this session.
fn held(alloc: Global, text: &[u8]) -> Result<TabletRecord, Fail> {
    let holder = Holder {
        session: session(alloc, text)?,
        server: name(alloc, b"other")?,
    };
    tablet(alloc, Some(holder))
}

/// Starts a server, where no server has its name or session.
fn start(servers: &mut ServerList, alloc: Global, text: &[u8], id: &[u8]) -> Result<bool, Fail> {
    let name = name(alloc, text)?;
    let session = session(alloc, id)?;
    if servers.is_listed(&name) || servers.server_of(alloc, &session)?.is_some() {
        return Ok(false);
    }
    servers.start(name, session)?;
    Ok(true)
}

/// Kills a server, where it is live.
fn kill(servers: &mut ServerList, alloc: Global, text: &[u8]) -> Result<bool, Fail> {
    let name = name(alloc, text)?;
    if !servers.is_live(&name) {
        return Ok(false);
    }
    servers.kill(&name);
    Ok(true)
}

/// Takes a server out, where it has expired.
fn end(servers: &mut ServerList, alloc: Global, text: &[u8]) -> Result<bool, Fail> {
    let name = name(alloc, text)?;
    if !servers.has_expired(&name) {
        return Ok(false);
    }
    servers.end(&name);
    Ok(true)
}

fn tick(servers: &mut ServerList, ticks: u32) -> Result<(), Fail> {
    if servers.clock() > 1_000_000 {
        return Err("too late".into());
    }
    servers.tick(u64::from(ticks));
    Ok(())
}

/// The servers, each as `NAME live` or `NAME EXPIRY`.
fn listed(servers: &ServerList, alloc: Global) -> Result<String, Fail> {
    let mut text = String::new(alloc);
    for entry in servers.entries(alloc)? {
        for byte in entry.name.as_bytes() {
            text.push(char::from(*byte))?;
        }
        text.push(' ')?;
        match entry.expires {
            Some(at) => text.push_str(&at.to_string(alloc)?)?,
            None => text.push_str("live")?,
        }
        text.push(';')?;
    }
    Ok(text)
}

const FIRST: &[u8] = b"0000000000000001";

const SECOND: &[u8] = b"0000000000000002";

#[test]
fn servers_start_die_and_end_in_order(rt: HostRuntime) -> Result<(), Fail> {
    let alloc = rt.alloc();
    let mut servers = ServerList::new(alloc);
    assert!(rt; start(&mut servers, alloc, b"b", FIRST)?);
    assert!(rt; start(&mut servers, alloc, b"a", SECOND)?);
    assert_eq!(rt; listed(&servers, alloc)?.as_str(), "b live;a live;");
    assert!(rt; !start(&mut servers, alloc, b"c", FIRST)?);
    tick(&mut servers, 5)?;
    assert!(rt; kill(&mut servers, alloc, b"b")?);
    assert_eq!(rt; listed(&servers, alloc)?.as_str(), "b 35;a live;");
    assert!(rt; !kill(&mut servers, alloc, b"b")?);
    tick(&mut servers, 29)?;
    assert!(rt; !end(&mut servers, alloc, b"b")?);
    tick(&mut servers, 1)?;
    assert_eq!(rt; servers.clock(), 35);
    assert!(rt; end(&mut servers, alloc, b"b")?);
    assert_eq!(rt; listed(&servers, alloc)?.as_str(), "a live;");
    Ok(())
}

#[test]
fn a_tablet_is_where_its_session_is(rt: HostRuntime) -> Result<(), Fail> {
    let alloc = rt.alloc();
    let mut servers = ServerList::new(alloc);
    assert!(rt; start(&mut servers, alloc, b"a", FIRST)?);
    let nowhere = tablet(alloc, None)?;
    let elsewhere = held(alloc, SECOND)?;
    let on_first = held(alloc, FIRST)?;
    assert!(rt; matches!(servers.place(alloc, &nowhere)?, Place::Unhosted));
    assert!(rt; matches!(servers.place(alloc, &elsewhere)?, Place::Unhosted));
    assert!(rt; matches!(servers.place(alloc, &on_first)?, Place::Live(_)));
    tick(&mut servers, 7)?;
    assert!(rt; kill(&mut servers, alloc, b"a")?);
    assert!(rt; matches!(servers.place(alloc, &on_first)?, Place::Unreachable(_, 37)));
    tick(&mut servers, 29)?;
    assert!(rt; matches!(servers.place(alloc, &on_first)?, Place::Unreachable(_, 37)));
    tick(&mut servers, 1)?;
    assert!(rt; matches!(servers.place(alloc, &on_first)?, Place::Unhosted));
    Ok(())
}
