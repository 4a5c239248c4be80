// Servers and files of one cluster.
use crate::tests::acts::{end, kill, put_new_file, server, start, tick};
use crate::tests::events::{Came, Event, prepared};
use cluster_state::Cluster;
use ground_store::Ground;
use memory_host::{MemoryHost, Pick};
use row_keys::ServerName;
use std::alloc::Global;
use std::test::Fail;

fn new_cluster(alloc: Global) -> Result<Cluster<MemoryHost>, Fail> {
    let host = prepared(alloc, Event::StartServer)?.after_crash(b"", &[], None, Pick::Kept)?;
    let Ok(ground) = Ground::open(alloc, host) else {
        return Err(Fail::from("the store doesn't open"));
    };
    let Ok(cluster) = Cluster::open(alloc, ground) else {
        return Err(Fail::from("no cluster"));
    };
    Ok(cluster)
}

/// Whether a server of this name is listed, is live, and has expired.
fn seen(cluster: &Cluster<MemoryHost>, name: &ServerName) -> (bool, bool, bool) {
    (
        cluster.is_listed(name),
        cluster.is_live(name),
        cluster.has_expired(name),
    )
}

/// The cluster with a server that was started at 5 and killed at 105, at 105 and so many ticks.
fn killed(alloc: Global, ticks: u32) -> Result<Cluster<MemoryHost>, Fail> {
    let mut cluster = new_cluster(alloc)?;
    tick(&mut cluster, 5);
    start(alloc, &mut cluster)?;
    tick(&mut cluster, 100);
    kill(alloc, &mut cluster)?;
    tick(&mut cluster, ticks);
    Ok(cluster)
}

#[test]
fn a_started_server_is_live(rt: HostRuntime) -> Result<(), Fail> {
    let mut cluster = new_cluster(rt.alloc())?;
    let name = server(rt.alloc())?;
    assert_eq!(rt; seen(&cluster, &name), (false, false, false));
    start(rt.alloc(), &mut cluster)?;
    assert_eq!(rt; seen(&cluster, &name), (true, true, false));
    Ok(())
}

#[test]
fn a_killed_server_expires_thirty_ticks_later(rt: HostRuntime) -> Result<(), Fail> {
    let name = server(rt.alloc())?;
    let cluster = killed(rt.alloc(), 29)?;
    assert_eq!(rt; seen(&cluster, &name), (true, false, false));
    let cluster = killed(rt.alloc(), 30)?;
    assert_eq!(rt; seen(&cluster, &name), (true, false, true));
    Ok(())
}

#[test]
fn an_expired_server_goes(rt: HostRuntime) -> Result<(), Fail> {
    let name = server(rt.alloc())?;
    let mut cluster = killed(rt.alloc(), 30)?;
    assert_eq!(rt; end(rt.alloc(), &mut cluster)?, Came::Done);
    assert_eq!(rt; seen(&cluster, &name), (false, false, false));
    Ok(())
}

// The first file of a new store has the number 1 and 222 bytes.
#[test]
fn a_new_file_has_the_next_number(rt: HostRuntime) -> Result<(), Fail> {
    let mut cluster = new_cluster(rt.alloc())?;
    let Ok(file) = put_new_file(rt.alloc(), &mut cluster)? else {
        return Err(Fail::from("no file"));
    };
    assert_eq!(rt;
        file.path.as_bytes(),
        b"+r/root_tablet/A0000002.rf".as_slice()
    );
    assert_eq!(rt; file.size, 222);
    Ok(())
}
