// The events that are tried, each on a cluster that was just opened.
ghost use Rattle.std.specs.Prelude.{IsTrue};
ghost use Rattle.host_model.specs.Leaves.{AllSettled};

use crate::tests::acts::{
    change_nodes, how_far, put_and_remove_file, put_and_remove_sorted, put_far_file, put_new_file,
    put_sorted, start, start_and_end,
};
use cluster_state::Cluster;
use ground_store::Ground;
use host_model::Host;
use memory_host::MemoryHost;
use std::alloc::Global;
use std::test::Fail;

#[derive(Clone, Copy, Debug, PartialEq, Eq)]
pub enum Event {
    /// A cluster is opened where an earlier run left a server.
    Open,
    StartServer,
    EndServer,
    ChangeNodes,
    DrawName,
    PutNewFile,
    /// The file of a given path.
    PutFile,
    RemoveFile,
    PutSorted,
    RemoveName,
}

pub const EVENTS: [Event; 10] = [
    Event::Open,
    Event::StartServer,
    Event::EndServer,
    Event::ChangeNodes,
    Event::DrawName,
    Event::PutNewFile,
    Event::PutFile,
    Event::RemoveFile,
    Event::PutSorted,
    Event::RemoveName,
];

/// How far an event came.
#[derive(Clone, Copy, Debug, PartialEq, Eq)]
pub enum Came {
    /// What it stands on stopped.
    NotThere,
    Stopped,
    Done,
}

/// Takes the event on an open cluster.
fn act<H: Host + Drop>(
    alloc: Global,
    cluster: &mut Cluster<H>,
    event: Event,
) -> Result<Came, Fail> {
    match event {
        Event::Open => Ok(Came::Done),
        Event::StartServer => start(alloc, cluster),
        Event::EndServer => start_and_end(alloc, cluster),
        Event::ChangeNodes => change_nodes(alloc, cluster),
        Event::DrawName => Ok(how_far(cluster.draw_name())),
        Event::PutNewFile => Ok(how_far(put_new_file(alloc, cluster)?)),
        Event::PutFile => put_far_file(alloc, cluster),
        Event::RemoveFile => put_and_remove_file(alloc, cluster),
        Event::PutSorted => put_sorted(alloc, cluster),
        Event::RemoveName => put_and_remove_sorted(alloc, cluster),
    }
}

/// The host of a new store, with a server of an earlier run where the event is about that.
pub fn prepared(alloc: Global, event: Event) -> Result<MemoryHost, Fail> {
    let host = MemoryHost::new(alloc, b"", &[], None)?;
    let Ok(ground) = Ground::init(alloc, host) else {
        return Err(Fail::from("no new store"));
    };
    let Ok(mut cluster) = Cluster::open(alloc, ground) else {
        return Err(Fail::from("no cluster"));
    };
    if event == Event::Open {
        start(alloc, &mut cluster)?;
    }
    Ok(cluster.finish().2)
}

/// Opens the store of this host, and takes the event. Answers how far it came, and hands the host back.
pub fn taken<H: Host + Drop>(alloc: Global, host: H, event: Event) -> Result<(Came, H), Fail>
    requires { IsTrue (H.state host).is_honest → AllSettled (H.state host) }
{
    let ground = match Ground::open(alloc, host) {
        Ok(ground) => ground,
        Err((_, host)) => return Ok((Came::NotThere, host)),
    };
    match Cluster::open(alloc, ground) {
        Ok(mut cluster) => {
            let came = act(alloc, &mut cluster, event)?;
            Ok((came, cluster.finish().2))
        }
        Err((_, host)) => Ok((Came::Stopped, host)),
    }
}
