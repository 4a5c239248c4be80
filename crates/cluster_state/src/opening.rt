// How a cluster begins.
ghost use Rattle.std.specs.Prelude.{◌≡◌, [], None, IfErr, IfOk, OnOk, IsTrue};
ghost use Rattle.plain_model.specs.State.{PlainState};
ghost use Rattle.store_layout.specs.Tables.{Catalog};
ghost use Rattle.store_meaning.specs.Ground.{Ground as Known, IsGroundOf};
ghost use Rattle.store_meaning.specs.Levels.{Reading};
ghost use Rattle.store_meaning.specs.Kept.{IsKeptAs};
ghost use Rattle.server_nodes.specs.Ending.{clear_ops, servers_in, without_servers, TakeCause};
ghost use Rattle.server_nodes.specs.Grounds.{IsGroundWithout};
ghost use Rattle.cluster_state.specs.Opening.{Opens, host_behind};
ghost use Rattle.cluster_state.specs.Events.{KeepsStateFrom};
ghost use Rattle.cluster_state.specs.Station.{IsStationOf};

use crate::cluster::Cluster;
use entry_book::EntryBook;
use ground_store::Ground;
use host_model::{Host, Stop};
use hosted_memories::HostedMemories;
use server_list::ServerList;
use server_nodes::{clear, servers_may_be_taken_out};
use std::alloc::Global;

/// Takes the servers of an earlier run out of the nodes.
fn take_servers_out<H: Host>(alloc: Global, ground: &mut Ground<H>) -> Result<(), Stop>
    requires { ground.old.stopped ≡ None }
    ensures runs { OnOk result (ground.new.stopped ≡ None) }
    ensures keeps { KeepsStateFrom (H.state ground.old.host) (H.state ground.new.host) }
    ensures left { IsTrue (H.state ground.old.host).is_faithful → (known : Known) (reading : Reading) (catalog : Catalog) (plain : PlainState) → IsGroundOf (H.state ground.old.host).files known → IsKeptAs reading catalog known plain
        → OnOk result (IsGroundWithout (servers_in ground.old.nodes.nodes) reading catalog known plain (H.state ground.new.host).files) }
    ensures nodes { OnOk result (ground.new.nodes.nodes ≡ without_servers ground.old.nodes.nodes) }
    ensures none { OnOk result (clear_ops ground.old.nodes.nodes ≡ [] → ground.new ≡ ground.old) }
    ensures name { ground.new.nodes.name ≡ ground.old.nodes.name }
    ensures logs { ground.new.logs ≡ ground.old.logs }
    ensures stops { IfErr result (λ stop. TakeCause (clear_ops ground.old.nodes.nodes) ground.old.nodes stop (H.state ground.old.host) (H.state ground.new.host)) }
{
    servers_may_be_taken_out();
    ground.check()?;
    clear(alloc, ground)
}

impl<H: Host> Cluster<H> {
    /// The cluster of a ground that was just opened: it takes the servers of an earlier run out of the nodes, by one multi, or by
    /// none where there are none. No server is in the list, the clock is at 0, and no tablet is hosted. It hands the host back
    /// where it stops. What is kept stays so, with the same plain state, also in whatever a crash inside leaves.
    ///
    /// `Full` comes only where there is no room for that change. Each other stop is a fault of the disk or the host's memory, which
    /// is counted, or want of memory.
    pub fn open(alloc: Global, mut ground: Ground<H>) -> Result<Cluster<H>, (Stop, H)>
        requires { ground.stopped ≡ None }
        ensures opens { IfOk result (Opens ground) }
        ensures nodes { IfOk result (λ cluster. cluster.base.nodes.nodes ≡ without_servers ground.nodes.nodes) }
        ensures none { IfOk result (λ cluster. clear_ops ground.nodes.nodes ≡ [] → cluster.base ≡ ground) }
        ensures keeps { KeepsStateFrom (H.state ground.host) (H.state (host_behind result)) }
        ensures station { IsTrue (H.state ground.host).is_faithful → (known : Known) (reading : Reading) (catalog : Catalog) (plain : PlainState) → IsGroundOf (H.state ground.host).files known → IsKeptAs reading catalog known plain
            → IfOk result (λ cluster. (now : Known) × IsStationOf H.state cluster reading catalog now plain) }
        ensures stops { IfErr result (λ answer. TakeCause (clear_ops ground.nodes.nodes) ground.nodes answer.0 (H.state ground.host) (H.state answer.1)) }
    {
        match take_servers_out(alloc, &mut ground) {
            Ok(()) => Ok(Cluster {
                alloc,
                base: ground,
                servers: ServerList::new(alloc),
                book: EntryBook::new(alloc),
                hosted: HostedMemories::new(alloc),
                metadata: None,
                users: None,
            }),
            Err(stop) => Err((stop, ground.finish())),
        }
    }
}
