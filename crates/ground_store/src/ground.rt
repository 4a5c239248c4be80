// The ground as a value.
ghost use Rattle.std.specs.Prelude.{◌≡◌, None, IfErr, IfOk, OnOk, IsTrue};
ghost use Rattle.host_model.specs.Picture.{file_names};
ghost use Rattle.ground_store.specs.Acts.{Acts, stop_of};
ghost use Rattle.ground_store.specs.Causes.{FileCause};
ghost use Rattle.ground_store.specs.Steps.{Stays};

use crate::again::{again, keep};
use crate::log_map::LogMap;
use host_model::{Host, Name, Stop};
use node_store::NodeStore;
use std::alloc::Global;
use std::marker::Model;

/// The nodes, the data files and the logs of a store, over a host that it owns.
///
/// After a stop it asks nothing of the host any more, and answers the same stop to each call that can answer one, or
/// `NoMemory` where the copy of a damaged file's name finds none. While it hasn't stopped, nothing that it wrote is pending.
#[derive(Drop)]
pub struct Ground<H: Host> {
    pub(crate) alloc: Global,
    pub(crate) host: H,
    pub(crate) nodes: NodeStore,
    pub(crate) logs: LogMap,
    pub(crate) stopped: Option<Stop>,
}

impl<H: Host> Model for Ground<H> {
    ghost use Rattle.std.specs.Prelude.{◌≡◌, None};
    ghost use Rattle.ground_store.specs.Value.{GroundValue, IsAtRest};
    ghost use Rattle.ground_store.specs.Codes.{ground_code};

    ghost Value = { GroundValue H };

    ghost coded = { ground_code H.code };

    ghost view = { λ g. record { host = g.host; nodes = g.nodes; logs = g.logs; stopped = g.stopped } };

    ghost invariant = { λ g. g.stopped ≡ None → IsAtRest g.nodes g.logs (H.state g.host) };
}

impl<H: Host> Ground<H> {
    /// Hands the host back.
    pub fn finish(self) -> H
        ensures { result ≡ self.host }
    {
        self.host
    }

    /// The nodes, as the last multi that was Ok left them. Takes no memory.
    pub fn nodes(&self) -> &NodeStore
        ensures { result.now ≡ self.now.nodes }
    {
        &self.nodes
    }

    /// The names of the host's files, in byte order. Asks the host once. A stop is a fault of the disk or the host's memory,
    /// which is counted, or want of memory.
    pub fn names_left(&mut self) -> Result<Vec<Name>, Stop>
        ensures acts { Acts H.state Stays Stays (stop_of result) self.old self.new }
        ensures names { IsTrue (H.state self.old.host).is_faithful → IfOk result (λ names. names.items ≡ file_names (H.state self.old.host).files) }
        ensures same { (self.new.nodes ≡ self.old.nodes) × (self.new.logs ≡ self.old.logs) }
        ensures stops { self.old.stopped ≡ None → IfErr result (λ stop. FileCause stop (H.state self.old.host) (H.state self.new.host)) }
    {
        if let Some(stop) = &self.stopped {
            return Err(again(self.alloc, stop));
        }
        match self.host.names(self.alloc) {
            Ok(names) => Ok(names),
            Err(stop) => Err(keep(self.alloc, &mut self.stopped, stop)),
        }
    }
}
