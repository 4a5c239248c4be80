// A host that counts.
ghost use Rattle.std.specs.Prelude.{◌≡◌};

use crate::counts::Counts;
use host_model::{Host, HostFault, Name, Stop};
use std::alloc::Global;

/// A host that asks another one, and counts the calls on its files. Contracts see it as that other one.
#[derive(Drop)]
pub struct CountingHost<H: Host> {
    asked: H,
    counts: Counts,
}

impl<H: Host> CountingHost<H> {
    /// No call was counted yet.
    pub fn new(asked: H) -> CountingHost<H>
        ensures { result ≡ record { asked = asked; counts = record { creates = 0; removes = 0; writes = 0; syncs = 0; looks = 0 } } }
    {
        CountingHost {
            asked,
            counts: Counts::new(),
        }
    }

    /// How often it was asked.
    pub fn counts(&self) -> Counts
        ensures { result ≡ self.now.counts }
    {
        self.counts
    }
}

impl<H: Host> Host for CountingHost<H> {
    ghost state = { λ host. H.state host.asked };

    ghost sound = { λ host. H.sound host.asked };

    fn names(&mut self, alloc: Global) -> Result<Vec<Name>, Stop> {
        self.counts.looks = self.counts.looks.saturating_add(1);
        self.asked.names(alloc)
    }

    fn create(&mut self, name: &Name) -> Result<(), HostFault> {
        self.counts.creates = self.counts.creates.saturating_add(1);
        self.asked.create(name)
    }

    fn remove(&mut self, name: &Name) -> Result<(), HostFault> {
        self.counts.removes = self.counts.removes.saturating_add(1);
        self.asked.remove(name)
    }

    fn length(&mut self, name: &Name) -> Result<Option<u64>, HostFault> {
        self.counts.looks = self.counts.looks.saturating_add(1);
        self.asked.length(name)
    }

    fn read(&mut self, name: &Name, at: u64, into: &mut [u8]) -> Result<(), HostFault> {
        self.counts.looks = self.counts.looks.saturating_add(1);
        self.asked.read(name, at, into)
    }

    fn write(&mut self, name: &Name, at: u64, bytes: &[u8]) -> Result<(), HostFault> {
        self.counts.writes = self.counts.writes.saturating_add(1);
        self.asked.write(name, at, bytes)
    }

    fn sync(&mut self, name: &Name) -> Result<(), HostFault> {
        self.counts.syncs = self.counts.syncs.saturating_add(1);
        self.asked.sync(name)
    }

    fn hear(&mut self, into: &mut [u8]) -> Result<usize, HostFault> {
        self.asked.hear(into)
    }

    fn say(&mut self, bytes: &[u8]) -> Result<(), HostFault> {
        self.asked.say(bytes)
    }
}
