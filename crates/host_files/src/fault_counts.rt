// How often each kind of call has failed.
ghost use Rattle.std.specs.Prelude.{◌≡◌, Ok, Err, IfErr, OnOk, MatchResult};
ghost use Rattle.host_model.specs.Calls.{NoneFalls, Counted, IsOfFiles};
ghost use Rattle.host_files.specs.Silent.{no_faults, raised};
ghost use Rattle.host_files.specs.FileFaults.{fault_of};

use crate::file_fault::FileFault;
use host_model::HostFault;
use std::marker::Model;

/// Four counts of failed calls, each of which stays at its last value once it is there.
#[derive(Drop)]
pub struct FaultCounts {
    disk: u64,
    source: u64,
    sink: u64,
    memory: u64,
}

impl Model for FaultCounts {
    ghost use Rattle.host_model.specs.State.{Faults};

    ghost Value = { Faults };

    ghost view = { λ counts. record { disk = counts.disk; source = counts.source; sink = counts.sink; memory = counts.memory } };
}

impl FaultCounts {
    /// No fault yet.
    pub fn new() -> FaultCounts
        ensures { result ≡ no_faults }
    {
        FaultCounts {
            disk: 0,
            source: 0,
            sink: 0,
            memory: 0,
        }
    }

    /// The same counts again.
    pub fn copy(&self) -> FaultCounts
        ensures { result ≡ self.now }
    {
        FaultCounts {
            disk: self.disk,
            source: self.source,
            sink: self.sink,
            memory: self.memory,
        }
    }

    /// Counts a fault.
    pub fn raise(&mut self, fault: HostFault)
        ensures raised { self.new ≡ raised fault self.old }
        ensures counted { Counted fault self.old self.new }
        ensures none_falls { NoneFalls self.old self.new }
    {
        match fault {
            HostFault::Disk => self.disk = self.disk.saturating_add(1),
            HostFault::Source => self.source = self.source.saturating_add(1),
            HostFault::Sink => self.sink = self.sink.saturating_add(1),
            HostFault::Memory => self.memory = self.memory.saturating_add(1),
        }
    }

    /// Counts the fault of a call on files, if it failed, and hands its outcome on.
    pub fn counted<T>(&mut self, outcome: Result<T, FileFault>) -> Result<T, HostFault>
        ensures outcome { MatchResult outcome (λ value. result ≡ Ok value) (λ fault. result ≡ Err (fault_of fault)) }
        ensures uncounted { OnOk result (self.new ≡ self.old) }
        ensures raised { IfErr result (λ fault. self.new ≡ raised fault self.old) }
        ensures counted { IfErr result (λ fault. IsOfFiles fault × Counted fault self.old self.new) }
        ensures none_falls { NoneFalls self.old self.new }
    {
        let fault = match outcome {
            Ok(value) => return Ok(value),
            Err(FileFault::Disk) => HostFault::Disk,
            Err(FileFault::Memory) => HostFault::Memory,
        };
        self.raise(fault);
        Err(fault)
    }
}
