// Which calls fail, and how many have.
ghost use Rattle.std.specs.Prelude.{◌≡◌, IfOk};
ghost use Rattle.host_model.specs.Calls.{NoneFalls};
ghost use Rattle.memory_host.specs.Plan.{Checks, IsNewPlan, NextFails, Plans, count_of, faults_of, raised, turn_of};

use host_model::{HostCall, HostFault};
use std::alloc::{AllocError, Global};
use std::collections::BTreeSet;

/// How often each kind of call has failed.
#[derive(Clone, Copy)]
pub struct FaultCounts {
    pub disk: u64,
    pub source: u64,
    pub sink: u64,
    pub memory: u64,
}

impl FaultCounts {
    pub fn new() -> FaultCounts
        ensures { result ≡ record { disk = 0; source = 0; sink = 0; memory = 0 } }
    {
        FaultCounts {
            disk: 0,
            source: 0,
            sink: 0,
            memory: 0,
        }
    }

    /// How often a call has failed in this way.
    pub fn of(&self, fault: HostFault) -> u64
        ensures { result ≡ count_of fault (faults_of self.now) }
    {
        match fault {
            HostFault::Disk => self.disk,
            HostFault::Source => self.source,
            HostFault::Sink => self.sink,
            HostFault::Memory => self.memory,
        }
    }

    /// Counts a fault. A count at its last value stays there.
    pub fn raise(&mut self, fault: HostFault)
        ensures counted { self.new ≡ raised fault self.old }
        ensures falls { NoneFalls (faults_of self.old) (faults_of self.new) }
    {
        match fault {
            HostFault::Disk => self.disk = self.disk.saturating_add(1),
            HostFault::Source => self.source = self.source.saturating_add(1),
            HostFault::Sink => self.sink = self.sink.saturating_add(1),
            HostFault::Memory => self.memory = self.memory.saturating_add(1),
        }
    }
}

/// What becomes of a call.
#[derive(Clone, Copy, Debug, PartialEq, Eq)]
pub enum Turn {
    Works,
    Fails,
    /// A crash falls into it.
    Stops,
    /// A crash came before it.
    Down,
}

/// Which calls fail, by their numbers from 1.
#[derive(Drop)]
pub struct Plan {
    pub failing: BTreeSet<u64>,
    pub stop: Option<u64>,
    pub calls: u64,
    pub faults: FaultCounts,
    // the counts that the newest call found
    pub found: FaultCounts,
    pub last: Option<HostCall>,
}

impl Plan {
    pub fn new(alloc: Global, failing: &[u64], stop: Option<u64>) -> Result<Plan, AllocError>
        ensures { IfOk result (λ plan. IsNewPlan failing.now stop plan) }
    {
        let mut calls = BTreeSet::new(alloc);
        for call in failing {
            calls.insert(*call)?;
        }
        Ok(Plan {
            failing: calls,
            stop,
            calls: 0,
            faults: FaultCounts::new(),
            found: FaultCounts::new(),
            last: None,
        })
    }

    /// Numbers a call of this kind, says what becomes of it, and counts it as this fault unless it works.
    ///
    /// Its time grows with the logarithm of the number of failing calls.
    pub fn next(&mut self, call: HostCall, fault: HostFault) -> Turn
        ensures { Plans call fault result self.old self.new }
    {
        self.calls = self.calls.saturating_add(1);
        self.found = self.faults;
        self.last = Some(call);
        let turn = self.turn();
        if turn != Turn::Works {
            self.faults.raise(fault);
        }
        turn
    }

    /// Numbers a call of this kind, and says if it fails, where it doesn't matter how.
    pub fn fails(&mut self, call: HostCall, fault: HostFault) -> bool
        ensures { NextFails call fault result self.old self.new }
    {
        match self.next(call, fault) {
            Turn::Works => false,
            Turn::Fails | Turn::Stops | Turn::Down => true,
        }
    }

    /// Hands on what was done, or counts that there was no memory for it.
    pub fn checked(&mut self, done: Result<(), AllocError>) -> Result<(), HostFault>
        ensures { Checks done result self.old self.new }
    {
        match done {
            Ok(()) => Ok(()),
            Err(_) => {
                self.faults.raise(HostFault::Memory);
                Err(HostFault::Memory)
            }
        }
    }

    fn turn(&self) -> Turn
        ensures { result ≡ turn_of self.now }
    {
        if let Some(stop) = self.stop {
            if stop < self.calls {
                return Turn::Down;
            }
            if stop == self.calls {
                return Turn::Stops;
            }
        }
        if self.failing.contains(&self.calls) {
            Turn::Fails
        } else {
            Turn::Works
        }
    }
}
