// A host in memory, which keeps every moment.
ghost use Rattle.std.specs.Prelude.{◌≡◌, [], IfOk};
ghost use Rattle.std.specs.FinMap as map;
ghost use Rattle.memory_host.specs.Crash.{picked};
ghost use Rattle.memory_host.specs.Memory.{Starts, memory_state};
ghost use Rattle.memory_host.specs.Plan.{count_of};

use crate::file_map::FileMap;
use crate::moments::Moments;
use crate::pick::Pick;
use crate::plan::{Plan, Turn};
use crate::script::Script;
use host_model::{Host, HostCall, HostFault, Name, Stop};
use std::alloc::{AllocError, Global};
use std::marker::Model;

/// A host in memory. It keeps every moment, and fails where it is told to.
///
/// Calls are numbered from 1. A call takes time and memory for the bytes that it is given, and time that grows with
/// the logarithm of the number of files; neither grows with the calls before it. The failures are this project's own.
#[derive(Drop)]
pub struct MemoryHost {
    alloc: Global,
    moments: Moments,
    script: Script,
    plan: Plan,
}

impl Model for MemoryHost {
    ghost use Rattle.memory_host.specs.Memory.{Memory, memory_code};
    ghost use Rattle.memory_host.specs.contracts.event.Event as event_type;
    ghost use Rattle.memory_host.specs.contracts.plan.Plan as plan_type;

    ghost Value = { Memory };

    ghost coded = { memory_code event_type.the_row.coded plan_type.the_row.coded };

    ghost view = { λ a. record { known = a.moments; script = a.script; plan = a.plan } };
}

impl MemoryHost {
    /// A host with no file and nothing said.
    ///
    /// The calls of these numbers fail, and so does each from call `stop` on. A failing write writes the first half of
    /// its bytes, and so does a failing `say`; another failing call does nothing. A crash falls into call `stop`.
    /// Takes memory for a copy of the script and of the numbers.
    pub fn new(
        alloc: Global,
        script: &[u8],
        failing: &[u64],
        stop: Option<u64>,
    ) -> Result<MemoryHost, AllocError>
        ensures { IfOk result (λ host. Starts map.empty script.now failing.now stop host) }
    {
        Self::start(alloc, FileMap::new(alloc), script, failing, stop)
    }

    /// A host as a crash leaves this one, with nothing said, on the picture that is picked.
    ///
    /// The crash is one within call `stop`, or one now where that was not reached. Takes memory for a copy of the
    /// script and of the numbers, and to lose writes, time and memory that grow with the number of changes.
    pub fn after_crash(
        self,
        script: &[u8],
        failing: &[u64],
        stop: Option<u64>,
        pick: Pick,
    ) -> Result<MemoryHost, AllocError>
        ensures starts { IfOk result (λ host. Starts (picked pick self.known) script.now failing.now stop host) }
        ensures left { IfOk result (λ host. (memory_state self).may_leave (record { image = (memory_state host).files; said = (memory_state self).said })) }
    {
        let MemoryHost {
            alloc,
            moments,
            script: _,
            plan: _,
        } = self;
        let files = moments.after_crash(pick)?;
        Self::start(alloc, files, script, failing, stop)
    }

    fn start(
        alloc: Global,
        files: FileMap,
        script: &[u8],
        failing: &[u64],
        stop: Option<u64>,
    ) -> Result<MemoryHost, AllocError>
        ensures { IfOk result (λ host. Starts files script.now failing.now stop host) }
    {
        Ok(MemoryHost {
            alloc,
            moments: Moments::new(alloc, files),
            script: Script::new(alloc, script)?,
            plan: Plan::new(alloc, failing, stop)?,
        })
    }

    /// How many calls were made of it.
    pub fn calls(&self) -> u64
        ensures { result ≡ self.now.plan.calls }
    {
        self.plan.calls
    }

    /// How many calls answered this fault.
    pub fn faults(&self, fault: HostFault) -> u64
        ensures { result ≡ count_of fault (memory_state self.now).faults }
    {
        self.plan.faults.of(fault)
    }

    /// The bytes that were said, in time that doesn't grow with them.
    pub fn said(&self) -> &[u8]
        ensures { result.now ≡ (memory_state self.now).said }
    {
        self.moments.said()
    }
}

impl Host for MemoryHost {
    ghost use Rattle.memory_host.specs.Memory.{memory_sound};

    ghost state = { memory_state };

    ghost sound = { memory_sound };

    fn names(&mut self, alloc: Global) -> Result<Vec<Name>, Stop> {
        if self.plan.fails(HostCall::Names, HostFault::Disk) {
            return Err(Stop::Host(HostFault::Disk));
        }
        match self.moments.names(alloc) {
            Ok(names) => Ok(names),
            Err(_) => Err(Stop::NoMemory),
        }
    }

    fn create(&mut self, name: &Name) -> Result<(), HostFault> {
        match self.plan.next(HostCall::Create, HostFault::Disk) {
            Turn::Works => {
                let empty = Vec::new(self.alloc);
                let made = self.moments.put(name, Some(empty));
                self.plan.checked(made)
            }
            Turn::Stops => {
                let _ = self.moments.cut_create(name);
                Err(HostFault::Disk)
            }
            Turn::Fails | Turn::Down => Err(HostFault::Disk),
        }
    }

    fn remove(&mut self, name: &Name) -> Result<(), HostFault> {
        match self.plan.next(HostCall::Remove, HostFault::Disk) {
            Turn::Works => {
                let removed = self.moments.put(name, None);
                self.plan.checked(removed)
            }
            Turn::Stops => {
                let _ = self.moments.cut_remove(name);
                Err(HostFault::Disk)
            }
            Turn::Fails | Turn::Down => Err(HostFault::Disk),
        }
    }

    fn length(&mut self, name: &Name) -> Result<Option<u64>, HostFault> {
        if self.plan.fails(HostCall::Length, HostFault::Disk) {
            return Err(HostFault::Disk);
        }
        match self.moments.get(name) {
            Some(file) => Ok(Some(file.len() as u64)),
            None => Ok(None),
        }
    }

    fn read(&mut self, name: &Name, at: u64, into: &mut [u8]) -> Result<(), HostFault> {
        if self.plan.fails(HostCall::Read, HostFault::Disk) {
            return Err(HostFault::Disk);
        }
        let Some(file) = self.moments.get(name) else {
            unreachable!()
        };
        let from = at as usize;
        into.copy_from_slice(&file[from..from + into.len()]);
        Ok(())
    }

    fn write(&mut self, name: &Name, at: u64, bytes: &[u8]) -> Result<(), HostFault> {
        match self.plan.next(HostCall::Write, HostFault::Disk) {
            Turn::Works => {
                let written = self.moments.write(name, at, bytes, bytes.len());
                self.plan.checked(written)
            }
            Turn::Fails | Turn::Stops => {
                let _ = self.moments.write(name, at, bytes, bytes.len() / 2);
                Err(HostFault::Disk)
            }
            Turn::Down => Err(HostFault::Disk),
        }
    }

    fn sync(&mut self, name: &Name) -> Result<(), HostFault> {
        if self.plan.fails(HostCall::Sync, HostFault::Disk) {
            return Err(HostFault::Disk);
        }
        let synced = self.moments.sync(name);
        self.plan.checked(synced)
    }

    fn hear(&mut self, into: &mut [u8]) -> Result<usize, HostFault> {
        if self.plan.fails(HostCall::Hear, HostFault::Source) {
            return Err(HostFault::Source);
        }
        Ok(self.script.hear(into))
    }

    fn say(&mut self, bytes: &[u8]) -> Result<(), HostFault> {
        match self.plan.next(HostCall::Say, HostFault::Sink) {
            Turn::Works => {
                let said = self.moments.say(bytes);
                self.plan.checked(said)
            }
            Turn::Fails | Turn::Stops => {
                let _ = self.moments.say(&bytes[..bytes.len() / 2]);
                Err(HostFault::Sink)
            }
            Turn::Down => Err(HostFault::Sink),
        }
    }
}
