// A host in memory, which keeps no moments.
ghost use Rattle.std.specs.Prelude.{◌≡◌, IfOk};
ghost use Rattle.memory_host.specs.Quiet.{CountsMemory, IsNewQuiet, quiet_state};

use crate::file_map::FileMap;
use crate::script::Script;
use host_model::{Host, HostCall, HostFault, Name, Stop};
use std::alloc::{AllocError, Global};
use std::marker::Model;

/// A host in memory for long runs. It keeps no moments and fails no call, unless there is no memory.
///
/// A call takes time for the bytes that it is given, and time that grows with the logarithm of the number of files.
/// It is this project's own.
#[derive(Drop)]
pub struct QuietHost {
    alloc: Global,
    files: FileMap,
    said: Vec<u8>,
    script: Script,
    memory_faults: u64,
    // the count that the newest call found
    found: u64,
    last: Option<HostCall>,
}

impl Model for QuietHost {
    ghost use Rattle.memory_host.specs.Quiet.{Quiet, quiet_code};
    ghost use Rattle.host_model.specs.contracts.call.HostCall as call;

    ghost Value = { Quiet };

    ghost coded = { quiet_code call.the_row.coded };

    ghost view = { λ a. record { files = a.files; said = a.said.items; script = a.script; memory = a.memory_faults; found = a.found; last = a.last } };
}

impl QuietHost {
    /// A host with no file and nothing said. Takes memory for a copy of the script.
    pub fn new(alloc: Global, script: &[u8]) -> Result<QuietHost, AllocError>
        ensures { IfOk result (λ host. IsNewQuiet script.now host) }
    {
        Ok(QuietHost {
            alloc,
            files: FileMap::new(alloc),
            said: Vec::new(alloc),
            script: Script::new(alloc, script)?,
            memory_faults: 0,
            found: 0,
            last: None,
        })
    }

    /// The bytes that were said, in time that doesn't grow with them.
    pub fn said(&self) -> &[u8]
        ensures { result.now ≡ (quiet_state self.now).said }
    {
        &self.said
    }
}

// Hands on what was done, or counts that there was no memory for it.
fn checked(faults: &mut u64, done: Result<(), AllocError>) -> Result<(), HostFault>
    ensures { CountsMemory done result faults.old faults.new }
{
    match done {
        Ok(()) => Ok(()),
        Err(_) => {
            *faults = faults.saturating_add(1);
            Err(HostFault::Memory)
        }
    }
}

impl Host for QuietHost {
    ghost use Rattle.memory_host.specs.Quiet.{quiet_sound};

    ghost state = { quiet_state };

    ghost sound = { quiet_sound };

    fn names(&mut self, alloc: Global) -> Result<Vec<Name>, Stop> {
        self.found = self.memory_faults;
        self.last = Some(HostCall::Names);
        match self.files.names(alloc) {
            Ok(names) => Ok(names),
            Err(_) => Err(Stop::NoMemory),
        }
    }

    fn create(&mut self, name: &Name) -> Result<(), HostFault> {
        self.found = self.memory_faults;
        self.last = Some(HostCall::Create);
        let empty = Vec::new(self.alloc);
        let made = self.files.replace(self.alloc, name, empty);
        checked(&mut self.memory_faults, made)
    }

    fn remove(&mut self, name: &Name) -> Result<(), HostFault> {
        self.found = self.memory_faults;
        self.last = Some(HostCall::Remove);
        self.files.discard(name);
        Ok(())
    }

    fn length(&mut self, name: &Name) -> Result<Option<u64>, HostFault> {
        self.found = self.memory_faults;
        self.last = Some(HostCall::Length);
        match self.files.get(name) {
            Some(file) => Ok(Some(file.len() as u64)),
            None => Ok(None),
        }
    }

    fn read(&mut self, name: &Name, at: u64, into: &mut [u8]) -> Result<(), HostFault> {
        self.found = self.memory_faults;
        self.last = Some(HostCall::Read);
        let Some(file) = self.files.get(name) else {
            unreachable!()
        };
        let from = at as usize;
        into.copy_from_slice(&file[from..from + into.len()]);
        Ok(())
    }

    fn write(&mut self, name: &Name, at: u64, bytes: &[u8]) -> Result<(), HostFault> {
        self.found = self.memory_faults;
        self.last = Some(HostCall::Write);
        let written = self.files.write(name, at as usize, bytes);
        checked(&mut self.memory_faults, written)
    }

    fn sync(&mut self, _name: &Name) -> Result<(), HostFault> {
        self.found = self.memory_faults;
        self.last = Some(HostCall::Sync);
        Ok(())
    }

    fn hear(&mut self, into: &mut [u8]) -> Result<usize, HostFault> {
        self.found = self.memory_faults;
        self.last = Some(HostCall::Hear);
        Ok(self.script.hear(into))
    }

    fn say(&mut self, bytes: &[u8]) -> Result<(), HostFault> {
        self.found = self.memory_faults;
        self.last = Some(HostCall::Say);
        let said = self.said.extend_from_slice(bytes);
        checked(&mut self.memory_faults, said)
    }
}
