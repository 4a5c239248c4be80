// The host that the program runs over.
ghost use Rattle.std.specs.Prelude.{◌≡◌, ◌≤◌, length, IfOk};
ghost use Rattle.host_files.specs.Silent.{no_tally};

use crate::directory::Directory;
use crate::fault_counts::FaultCounts;
use crate::file_fault::FileFault;
use host_model::{Host, HostCall, HostFault, Name, Stop};
use std::alloc::{AllocError, Global};
use std::fs::Files;
use std::io;
use std::io::{ErrorKind, Input, Print, Read};
use std::marker::Model;

/// The files of one directory, the script on the standard input, and the replies on the standard output. Contracts see
/// its four counts of faults, as they stand and as the last call found them, and which kind of call that was.
///
/// What a disk or a stream holds is known to no contract, so this host is neither faithful nor honest, and its contracts
/// say only which fault a call may answer and that it was counted. On a system that keeps what it promises each call does
/// what `Host` says of it.
///
/// - The directory is opened by the first call on files. Where it isn't there, that call and those after it are disk
///   faults, and nothing is made.
/// - A file stays open from its first use on. Where 64 are open, all are let go before one more is opened.
/// - After a fault in a read or a write nothing is promised of that call's bytes, and the file is opened anew.
/// - After a sync that failed each later one is a disk fault too, since a system may take what it lost for written.
/// - Want of memory is a memory fault, in `names` it is `Stop::NoMemory`.
///
/// All of this is this project's own.
#[derive(Drop)]
pub struct FilesHost<R: Files + Input + Print + Drop> {
    rt: R,
    input: R::Reader,
    directory: Directory<R>,
    faults: FaultCounts,
    // the counts that the newest call found
    found: FaultCounts,
    last: Option<HostCall>,
}

impl<R: Files + Input + Print + Drop> Model for FilesHost<R> {
    ghost use Rattle.host_files.specs.Silent.{Tally};

    ghost Value = { Tally };

    ghost view = { λ host. record { now = host.faults; found = host.found; last = host.last } };
}

impl<R: Files + Input + Print + Drop> FilesHost<R> {
    /// A host over the directory at this path, with no fault yet. Touches no disk and reads no input.
    ///
    /// The only error is want of memory for a copy of the path.
    pub fn new(rt: R, alloc: Global, dir: &str) -> Result<FilesHost<R>, AllocError>
        ensures { IfOk result (λ host. host ≡ no_tally) }
    {
        let directory = Directory::new(alloc, dir)?;
        let input = rt.reader();
        Ok(FilesHost {
            rt,
            input,
            directory,
            faults: FaultCounts::new(),
            found: FaultCounts::new(),
            last: None,
        })
    }
}

impl<R: Files + Input + Print + Drop> Host for FilesHost<R> {
    ghost use Rattle.host_files.specs.Silent.{silent_state, silent_sound};

    ghost state = { silent_state };

    ghost sound = { silent_sound };

    /// The names of the regular files, in byte order. A file whose name isn't of the form of a `Name` is passed over, and so
    /// are directories and links.
    ///
    /// One call of the system for each entry of the directory, and time as for a sort.
    fn names(&mut self, alloc: Global) -> Result<Vec<Name>, Stop> {
        self.found = self.faults.copy();
        self.last = Some(HostCall::Names);
        match self.directory.names(&self.rt, alloc) {
            Ok(names) => Ok(names),
            Err(FileFault::Memory) => Err(Stop::NoMemory),
            Err(FileFault::Disk) => {
                self.faults.raise(HostFault::Disk);
                Err(Stop::Host(HostFault::Disk))
            }
        }
    }

    /// Makes the file with no bytes, also where there was one. This is lasting on return, and a crash inside leaves the
    /// file as it was or with no bytes.
    ///
    /// Two syncs, of the file and of the directory.
    fn create(&mut self, name: &Name) -> Result<(), HostFault> {
        self.found = self.faults.copy();
        self.last = Some(HostCall::Create);
        let done = self.directory.create(&self.rt, name);
        self.faults.counted(done)
    }

    /// Takes the file away, if it is there. This is lasting on return, and a crash inside leaves the file whole or not there.
    ///
    /// One sync, of the directory.
    fn remove(&mut self, name: &Name) -> Result<(), HostFault> {
        self.found = self.faults.copy();
        self.last = Some(HostCall::Remove);
        let done = self.directory.remove(&self.rt, name);
        self.faults.counted(done)
    }

    /// How many bytes the file has, or none exactly where it isn't there. One call of the system.
    fn length(&mut self, name: &Name) -> Result<Option<u64>, HostFault> {
        self.found = self.faults.copy();
        self.last = Some(HostCall::Length);
        let length = self.directory.length(&self.rt, name);
        self.faults.counted(length)
    }

    /// Fills `into` with the file's bytes from this offset on. A disk fault where it isn't there or ends before.
    ///
    /// One call of the system where the last read or write ended here, two elsewhere.
    fn read(&mut self, name: &Name, at: u64, into: &mut [u8]) -> Result<(), HostFault> {
        self.found = self.faults.copy();
        self.last = Some(HostCall::Read);
        let done = self.directory.read(&self.rt, name, at, into);
        self.faults.counted(done)
    }

    /// Puts all the bytes into the file from this offset on. A disk fault where it isn't there.
    ///
    /// No sync: a crash before the file's next sync may leave any bytes in this range. One call of the system where the last
    /// read or write ended here, two elsewhere.
    fn write(&mut self, name: &Name, at: u64, bytes: &[u8]) -> Result<(), HostFault> {
        self.found = self.faults.copy();
        self.last = Some(HostCall::Write);
        let done = self.directory.write(&self.rt, name, at, bytes);
        self.faults.counted(done)
    }

    /// Waits until the file's bytes and length are on the disk. A disk fault where it isn't there.
    ///
    /// One sync of the file's data, and one of the directory where it isn't known to be synced: at a host's first `sync` or
    /// after a fault in a `create` or `remove`.
    fn sync(&mut self, name: &Name) -> Result<(), HostFault> {
        self.found = self.faults.copy();
        self.last = Some(HostCall::Sync);
        let done = self.directory.sync(&self.rt, name);
        self.faults.counted(done)
    }

    /// The next bytes of the standard input, at least one, or 0 at its end. Waits until there are some. One call of the system.
    fn hear(&mut self, into: &mut [u8]) -> Result<usize, HostFault> {
        self.found = self.faults.copy();
        self.last = Some(HostCall::Hear);
        match heard(&mut self.input, into) {
            Ok(count) => Ok(count),
            Err(_) => {
                self.faults.raise(HostFault::Source);
                Err(HostFault::Source)
            }
        }
    }

    /// Writes all the bytes to the standard output, past every buffer of this process. One call of the system, unless the
    /// reader takes less at once. A crash inside leaves a front of them said.
    fn say(&mut self, bytes: &[u8]) -> Result<(), HostFault> {
        self.found = self.faults.copy();
        self.last = Some(HostCall::Say);
        match Print::write_all(&self.rt, bytes) {
            Ok(()) => Ok(()),
            Err(_) => {
                self.faults.raise(HostFault::Sink);
                Err(HostFault::Sink)
            }
        }
    }
}

// Reads once, and again where a signal interrupts the read.
fn heard<I: Read>(input: &mut I, into: &mut [u8]) -> io::Result<usize>
    ensures { IfOk result (λ count. count ≤ length into.new) }
{
    for _ in 0..u64::MAX {
        match input.read(into) {
            Err(error) if error.kind() == ErrorKind::Interrupted => {}
            read => return read,
        }
    }
    Err(io::Error::from(ErrorKind::Interrupted))
}
