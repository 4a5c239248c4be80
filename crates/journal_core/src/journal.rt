// A journal over one file of a host.
ghost use Rattle.std.specs.Prelude.{◌≡◌, ◌⊎◌, ◌+◌, ◌↔◌, [], ◌∷◌, List, ℕ, Some, IfOk, IfErr, OnOk, OnErr, IsErr, IsErrOf, IsTrue, length};
ghost use Rattle.host_model.specs.Picture.{OnBytes, Becomes};
ghost use Rattle.host_model.specs.Calls.{Looks};
ghost use Rattle.host_model.specs.Kinds.{IsLook};
ghost use Rattle.host_model.specs.Stores.{Stores};
ghost use Rattle.host_model.specs.declared.call.HostCall.TheVariants.{Sync};
ghost use Rattle.journal_core.specs.Changes.{MayGain, Gains, MayMake};
ghost use Rattle.journal_core.specs.Journal.{Holds, IsOpen, IsFull, IsDamaged, Appends, FileCause, OpenCause, AppendCause};

use crate::format::{CLOSED, HEADER, MAX_LENGTH, MAX_PAYLOAD, OPEN};
use crate::reading::{read_file, read_records};
use crate::writing::{write_body, write_synced};
use host_model::{Host, Name, Stop};
use row_keys::Octets;
use std::alloc::Global;
use std::marker::Model;

/// A file of records to which one process appends.
///
/// Contracts see the file's name, the offset of the closed gate, and the records that it keeps.
/// The file is a run of records, each a gate byte 1, a big-endian length of four bytes and the
/// payload; then a gate byte that isn't 1, behind which anything may stand. The format is this
/// project's own.
#[derive(Debug, Drop)]
pub struct Journal {
    name: Name,
    end: u64,
    records: Vec<Octets>,
}

impl Model for Journal {
    ghost use Rattle.journal_core.specs.Value.{JournalValue};

    ghost Value = { JournalValue };

    ghost view = { λ journal. record { name = journal.name; end = journal.end; records = journal.records.items } };
}

/// Whether the payload is too long, or would bring the journal past its greatest length.
fn is_full(end: u64, payload: &[u8]) -> bool
    ensures { IsTrue result ↔ IsFull end payload.now }
{
    payload.len() > MAX_PAYLOAD
        || end > MAX_LENGTH
        || end + HEADER as u64 + payload.len() as u64 + 1 > MAX_LENGTH
}

impl Journal {
    /// Makes a journal of no record, in place of any file of this name.
    ///
    /// Stops at a fault of the host, which is counted, or for want of memory, before it did
    /// anything. A fault or a crash on the way leaves the file as it was, or there with at most one
    /// byte. Takes memory for the name; three calls of the host, one of them a sync.
    pub fn create<H: Host>(alloc: Global, host: &mut H, name: &Name) -> Result<Journal, Stop>
        ensures stores { Stores name.now (MayMake 1) (Becomes (Some (0 ∷ []))) result (H.state host.old) (H.state host.new) }
        ensures made { IfOk result (λ journal. journal ≡ record { name = name.now; end = 0; records = [] }) }
        ensures holds { IsTrue (H.state host.new).is_faithful → OnOk result (Holds name.now 0 [] (H.state host.new).files) }
        ensures opened { IsTrue (H.state host.new).is_faithful → OnOk result (IsOpen name.now 0 (H.state host.new).files) }
        ensures last { OnOk result ((H.state host.new).last ≡ Some Sync) }
        ensures untouched { IsErrOf result Stop.NoMemory → host.new ≡ host.old }
        ensures stops { IfErr result (λ stop. FileCause stop (H.state host.old) (H.state host.new)) }
    {
        let own = name.copy(alloc)?;
        host.create(name)?;
        write_synced(host, name, 0, &[CLOSED])?;
        Ok(Journal {
            name: own,
            end: 0,
            records: Vec::new(alloc),
        })
    }

    /// Opens a journal, as a crash may have left it. It changes nothing.
    ///
    /// `Damaged` names the file where it isn't there or isn't a journal's; each other stop is a
    /// fault of the host, which is counted, or want of memory, and then the host is as it was or its
    /// last call only asked. Takes memory for the whole file and its records, and time that grows
    /// with the file; two calls of the host.
    pub fn open<H: Host>(alloc: Global, host: &mut H, name: &Name) -> Result<Journal, Stop>
        ensures looks { Looks (H.state host.old) (H.state host.new) }
        ensures last { OnOk result (IsLook (H.state host.new).last) }
        ensures name { IfOk result (λ journal. journal.name ≡ name.now) }
        ensures holds { IsTrue (H.state host.old).is_faithful → IfOk result (λ journal. Holds name.now journal.end journal.records (H.state host.old).files) }
        ensures opened { IsTrue (H.state host.new).is_faithful → IfOk result (λ journal. IsOpen name.now journal.end (H.state host.new).files) }
        ensures damaged { IsTrue (H.state host.old).is_faithful → IsDamaged name.now (H.state host.old).files → IsErr result }
        ensures asked { IsErrOf result Stop.NoMemory → (host.new ≡ host.old) ⊎ IsLook (H.state host.new).last }
        ensures stops { IfErr result (λ stop. OpenCause name.now stop (H.state host.old) (H.state host.new)) }
    {
        let own = name.copy(alloc)?;
        let Some(bytes) = read_file(alloc, host, name)? else {
            return Err(Stop::Damaged(own));
        };
        match read_records(alloc, &bytes)? {
            Some(contents) => Ok(Journal {
                name: own,
                end: contents.end as u64,
                records: contents.records,
            }),
            None => Err(Stop::Damaged(own)),
        }
    }

    /// Adds a record, which is whole or absent whenever the machine stops, and on the disk on return.
    ///
    /// `Full` comes exactly where the payload has 2^32 bytes or more, or the file would have more
    /// than 2^40 bytes up to and with its closed gate; then nothing was done. Each other stop is a
    /// fault of the host, which is counted; then the file has the record or lacks it, and is to be
    /// opened again before the next append. Takes no memory; six calls of the host, two of them
    /// syncs. The order of the writes is this project's own: the gate that is opened stood closed
    /// on the disk.
    pub fn append<H: Host>(&mut self, host: &mut H, payload: &[u8]) -> Result<(), Stop>
        requires { IsTrue (H.state host.old).is_faithful → IsOpen self.old.name self.old.end (H.state host.old).files }
        ensures stores { Stores self.old.name (OnBytes (MayGain self.old.end payload.now)) (OnBytes (Gains self.old.end payload.now)) result (H.state host.old) (H.state host.new) }
        ensures appends { (records : List (List ℕ)) → Holds self.old.name self.old.end records (H.state host.old).files → Appends self.old.name self.old.end records payload.now result (H.state host.old) (H.state host.new) }
        ensures opened { IsTrue (H.state host.new).is_faithful → OnOk result (IsOpen self.new.name self.new.end (H.state host.new).files) }
        ensures ok { OnOk result (self.new ≡ record self.old { end = self.old.end + 5 + length payload.now }) }
        ensures last { OnOk result ((H.state host.new).last ≡ Some Sync) }
        ensures err { OnErr result (self.new ≡ self.old) }
        ensures full { IsErrOf result Stop.Full ↔ IsFull self.old.end payload.now }
        ensures untouched { IsFull self.old.end payload.now → host.new ≡ host.old }
        ensures stops { IfErr result (λ stop. AppendCause self.old.end payload.now stop (H.state host.old) (H.state host.new)) }
    {
        if is_full(self.end, payload) {
            return Err(Stop::Full);
        }
        write_body(host, &self.name, self.end + 1, payload)?;
        write_synced(host, &self.name, self.end, &[OPEN])?;
        self.end += HEADER as u64 + payload.len() as u64;
        Ok(())
    }

    /// The records that it opened with, in their order, until it forgets them. Those that it
    /// appends are never among them.
    pub fn records(&self) -> &[Octets]
        ensures { result.now ≡ self.now.records }
    {
        &self.records
    }

    /// Gives up the records that it keeps, and their memory. The file stays as it is.
    pub fn forget_records(&mut self)
        ensures { self.new ≡ record self.old { records = [] } }
    {
        self.records = Vec::new(*self.records.allocator());
    }

    /// The name of its file.
    pub fn name(&self) -> &Name
        ensures { result.now ≡ self.now.name }
    {
        &self.name
    }
}
