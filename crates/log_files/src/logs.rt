// Write-ahead logs of a host.
ghost use Rattle.std.specs.Prelude.{◌≡◌, ◌+◌, ◌↔◌, [], ◌∷◌, List, ℕ, Some, All, IfOk, IfErr, OnOk, OnErr, IsErr, IsErrOf, IsTrue, length};
ghost use Rattle.host_model.specs.Picture.{OnBytes, Becomes};
ghost use Rattle.host_model.specs.Calls.{Looks};
ghost use Rattle.host_model.specs.Stores.{Stores};
ghost use Rattle.journal_core.specs.Changes.{MayGain, Gains, MayMake};
ghost use Rattle.journal_core.specs.Journal.{Holds, IsOpen, IsFull, Appends, FileCause, AppendCause};
ghost use Rattle.metadata_schema.specs.declared.mutation.Mutation.{Mutation};
ghost use Rattle.log_files.specs.Mutations.{IsMutation, IsLogged};
ghost use Rattle.log_files.specs.Logs.{HasLog, HoldsLog, IsNoLog, AppendsMutation, ReadCause};

use crate::names::log_file;
use crate::records::read_records;
use host_model::{Host, Stop};
use journal_core::Journal;
use metadata_schema::Mutation;
use row_keys::LogName;
use std::alloc::Global;
use std::marker::Model;

/// The log of one session, to which its tablet server appends.
///
/// Contracts see its file's name, and the offset of the closed gate at which it goes on. The file is a journal whose records
/// are mutations.
#[derive(Debug, Drop)]
pub struct Log {
    journal: Journal,
}

impl Model for Log {
    ghost use Rattle.log_files.specs.Value.{LogValue};

    ghost Value = { LogValue };

    ghost view = { λ log. record { name = log.journal.name; end = log.journal.end } };
}

/// Makes a log of no mutation, in place of any file of its name.
///
/// Stops at a fault of the host, which is counted, or for want of memory, before it did anything. A fault or a crash on the
/// way leaves the file as it was, or there with at most one byte; no other file changes. On return it is on the disk. Takes
/// memory for the name; three calls of the host, one of them a sync.
pub fn create_log<H: Host>(alloc: Global, host: &mut H, log: &LogName) -> Result<Log, Stop>
    ensures stores { Stores log.now (MayMake 1) (Becomes (Some (0 ∷ []))) result (H.state host.old) (H.state host.new) }
    ensures made { IfOk result (λ made. made ≡ record { name = log.now; end = 0 }) }
    ensures holds { IsTrue (H.state host.new).is_faithful → OnOk result (HoldsLog log.now 0 [] (H.state host.new).files) }
    ensures opened { IsTrue (H.state host.new).is_faithful → OnOk result (IsOpen log.now 0 (H.state host.new).files) }
    ensures untouched { IsErrOf result Stop.NoMemory → host.new ≡ host.old }
    ensures stops { IfErr result (λ stop. FileCause stop (H.state host.old) (H.state host.new)) }
{
    let name = log_file(alloc, log)?;
    let journal = Journal::create(alloc, host, &name)?;
    Ok(Log { journal })
}

impl Log {
    /// Adds a mutation, given as the bytes that `mutation_bytes` makes of it. It is whole or absent whenever the machine
    /// stops, and on the disk on return.
    ///
    /// `Full` comes exactly where there are 2^32 bytes or more, or the file would have more than 2^40 up to and with its
    /// closed gate; then nothing was done. Each other stop is a fault of the host, which is counted; then the log has the
    /// mutation or lacks it, and is appended to no more. Takes no memory; six calls of the host, two of them syncs, and no
    /// open. The order of the writes is the journal's.
    pub fn append<H: Host>(&mut self, host: &mut H, framed: &[u8]) -> Result<(), Stop>
        requires { IsTrue (H.state host.old).is_faithful → IsOpen self.old.name self.old.end (H.state host.old).files }
        ensures stores { Stores self.old.name (OnBytes (MayGain self.old.end framed.now)) (OnBytes (Gains self.old.end framed.now)) result (H.state host.old) (H.state host.new) }
        ensures appends { (records : List (List ℕ)) → Holds self.old.name self.old.end records (H.state host.old).files → Appends self.old.name self.old.end records framed.now result (H.state host.old) (H.state host.new) }
        ensures logs { (mutations : List Mutation) (mutation : Mutation) → IsMutation framed.now mutation → HoldsLog self.old.name self.old.end mutations (H.state host.old).files → AppendsMutation self.old.name self.old.end mutations mutation result (H.state host.old) (H.state host.new) }
        ensures opened { IsTrue (H.state host.new).is_faithful → OnOk result (IsOpen self.new.name self.new.end (H.state host.new).files) }
        ensures ok { OnOk result (self.new ≡ record self.old { end = self.old.end + 5 + length framed.now }) }
        ensures err { OnErr result (self.new ≡ self.old) }
        ensures full { IsErrOf result Stop.Full ↔ IsFull self.old.end framed.now }
        ensures untouched { IsFull self.old.end framed.now → host.new ≡ host.old }
        ensures stops { IfErr result (λ stop. AppendCause self.old.end framed.now stop (H.state host.old) (H.state host.new)) }
    {
        self.journal.append(host, framed)
    }
}

/// The mutations of a log, in their order, as a crash may have left it: those before the first gate that isn't open. It
/// changes nothing.
///
/// `Damaged` names the log where its file isn't there, isn't a journal, or has a record that is no mutation, and only there;
/// each other stop is a fault of the host, which is counted, or want of memory. Takes memory for the file's bytes and the
/// mutations, and time with them; two calls of the host.
pub fn mutations<H: Host>(alloc: Global, host: &mut H, log: &LogName) -> Result<Vec<Mutation>, Stop>
    ensures looks { Looks (H.state host.old) (H.state host.new) }
    ensures are { IsTrue (H.state host.old).is_faithful → IfOk result (λ mutations. HasLog log.now mutations.items (H.state host.old).files) }
    ensures logged { IfOk result (λ mutations. All IsLogged mutations.items) }
    ensures damaged { IsTrue (H.state host.old).is_faithful → IsNoLog log.now (H.state host.old).files → IsErr result }
    ensures stops { IfErr result (λ stop. ReadCause log.now (IsNoLog log.now (H.state host.old).files) stop (H.state host.old) (H.state host.new)) }
{
    let name = log_file(alloc, log)?;
    let journal = Journal::open(alloc, host, &name)?;
    match read_records(alloc, journal.records())? {
        Some(mutations) => Ok(mutations),
        None => Err(Stop::Damaged(name)),
    }
}
