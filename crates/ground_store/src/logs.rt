// Write-ahead logs, and sorted logs.
ghost use Rattle.std.specs.Prelude.{◌≡◌, ◌↔◌, ◌+◌, ◌<◌, [], ◌∷◌, List, ℕ, None, Some, All, IfErr, IfOk, IsErr, IsErrOf, IsSome, OnErr, OnOk, IsTrue, length};
ghost use Rattle.std.specs.FinMap as map;
ghost use Rattle.host_model.specs.Alters.{Alters};
ghost use Rattle.host_model.specs.Calls.{Looks};
ghost use Rattle.host_model.specs.declared.fault.Stop.TheVariants.{Full};
ghost use Rattle.journal_core.specs.Journal.{IsFull, AppendCause};
ghost use Rattle.log_files.specs.Mutations.{IsLogged};
ghost use Rattle.log_files.specs.Logs.{HasLog, IsNoLog, ReadCause};
ghost use Rattle.log_files.specs.Sorted.{sorted_name, AreInOrder, HasSorted, IsNoSorted};
ghost use Rattle.store_layout.specs.Names.{IsFile};
ghost use Rattle.ground_store.specs.Value.{log_at};
ghost use Rattle.ground_store.specs.Acts.{Acts, stop_of};
ghost use Rattle.ground_store.specs.Steps.{Stays, MayWrite, Writes, WritesSort, MayAppend, Appends};
ghost use Rattle.ground_store.specs.Causes.{FileCause};

use crate::again::{again, keep};
use crate::ground::Ground;
use host_model::{Host, Stop};
use log_files::{create_log, mutations, read_sorted, write_sorted};
use metadata_schema::Mutation;
use row_keys::LogName;
use std::alloc::Global;

/// Writes the sorted file of a log.
fn write_sort<H: Host>(
    alloc: Global,
    host: &mut H,
    log: &LogName,
    mutations: &[Mutation],
) -> Result<(), Stop>
    requires { All IsLogged mutations.now }
    ensures alters { Alters (IsFile (sorted_name log.now)) (MayWrite (sorted_name log.now)) (WritesSort (sorted_name log.now) mutations.now) result (H.state host.old) (H.state host.new) }
    ensures stops { IfErr result (λ stop. FileCause stop (H.state host.old) (H.state host.new)) }
{
    write_sorted(alloc, host, log, mutations)
}

impl<H: Host> Ground<H> {
    /// Makes the log of this name, with no mutations, in place of one of its name. On the disk at `Ok`. A stop or a crash
    /// inside may leave anything in that one file. One creation, one write and one sync.
    pub fn make_log(&mut self, log: &LogName) -> Result<(), Stop>
        ensures acts { Acts H.state (MayWrite log.now) (Writes log.now (0 ∷ [])) (stop_of result) self.old self.new }
        ensures made { OnOk result (self.new.logs ≡ map.insert self.old.logs log.now (record { name = log.now; end = 0 })) }
        ensures nodes { self.new.nodes ≡ self.old.nodes }
        ensures stops { self.old.stopped ≡ None → IfErr result (λ stop. FileCause stop (H.state self.old.host) (H.state self.new.host)) }
    {
        if let Some(stop) = &self.stopped {
            return Err(again(self.alloc, stop));
        }
        let name = match log.copy(self.alloc) {
            Ok(name) => name,
            Err(_) => return Err(keep(self.alloc, &mut self.stopped, Stop::NoMemory)),
        };
        let made = match create_log(self.alloc, &mut self.host, log) {
            Ok(made) => made,
            Err(stop) => return Err(keep(self.alloc, &mut self.stopped, stop)),
        };
        match self.logs.insert(name, made) {
            Ok(()) => Ok(()),
            Err(_) => Err(keep(self.alloc, &mut self.stopped, Stop::NoMemory)),
        }
    }

    /// Adds a mutation, given as the bytes that `mutation_bytes` makes of it, to a log that was made by this value and isn't
    /// removed. Whole or absent at a stop or a crash, and on the disk at `Ok`. `Full` comes exactly where there are 2^32 bytes
    /// or more, or the log would have more than 2^40; then the host is asked nothing. Takes no memory. Two syncs, and no open.
    pub fn log_append(&mut self, log: &LogName, framed: &[u8]) -> Result<(), Stop>
        requires { IsSome (map.get self.old.logs log.now) }
        ensures acts { Acts H.state (MayAppend log.now (log_at self.old.logs log.now).end framed.now) (Appends log.now (log_at self.old.logs log.now).end framed.now) (stop_of result) self.old self.new }
        ensures goes_on { OnOk result (self.new.logs ≡ map.insert self.old.logs log.now (record (log_at self.old.logs log.now) { end = (log_at self.old.logs log.now).end + 5 + length framed.now })) }
        ensures err { OnErr result (self.new.logs ≡ self.old.logs) }
        ensures nodes { self.new.nodes ≡ self.old.nodes }
        ensures full { self.old.stopped ≡ None → IsErrOf result Full ↔ IsFull (log_at self.old.logs log.now).end framed.now }
        ensures untouched { IsFull (log_at self.old.logs log.now).end framed.now → self.new.host ≡ self.old.host }
        ensures stops { self.old.stopped ≡ None → IfErr result (λ stop. AppendCause (log_at self.old.logs log.now).end framed.now stop (H.state self.old.host) (H.state self.new.host)) }
    {
        if let Some(stop) = &self.stopped {
            return Err(again(self.alloc, stop));
        }
        match self.logs.append(&mut self.host, log, framed) {
            Ok(()) => Ok(()),
            Err(stop) => Err(keep(self.alloc, &mut self.stopped, stop)),
        }
    }

    /// The mutations of a log, in their order. `Damaged` names the log, exactly where its file isn't there or isn't a log.
    pub fn log_mutations(&mut self, log: &LogName) -> Result<Vec<Mutation>, Stop>
        ensures acts { Acts H.state Stays Stays (stop_of result) self.old self.new }
        ensures are { IsTrue (H.state self.old.host).is_faithful → IfOk result (λ mutations. HasLog log.now mutations.items (H.state self.old.host).files) }
        ensures logged { IfOk result (λ mutations. All IsLogged mutations.items) }
        ensures damaged { IsTrue (H.state self.old.host).is_faithful → IsNoLog log.now (H.state self.old.host).files → IsErr result }
        ensures same { (self.new.nodes ≡ self.old.nodes) × (self.new.logs ≡ self.old.logs) }
        ensures stops { self.old.stopped ≡ None → IfErr result (λ stop. ReadCause log.now (IsNoLog log.now (H.state self.old.host).files) stop (H.state self.old.host) (H.state self.new.host)) }
    {
        if let Some(stop) = &self.stopped {
            return Err(again(self.alloc, stop));
        }
        match mutations(self.alloc, &mut self.host, log) {
            Ok(found) => Ok(found),
            Err(stop) => Err(keep(self.alloc, &mut self.stopped, stop)),
        }
    }

    /// Writes the sorted file of a log: these mutations by table, row and time, and those that agree in all three in the order
    /// that they have here. On the disk at `Ok`. A stop or a crash inside may leave anything in that one file, so nothing
    /// should name it yet. One creation, one write and one sync; time n log n for n mutations.
    pub fn put_sorted(&mut self, log: &LogName, mutations: &[Mutation]) -> Result<(), Stop>
        requires { All IsLogged mutations.now }
        ensures acts { Acts H.state (MayWrite (sorted_name log.now)) (WritesSort (sorted_name log.now) mutations.now) (stop_of result) self.old self.new }
        ensures same { (self.new.nodes ≡ self.old.nodes) × (self.new.logs ≡ self.old.logs) }
        ensures stops { self.old.stopped ≡ None → IfErr result (λ stop. FileCause stop (H.state self.old.host) (H.state self.new.host)) }
    {
        if let Some(stop) = &self.stopped {
            return Err(again(self.alloc, stop));
        }
        match write_sort(self.alloc, &mut self.host, log, mutations) {
            Ok(()) => Ok(()),
            Err(stop) => Err(keep(self.alloc, &mut self.stopped, stop)),
        }
    }

    /// The mutations of a log's sorted file, in their order. `Damaged` names the sorted file, exactly where it isn't there or
    /// isn't a sorted log.
    pub fn sorted_mutations(&mut self, log: &LogName) -> Result<Vec<Mutation>, Stop>
        ensures acts { Acts H.state Stays Stays (stop_of result) self.old self.new }
        ensures are { IsTrue (H.state self.old.host).is_faithful → IfOk result (λ mutations. HasSorted (sorted_name log.now) mutations.items (H.state self.old.host).files) }
        ensures logged { IfOk result (λ mutations. All IsLogged mutations.items) }
        ensures in_order { IfOk result (λ mutations. AreInOrder mutations.items) }
        ensures damaged { IsTrue (H.state self.old.host).is_faithful → IsNoSorted (sorted_name log.now) (H.state self.old.host).files → IsErr result }
        ensures same { (self.new.nodes ≡ self.old.nodes) × (self.new.logs ≡ self.old.logs) }
        ensures stops { self.old.stopped ≡ None → IfErr result (λ stop. ReadCause (sorted_name log.now) (IsNoSorted (sorted_name log.now) (H.state self.old.host).files) stop (H.state self.old.host) (H.state self.new.host)) }
    {
        if let Some(stop) = &self.stopped {
            return Err(again(self.alloc, stop));
        }
        match read_sorted(self.alloc, &mut self.host, log) {
            Ok(found) => Ok(found),
            Err(stop) => Err(keep(self.alloc, &mut self.stopped, stop)),
        }
    }
}
