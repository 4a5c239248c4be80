// Sorted logs of a host.
ghost use Rattle.std.specs.Prelude.{◌≡◌, All, IfOk, IfErr, IsErr, IsErrOf, IsTrue, length};
ghost use Rattle.host_model.specs.Calls.{Looks};
ghost use Rattle.host_model.specs.Stores.{Stores};
ghost use Rattle.journal_core.specs.Changes.{MayMake};
ghost use Rattle.journal_core.specs.Journal.{FileCause};
ghost use Rattle.log_files.specs.Mutations.{IsLogged};
ghost use Rattle.log_files.specs.Logs.{ReadCause};
ghost use Rattle.log_files.specs.Sorted.{sorted_name, spelled_sorted, AreInOrder, HasSorted, IsNoSorted, BecomesSortOf, WritesSorted};

use crate::names::sorted_file;
use crate::order::sorted;
use crate::sorted_bytes::{read, spell};
use crate::whole_file::{read_whole, write_synced};
use host_model::{Host, Stop};
use metadata_schema::Mutation;
use row_keys::LogName;
use std::alloc::Global;

/// Writes the sorted file of a log, in place of any file of its name: these mutations by table, row and time, and those that
/// agree in all three in the order that they have here.
///
/// Each mutation is one that the format spells, in less than 2^32 bytes. Stops at a fault of the host, which is counted, or
/// for want of memory, before it did anything. A fault or a crash on the way leaves the file as it was, or there with any
/// bytes, at most as many as it would have; no other file changes. On return it is on the disk. Takes memory for the file's
/// bytes and for references to the mutations twice over, and n log n time for n mutations; three calls of the host: one
/// create, one write, one sync.
pub fn write_sorted<H: Host>(
    alloc: Global,
    host: &mut H,
    log: &LogName,
    mutations: &[Mutation],
) -> Result<(), Stop>
    requires { All IsLogged mutations.now }
    ensures stores { Stores (sorted_name log.now) (MayMake (length (spelled_sorted mutations.now))) (BecomesSortOf mutations.now) result (H.state host.old) (H.state host.new) }
    ensures writes { WritesSorted (sorted_name log.now) mutations.now result (H.state host.old) (H.state host.new) }
    ensures untouched { IsErrOf result Stop.NoMemory → host.new ≡ host.old }
    ensures stops { IfErr result (λ stop. FileCause stop (H.state host.old) (H.state host.new)) }
{
    let name = sorted_file(alloc, log)?;
    let bytes = spell(alloc, &sorted(alloc, mutations)?)?;
    write_synced(host, &name, &bytes)?;
    Ok(())
}

/// The mutations of a log's sorted file, in their order. It changes nothing.
///
/// `Damaged` names the sorted file where it isn't there or isn't a sorted log's, and only there; each other stop is a fault of
/// the host, which is counted, or want of memory. Takes memory for the file's bytes and the mutations, and time with them;
/// two calls of the host.
pub fn read_sorted<H: Host>(
    alloc: Global,
    host: &mut H,
    log: &LogName,
) -> Result<Vec<Mutation>, Stop>
    ensures looks { Looks (H.state host.old) (H.state host.new) }
    ensures are { IsTrue (H.state host.old).is_faithful → IfOk result (λ mutations. HasSorted (sorted_name log.now) mutations.items (H.state host.old).files) }
    ensures logged { IfOk result (λ mutations. All IsLogged mutations.items) }
    ensures in_order { IfOk result (λ mutations. AreInOrder mutations.items) }
    ensures damaged { IsTrue (H.state host.old).is_faithful → IsNoSorted (sorted_name log.now) (H.state host.old).files → IsErr result }
    ensures stops { IfErr result (λ stop. ReadCause (sorted_name log.now) (IsNoSorted (sorted_name log.now) (H.state host.old).files) stop (H.state host.old) (H.state host.new)) }
{
    let name = sorted_file(alloc, log)?;
    let Some(bytes) = read_whole(alloc, host, &name)? else {
        return Err(Stop::Damaged(name));
    };
    match read(alloc, &bytes)? {
        Some(mutations) => Ok(mutations),
        None => Err(Stop::Damaged(name)),
    }
}
