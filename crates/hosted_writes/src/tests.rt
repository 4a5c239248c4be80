// One write of each kind into a hosted tablet, over a host in memory.
ghost use Rattle.std.specs.Prelude.{◌<◌, ◌^◌, IfOk, IsSome};
ghost use Rattle.std.specs.FinMap as map;
ghost use Rattle.log_files.specs.Mutations.{AreUpdates};
ghost use Rattle.level_index.specs.Entries.{LevelMap};
ghost use Rattle.hosted_writes.specs.Rows.{MakesSome};

use super::*;
use cell_merge::Cell;
use ground_store::Ground;
use hosted_memories::HostedMemories;
use level_index::LevelIndex;
use memory_host::MemoryHost;
use metadata_schema::{Mutation, Update};
use row_keys::{Key, ListOf, LogName, Octets, Row, SessionId, TableId};
use state_reader::LevelKind;
use std::alloc::Global;
use std::test::Fail;
use tablet_mem::TabletMem;

const CANDIDATE: &[u8] = b"~del1/default_tablet/F0000001.rf";

fn log_name(alloc: Global) -> Result<LogName, Fail> {
    Ok(LogName::new(alloc, b"log-0000000000000001")?.ok_or("no name of a log")?)
}

// A new store with this log.
fn store_with(alloc: Global, log: &LogName) -> Result<Ground<MemoryHost>, Fail>
    ensures { IfOk result (λ store. IsSome (map.get store.logs log.now)) }
{
    let host = MemoryHost::new(alloc, b"", &[], None)?;
    let Ok(mut store) = Ground::init(alloc, host) else {
        return Err(Fail::from("no new store"));
    };
    store.make_log(log)?;
    Ok(store)
}

// One hosted tablet with this bar.
fn hosting(alloc: Global, tablet: &Row, bar: u64) -> Result<HostedMemories, Fail>
    requires { bar < 2 ^ 63 }
    ensures { IfOk result (λ hosted. IsSome (map.get hosted tablet.now)) }
{
    let session = SessionId::new(alloc, b"0000000000000001")?.ok_or("no session")?;
    let mut hosted = HostedMemories::new(alloc);
    hosted.insert(tablet.copy(alloc)?, session, TabletMem::new(alloc, bar, 0))?;
    Ok(hosted)
}

// The insert of `v` into row `r`, family `f` and qualifier `q` of table 1.
fn insert(alloc: Global) -> Result<RowUpdates, Fail>
    ensures { IfOk result (λ write. AreUpdates write.updates) }
{
    let mut updates = Vec::new(alloc);
    updates.push(Update {
        family: Octets::new(alloc, b"f")?,
        qualifier: Octets::new(alloc, b"q")?,
        value: Some(Octets::new(alloc, b"v")?),
    })?;
    Ok(RowUpdates {
        table: TableId::new(alloc, b"1")?.ok_or("no id")?,
        row: Row::new(alloc, b"r")?,
        updates: ListOf::from_vec(updates),
    })
}

// A path to be deleted is taken out.
fn removal(alloc: Global) -> Result<RowUpdates, Fail>
    ensures updates { IfOk result (λ write. AreUpdates write.updates) }
    ensures row { IfOk result (λ write. (index : LevelMap) → MakesSome index write.row write.updates) }
{
    let mut updates = Vec::new(alloc);
    updates.push(Update {
        family: Octets::new(alloc, b"")?,
        qualifier: Octets::new(alloc, b"")?,
        value: None,
    })?;
    Ok(RowUpdates {
        table: TableId::new(alloc, b"!0")?.ok_or("no id")?,
        row: Row::new(alloc, CANDIDATE)?,
        updates: ListOf::from_vec(updates),
    })
}

// A level of one path to be deleted.
fn one_candidate(alloc: Global) -> Result<LevelIndex, Fail> {
    let mut cells = Vec::new(alloc);
    cells.push(Cell {
        key: Key {
            row: Row::new(alloc, CANDIDATE)?,
            family: Octets::new(alloc, b"")?,
            qualifier: Octets::new(alloc, b"")?,
        },
        time: 1,
        value: Some(Octets::new(alloc, b"")?),
    })?;
    Ok(LevelIndex::read(alloc, LevelKind::Users, &cells)?)
}

// The time of the insert, written into a tablet with bar 5, and then the memory of the tablet and what the log has.
fn after_insert(
    alloc: Global,
    tablet: &Row,
    log: &LogName,
) -> Result<(u64, TabletMem, Vec<Mutation>), Fail> {
    let mut store = store_with(alloc, log)?;
    let mut hosted = hosting(alloc, tablet, 5)?;
    let write = insert(alloc)?;
    let time = put_hosted(alloc, &mut store, &mut hosted, tablet, log, write)?;
    let memory = hosted.remove(tablet).ok_or("not hosted")?;
    Ok((time, memory, store.log_mutations(log)?))
}

// Writes the removal into the index and into a tablet with bar 0, and then gives the memory of the tablet and what the log has.
fn after_removal(
    alloc: Global,
    index: &mut LevelIndex,
    holder: &Row,
    log: &LogName,
) -> Result<(TabletMem, Vec<Mutation>), Fail> {
    let mut store = store_with(alloc, log)?;
    let mut hosted = hosting(alloc, holder, 0)?;
    let write = removal(alloc)?;
    write_level_row(alloc, &mut store, &mut hosted, index, holder, log, write)?;
    let memory = hosted.remove(holder).ok_or("not hosted")?;
    Ok((memory, store.log_mutations(log)?))
}

#[test]
fn an_insert_is_in_the_log_and_in_memory(rt: HostRuntime) -> Result<(), Fail> {
    let alloc = rt.alloc();
    let log = log_name(alloc)?;
    let tablet = Row::new(alloc, b"1<")?;
    let (time, memory, logged) = after_insert(alloc, &tablet, &log)?;
    assert_eq!(rt; time, 6);
    assert_eq!(rt; memory.next_time(), 7);
    let cells = memory.cells();
    assert_eq!(rt; cells.len(), 1);
    assert_eq!(rt; cells[0].time, 6);
    assert_eq!(rt; cells[0].key.row.as_bytes(), b"r".as_slice());
    assert_eq!(rt; logged.len(), 1);
    assert_eq!(rt; logged[0].time, 6);
    assert_eq!(rt; logged[0].row.as_bytes(), b"r".as_slice());
    Ok(())
}

#[test]
fn a_row_of_a_level_is_in_its_index_too(rt: HostRuntime) -> Result<(), Fail> {
    let alloc = rt.alloc();
    let log = log_name(alloc)?;
    let holder = Row::new(alloc, b"!0<")?;
    let mut index = one_candidate(alloc)?;
    assert_eq!(rt; index.candidates(alloc)?.len(), 1);
    let (memory, logged) = after_removal(alloc, &mut index, &holder, &log)?;
    assert_eq!(rt; index.candidates(alloc)?.len(), 0);
    assert_eq!(rt; memory.cells().len(), 1);
    assert_eq!(rt; memory.next_time(), 2);
    assert_eq!(rt; logged.len(), 1);
    Ok(())
}
