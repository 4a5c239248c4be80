// Worked records, as updates.
ghost use Rattle.std.specs.Prelude.{◌≡◌, [], ◌∷◌, map, IsTrue, IfOk};
ghost use Rattle.row_keys.specs.RowOrder.{bytes_cmp};
ghost use Rattle.metadata_schema.specs.Bytes.{is_rising};
ghost use Rattle.metadata_schema.specs.Records.{IsInOrder};
ghost use Rattle.metadata_schema.specs.Refusals.{IsTabletRow};

use super::*;
use crate::writing::columns_of;
use row_keys::{ListOf, Octets, Path, Row, ServerName, SessionId, TableId, metadata_row};
use std::alloc::Global;
use std::test::Fail;

const SESSION: &[u8] = b"00000000000000a1";

const FIRST: &[u8] = b"+r/root_tablet/A0000001.rf";

const SECOND: &[u8] = b"+r/root_tablet/F0000002.rf";

fn root(
    alloc: Global,
    table: TableId,
    dir: Octets,
    loc: Option<Holder>,
    files: FileEntries,
) -> TabletRecord
    requires { IsTrue (is_rising bytes_cmp (map (λ file. file.path) files)) }
    ensures { IsInOrder result }
{
    TabletRecord {
        table,
        end: None,
        prev: None,
        old_prev: None,
        dir,
        time: 1,
        loc,
        future: None,
        files,
        logs: ListOf::new(alloc),
        loaded: ListOf::new(alloc),
        chopped: false,
        merged: None,
    }
}

fn tablet(alloc: Global, loc: Option<Holder>, files: FileEntries) -> Result<TabletRecord, Fail>
    requires { IsTrue (is_rising bytes_cmp (map (λ file. file.path) files)) }
    ensures { IfOk result IsInOrder }
{
    let table = TableId::new(alloc, b"+r")?.ok_or("an id")?;
    let dir = Octets::new(alloc, b"root_tablet")?;
    Ok(root(alloc, table, dir, loc, files))
}

fn holder(alloc: Global) -> Result<Holder, Fail> {
    let session = SessionId::new(alloc, SESSION)?.ok_or("a session")?;
    let server = ServerName::new(alloc, b"s1")?.ok_or("a server")?;
    Ok(Holder { session, server })
}

fn file(alloc: Global, path: &[u8], time: Option<u64>) -> Result<FileEntry, Fail> {
    let path = Path::new(alloc, path)?.ok_or("a path")?;
    Ok(FileEntry {
        path,
        size: 222,
        entries: 6,
        time,
    })
}

fn one(alloc: Global, file: FileEntry) -> Result<FileEntries, Fail>
    ensures { IfOk result (λ files. files ≡ file ∷ []) }
{
    let mut files = FileEntries::new(alloc);
    files.push(file)?;
    Ok(files)
}

fn updates(alloc: Global, file: FileEntry) -> Result<Vec<Update>, Fail> {
    let before = tablet(alloc, None, ListOf::new(alloc))?;
    let after = tablet(alloc, None, one(alloc, file)?)?;
    Ok(updates_between(alloc, &before, &after)?)
}

// The update writes this value to this file's column.
fn puts(update: &Update, path: &[u8], value: &[u8]) -> bool {
    let is_put = match &update.value {
        Some(put) => put.as_bytes() == value,
        None => false,
    };
    is_put && update.family.as_bytes() == b"file".as_slice() && update.qualifier.as_bytes() == path
}

#[test]
fn a_file_is_put(rt: HostRuntime) -> Result<(), Fail> {
    let updates = updates(rt.alloc(), file(rt.alloc(), FIRST, None)?)?;
    assert_eq!(rt; updates.len(), 1);
    assert!(rt; puts(&updates[0], FIRST, b"222,6"));
    Ok(())
}

#[test]
fn a_file_with_a_time_is_put(rt: HostRuntime) -> Result<(), Fail> {
    let updates = updates(rt.alloc(), file(rt.alloc(), SECOND, Some(5))?)?;
    assert_eq!(rt; updates.len(), 1);
    assert!(rt; puts(&updates[0], SECOND, b"222,6,5"));
    Ok(())
}

fn root_row(alloc: Global) -> Result<Row, Fail>
    ensures { IfOk result IsTabletRow }
{
    let table = TableId::new(alloc, b"+r")?.ok_or("an id")?;
    Ok(metadata_row(alloc, &table, None)?)
}

// What is left to write once the columns of this record are read back.
fn read_back(alloc: Global, before: &TabletRecord) -> Result<Vec<Update>, Fail>
    requires { IsInOrder before.now }
{
    let row = root_row(alloc)?;
    let columns = columns_of(alloc, before)?;
    let after = record_of(alloc, &row, &columns).ok().ok_or("a record")?;
    Ok(updates_between(alloc, before, &after)?)
}

#[test]
fn a_record_is_read_back(rt: HostRuntime) -> Result<(), Fail> {
    let files = one(rt.alloc(), file(rt.alloc(), FIRST, Some(5))?)?;
    let before = tablet(rt.alloc(), Some(holder(rt.alloc())?), files)?;
    let updates = read_back(rt.alloc(), &before)?;
    assert!(rt; updates.is_empty());
    Ok(())
}

fn hosted(alloc: Global) -> Result<TabletState, Fail> {
    let live = [SessionId::new(alloc, SESSION)?.ok_or("a session")?];
    let tablet = tablet(alloc, Some(holder(alloc)?), ListOf::new(alloc))?;
    Ok(tablet_state(&tablet, &live))
}

#[test]
fn a_tablet_is_hosted(rt: HostRuntime) -> Result<(), Fail> {
    let state = hosted(rt.alloc())?;
    assert_eq!(rt; state, TabletState::Hosted);
    Ok(())
}

#[test]
fn laws_hold() {
    columns_are_in_order();
    columns_of_records_are_read();
    new_tablets_are_well_formed();
    numbers_have_one_spelling();
    paths_have_one_spelling();
    records_are_one_to_one();
    rows_have_one_record();
    updates_lead_to_the_new_columns();
}
