// Copies of records.
ghost use Rattle.std.specs.Prelude.{◌≡◌, IfOk};

use crate::tablet::{
    FileEntries, FileEntry, Holder, LoadedEntries, LoadedEntry, LogNames, TabletRecord,
};
use row_keys::Row;
use std::alloc::{AllocError, Global};

fn copy_of_row(alloc: Global, row: &Option<Row>) -> Result<Option<Row>, AllocError>
    ensures { IfOk result (λ copy. copy ≡ row.now) }
{
    match row {
        Some(row) => Ok(Some(row.copy(alloc)?)),
        None => Ok(None),
    }
}

fn copy_of_old_prev(
    alloc: Global,
    prev: &Option<Option<Row>>,
) -> Result<Option<Option<Row>>, AllocError>
    ensures { IfOk result (λ copy. copy ≡ prev.now) }
{
    match prev {
        Some(row) => Ok(Some(copy_of_row(alloc, row)?)),
        None => Ok(None),
    }
}

fn copy_of_holder(alloc: Global, holder: &Option<Holder>) -> Result<Option<Holder>, AllocError>
    ensures { IfOk result (λ copy. copy ≡ holder.now) }
{
    match holder {
        Some(holder) => Ok(Some(Holder {
            session: holder.session.copy(alloc)?,
            server: holder.server.copy(alloc)?,
        })),
        None => Ok(None),
    }
}

fn copy_of_file(alloc: Global, file: &FileEntry) -> Result<FileEntry, AllocError>
    ensures { IfOk result (λ copy. copy ≡ file.now) }
{
    Ok(FileEntry {
        path: file.path.copy(alloc)?,
        size: file.size,
        entries: file.entries,
        time: file.time,
    })
}

fn copy_of_entry(alloc: Global, entry: &LoadedEntry) -> Result<LoadedEntry, AllocError>
    ensures { IfOk result (λ copy. copy ≡ entry.now) }
{
    Ok(LoadedEntry {
        path: entry.path.copy(alloc)?,
        tid: entry.tid,
    })
}

fn copy_of_files(alloc: Global, files: &FileEntries) -> Result<FileEntries, AllocError>
    ensures { IfOk result (λ copy. copy ≡ files.now) }
{
    let mut copies = Vec::new(alloc);
    for file in files.as_slice() {
        copies.push(copy_of_file(alloc, file)?)?;
    }
    Ok(FileEntries::from_vec(copies))
}

fn copy_of_logs(alloc: Global, logs: &LogNames) -> Result<LogNames, AllocError>
    ensures { IfOk result (λ copy. copy ≡ logs.now) }
{
    let mut copies = Vec::new(alloc);
    for log in logs.as_slice() {
        copies.push(log.copy(alloc)?)?;
    }
    Ok(LogNames::from_vec(copies))
}

fn copy_of_loaded(alloc: Global, loaded: &LoadedEntries) -> Result<LoadedEntries, AllocError>
    ensures { IfOk result (λ copy. copy ≡ loaded.now) }
{
    let mut copies = Vec::new(alloc);
    for entry in loaded.as_slice() {
        copies.push(copy_of_entry(alloc, entry)?)?;
    }
    Ok(LoadedEntries::from_vec(copies))
}

impl TabletRecord {
    /// The same record again. Takes memory for a copy, and time with its files, logs and loaded entries. `AllocError` comes
    /// only at want of memory.
    pub fn copy(&self, alloc: Global) -> Result<TabletRecord, AllocError>
        ensures { IfOk result (λ copy. copy ≡ self.now) }
    {
        Ok(TabletRecord {
            table: self.table.copy(alloc)?,
            end: copy_of_row(alloc, &self.end)?,
            prev: copy_of_row(alloc, &self.prev)?,
            old_prev: copy_of_old_prev(alloc, &self.old_prev)?,
            dir: self.dir.copy(alloc)?,
            time: self.time,
            loc: copy_of_holder(alloc, &self.loc)?,
            future: copy_of_holder(alloc, &self.future)?,
            files: copy_of_files(alloc, &self.files)?,
            logs: copy_of_logs(alloc, &self.logs)?,
            loaded: copy_of_loaded(alloc, &self.loaded)?,
            chopped: self.chopped,
            merged: self.merged,
        })
    }
}
