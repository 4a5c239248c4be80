// The columns of data files.
ghost use Rattle.std.specs.Prelude.{◌≡◌, ◌++◌, Some, None, IfOk, OnOk, MatchResult, codes, map};
ghost use Rattle.std.specs.List.{All};
ghost use Rattle.metadata_schema.specs.Values.{file_value, AreFileFacts, IsFileValue, AreEntries, IsEntriesText};
ghost use Rattle.metadata_schema.specs.Kinds.{IsColumn, IsValued};
ghost use Rattle.metadata_schema.specs.Columns.{file_column};
ghost use Rattle.metadata_schema.specs.Records.{IsFile};
ghost use Rattle.metadata_schema.specs.Refusals.{Refuses, of_family};

use crate::fault::SchemaFault;
use crate::lists::push_item;
use crate::mutation::{Update, written};
use crate::numbers::{read_number, read_time};
use crate::parts::parted;
use crate::tablet::{FileEntries, FileEntry};
use row_keys::{ListOf, Octets, Path};
use std::alloc::{AllocError, Global};

const FILE: &[u8] = b"file";

const COMMA: u8 = b',';

/// The size and the number of entries of a file, and its time where it has one.
#[derive(Debug, Drop)]
struct FileFacts {
    size: u64,
    entries: u64,
    time: Option<u64>,
}

/// The number of entries, and behind a comma the time.
fn read_entries(alloc: Global, text: &[u8]) -> Result<(u64, Option<u64>), SchemaFault>
    ensures { MatchResult result (λ facts. AreEntries facts.0 facts.1 text.now) (Refuses (IsEntriesText text.now)) }
{
    match parted(text, COMMA) {
        Some((entries, time)) => {
            let entries = read_number(alloc, entries)?;
            let time = read_time(alloc, time)?;
            Ok((entries, Some(time)))
        }
        None => {
            let entries = read_number(alloc, text)?;
            Ok((entries, None))
        }
    }
}

/// What a value says of a file.
fn read_facts(alloc: Global, value: &[u8]) -> Result<FileFacts, SchemaFault>
    ensures { MatchResult result (λ facts. AreFileFacts facts.size facts.entries facts.time × (value.now ≡ file_value facts.size facts.entries facts.time)) (Refuses (IsFileValue value.now)) }
{
    let Some((size, rest)) = parted(value, COMMA) else {
        return Err(SchemaFault::BadValue);
    };
    let size = read_number(alloc, size)?;
    let (entries, time) = read_entries(alloc, rest)?;
    Ok(FileFacts {
        size,
        entries,
        time,
    })
}

fn read_file(alloc: Global, update: &Update) -> Result<FileEntry, SchemaFault>
    requires family { update.now.family ≡ codes "file" }
    requires column { IsColumn update.now.family update.now.qualifier }
    ensures { MatchResult result (λ file. (file_column file ≡ update.now) × IsFile file) (Refuses (IsValued update.now)) }
{
    let Some(value) = &update.value else {
        return Err(SchemaFault::BadValue);
    };
    let Some(path) = Path::new(alloc, update.qualifier.as_bytes())? else {
        return Err(SchemaFault::BadValue);
    };
    let facts = read_facts(alloc, value.as_bytes())?;
    Ok(FileEntry {
        path,
        size: facts.size,
        entries: facts.entries,
        time: facts.time,
    })
}

/// The files of these columns. Time goes with the number of columns, and memory with that of files.
pub(crate) fn read_files(alloc: Global, updates: &[Update]) -> Result<FileEntries, SchemaFault>
    requires { All (λ update. IsColumn update.family update.qualifier) updates.now }
    ensures { MatchResult result (λ files. (map file_column files ≡ of_family (codes "file") updates.now) × All IsFile files) (Refuses (All IsValued updates.now)) }
{
    let mut files = Vec::new(alloc);
    for update in updates {
        if update.family.as_bytes() == FILE {
            let file = read_file(alloc, update)?;
            push_item(&mut files, file)?;
        }
    }
    Ok(ListOf::from_vec(files))
}

fn plain_value(alloc: Global, size: u64, entries: u64) -> Result<Octets, AllocError>
    ensures { IfOk result (λ value. value ≡ file_value size entries None) }
{
    let text = format!(in alloc; "{size},{entries}")?;
    Octets::new(alloc, text.as_bytes())
}

fn timed_value(alloc: Global, size: u64, entries: u64, time: u64) -> Result<Octets, AllocError>
    ensures { IfOk result (λ value. value ≡ file_value size entries (Some time)) }
{
    let text = format!(in alloc; "{size},{entries},{time}")?;
    Octets::new(alloc, text.as_bytes())
}

fn file_value(alloc: Global, file: &FileEntry) -> Result<Octets, AllocError>
    ensures { IfOk result (λ value. value ≡ file_value file.now.size file.now.entries file.now.time) }
{
    match file.time {
        Some(time) => timed_value(alloc, file.size, file.entries, time),
        None => plain_value(alloc, file.size, file.entries),
    }
}

/// Adds the columns of these files.
pub(crate) fn push_files(
    alloc: Global,
    columns: &mut Vec<Update>,
    files: &[FileEntry],
) -> Result<(), AllocError>
    ensures { OnOk result (columns.new.items ≡ columns.old.items ++ map file_column files.now) }
{
    for file in files {
        let value = file_value(alloc, file)?;
        columns.push(written(alloc, FILE, file.path.as_bytes(), value)?)?;
    }
    Ok(())
}
