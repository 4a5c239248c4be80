// What a level tells, in the order of rows.
ghost use Rattle.std.specs.Prelude.{◌≡◌, ◌≤◌, [], None, Some, IfOk, length};
ghost use Rattle.std.specs.Option.{option_copied};
ghost use Rattle.std.specs.declared.ops.Bound.TheVariants.{Included};
ghost use Rattle.row_keys.specs.MetadataRow.{metadata_row};
ghost use Rattle.level_index.specs.Entries.{level_of};
ghost use Rattle.level_index.specs.Lists.{AreRecordsOf, AreCandidatesOf, AreFlagsOf};
ghost use Rattle.level_index.specs.Ranges.{record_of, candidate_of, flag_of};

use crate::entry::LevelEntry;
use crate::index::LevelIndex;
use metadata_schema::TabletRecord;
use row_keys::{Octets, Path, Row, TableId, metadata_row};
use state_reader::LoadFlag;
use std::alloc::{AllocError, Global};
use std::ops::Bound;

const CANDIDATE: &[u8] = b"~del";

const FLAG: &[u8] = b"~blip";

/// The row that consists of these few bytes.
fn row_of(alloc: Global, bytes: &[u8]) -> Result<Row, AllocError>
    requires { length bytes.now ≤ 300 }
    ensures { IfOk result (λ row. row ≡ bytes.now) }
{
    Ok(Row::from_octets(Octets::new(alloc, bytes)?))
}

/// The record, where it is one of this table.
fn record_of<'a>(entry: &'a LevelEntry, table: &TableId) -> Option<&'a TabletRecord>
    ensures { option_copied result ≡ record_of table.now entry.now }
{
    match entry {
        LevelEntry::Tablet(tablet) if tablet.table == *table => Some(tablet),
        _ => None,
    }
}

/// The path to be deleted, where it is one.
fn candidate_of(entry: &LevelEntry) -> Option<&Path>
    ensures { option_copied result ≡ candidate_of entry.now }
{
    match entry {
        LevelEntry::Candidate(path) => Some(path),
        _ => None,
    }
}

/// The flag, where it is one.
fn flag_of(entry: &LevelEntry) -> Option<&LoadFlag>
    ensures { option_copied result ≡ flag_of entry.now }
{
    match entry {
        LevelEntry::Flag(flag) => Some(flag),
        _ => None,
    }
}

/// The same flag again.
fn copy_of_flag(alloc: Global, flag: &LoadFlag) -> Result<LoadFlag, AllocError>
    ensures { IfOk result (λ copy. copy ≡ flag.now) }
{
    Ok(LoadFlag {
        path: flag.path.copy(alloc)?,
        tid: flag.tid,
        number: flag.number,
    })
}

/// The first and the last row of a table's tablets.
fn rows_of(alloc: Global, table: &TableId) -> Result<(Bound<Row>, Bound<Row>), AllocError>
    ensures { IfOk result (λ range. range ≡ (Included (metadata_row table.now (Some [])), Included (metadata_row table.now None))) }
{
    let first = Row::from_octets(Octets::from_vec(Vec::new(alloc)));
    Ok((
        Bound::Included(metadata_row(alloc, table, Some(&first))?),
        Bound::Included(metadata_row(alloc, table, None)?),
    ))
}

impl LevelIndex {
    /// The records of a table, in the order of their end rows, the last tablet's behind them all: that of the metadata rows. Each is
    /// of its form, and stands at the row of its table and end row. `AllocError` comes only at want of memory. Takes memory for
    /// copies of them, and time with their number and the logarithm of the rows.
    pub fn records_of(
        &self,
        alloc: Global,
        table: &TableId,
    ) -> Result<Vec<TabletRecord>, AllocError>
        ensures { IfOk result (λ records. AreRecordsOf (level_of self.now) table.now records.items) }
    {
        let range = rows_of(alloc, table)?;
        let mut records = Vec::new(alloc);
        for (_, entry) in self.entries().range(range) {
            if let Some(tablet) = record_of(entry, table) {
                records.push(tablet.copy(alloc)?)?;
            }
        }
        Ok(records)
    }

    /// The paths of files to be deleted, in their order. `AllocError` comes only at want of memory. Takes memory for copies of them,
    /// and time with their number and the logarithm of the rows.
    pub fn candidates(&self, alloc: Global) -> Result<Vec<Path>, AllocError>
        ensures { IfOk result (λ paths. AreCandidatesOf (level_of self.now) paths.items) }
    {
        let range = (Bound::Included(row_of(alloc, CANDIDATE)?), Bound::Unbounded);
        let mut paths = Vec::new(alloc);
        for (_, entry) in self.entries().range(range) {
            if let Some(path) = candidate_of(entry) {
                paths.push(path.copy(alloc)?)?;
            }
        }
        Ok(paths)
    }

    /// The flags of files that are being loaded, in the order of their paths. `AllocError` comes only at want of memory. Takes memory
    /// for copies of them, and time with their number and the logarithm of the rows.
    pub fn flags(&self, alloc: Global) -> Result<Vec<LoadFlag>, AllocError>
        ensures { IfOk result (λ flags. AreFlagsOf (level_of self.now) flags.items) }
    {
        let range = (
            Bound::Included(row_of(alloc, FLAG)?),
            Bound::Excluded(row_of(alloc, CANDIDATE)?),
        );
        let mut flags = Vec::new(alloc);
        for (_, entry) in self.entries().range(range) {
            if let Some(flag) = flag_of(entry) {
                flags.push(copy_of_flag(alloc, flag)?)?;
            }
        }
        Ok(flags)
    }
}
