// The entries of a level, by their rows.
ghost use Rattle.std.specs.Prelude.{◌≡◌, ℕ, List, [], Option, Some, None, IfOk, IfSome, OnOk, OnErr};
ghost use Rattle.std.specs.FinMap as map;
ghost use Rattle.std.specs.Option.{option_copied, option_and_then};
ghost use Rattle.row_keys.specs.MetadataRow.{IsMetadataRow};
ghost use Rattle.store_meaning.specs.Levels.{IsLevelOf};
ghost use Rattle.state_reader.specs.LevelRows.{IsOfKind};
ghost use Rattle.level_index.specs.Entries.{level_of, tablet_in, StandsAt, IsLevelMap};
ghost use Rattle.level_index.specs.Value.{with_row};

use crate::entry::LevelEntry;
use metadata_schema::TabletRecord;
use row_keys::Row;
use state_reader::LevelKind;
use std::alloc::{AllocError, Global};
use std::collections::BTreeMap;
use std::marker::Model;

/// What the cells of a level tell, by the rows at which it stands. Contracts see a finite map from rows to entries; `level_of` gives
/// its look-ups: records by table and end row, candidates and flags by path.
#[derive(Drop)]
pub struct LevelIndex {
    kind: LevelKind,
    entries: BTreeMap<Row, LevelEntry>,
}

impl Model for LevelIndex {
    ghost use Rattle.std.specs.FinMap as map;
    ghost use Rattle.level_index.specs.Entries.{LevelMap, IsLevelMap};
    ghost use Rattle.level_index.specs.Value.{index_code};
    ghost use Rattle.state_reader.specs.contracts.level.LevelKind as kind_type;
    ghost use Rattle.level_index.specs.contracts.entry.LevelEntry as entry_type;

    ghost Value = { LevelMap };

    ghost coded = { index_code kind_type.the_row.coded entry_type.the_row.coded };

    ghost view = { λ m. record { kind = m.kind; entries = map.from_entries m.entries.entries } };

    ghost invariant = { λ m. IsLevelMap m.kind (map.from_entries m.entries.entries) };
}

/// The record, where the entry is one.
fn tablet_in(entry: &LevelEntry) -> Option<&TabletRecord>
    ensures { option_copied result ≡ tablet_in entry.now }
{
    match entry {
        LevelEntry::Tablet(tablet) => Some(tablet),
        _ => None,
    }
}

impl LevelIndex {
    /// The level of this kind of which no cells tell: it has no rows. Takes no memory.
    pub fn new(alloc: Global, kind: LevelKind) -> LevelIndex
        ensures value { result ≡ record { kind = kind; entries = map.empty } }
        ensures level { IsLevelOf (IsOfKind kind) [] (level_of result) }
    {
        LevelIndex {
            kind,
            entries: BTreeMap::new(alloc),
        }
    }

    /// Of which tablets the level tells. Takes no memory.
    pub fn kind(&self) -> LevelKind
        ensures { result ≡ self.now.kind }
    {
        self.kind
    }

    /// The record at a tablet's row, or none where there is no record. Takes no memory, and time with the logarithm of the rows.
    pub fn record(&self, row: &Row) -> Option<&TabletRecord>
        ensures value { option_copied result ≡ option_and_then tablet_in (map.get self.now.entries row.now) }
        ensures level { (table : List ℕ) (end : Option (List ℕ)) → IsMetadataRow table end row.now → option_copied result ≡ (level_of self.now).records table end }
    {
        match self.get(row) {
            Some(entry) => tablet_in(entry),
            None => None,
        }
    }

    /// What stands at the row, if anything. Takes time with the logarithm of the rows.
    pub(crate) fn get(&self, row: &Row) -> Option<&LevelEntry>
        ensures value { option_copied result ≡ map.get self.now.entries row.now }
        ensures own { IsLevelMap self.now.kind self.now.entries }
    {
        self.entries.get(row)
    }

    /// All entries, by their rows. Takes no memory.
    pub(crate) fn entries(&self) -> &BTreeMap<Row, LevelEntry>
        ensures map { map.from_entries result.now.entries ≡ self.now.entries }
        ensures own { IsLevelMap self.now.kind self.now.entries }
    {
        &self.entries
    }

    /// Puts an entry at its row, and gives what was there. At want of memory, which can't be where something was there, nothing has
    /// changed. Takes time with the logarithm of the rows.
    pub(crate) fn put(
        &mut self,
        row: Row,
        entry: LevelEntry,
    ) -> Result<Option<LevelEntry>, AllocError>
        requires { StandsAt self.old.kind row entry }
        ensures ok { OnOk result (self.new ≡ with_row self.old row (Some entry)) }
        ensures was { IfOk result (λ was. was ≡ map.get self.old.entries row) }
        ensures own { IfOk result (λ was. IfSome was (StandsAt self.old.kind row)) }
        ensures err { OnErr result (self.new ≡ self.old) }
        ensures absent { OnErr result (map.get self.old.entries row ≡ None) }
    {
        Ok(self.entries.insert(row, entry)?)
    }

    /// Puts an entry at a row. Takes memory for a copy of the row, and time with the logarithm of the rows.
    pub(crate) fn add(
        &mut self,
        alloc: Global,
        row: &Row,
        entry: LevelEntry,
    ) -> Result<(), AllocError>
        requires { StandsAt self.old.kind row.now entry }
        ensures { OnOk result (self.new ≡ with_row self.old row.now (Some entry)) }
    {
        let row = row.copy(alloc)?;
        self.put(row, entry)?;
        Ok(())
    }

    /// Takes out what stands at the row. Takes no memory, and time with the logarithm of the rows.
    pub(crate) fn take(&mut self, row: &Row)
        ensures { self.new ≡ with_row self.old row.now None }
    {
        let _ = self.entries.remove(row);
    }
}
