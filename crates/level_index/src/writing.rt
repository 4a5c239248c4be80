// A row of a level is written.
ghost use Rattle.std.specs.Prelude.{◌≡◌, Some, IfOk, IfErr, IfSome, IsSome};
ghost use Rattle.std.specs.FinMap as map;
ghost use Rattle.level_index.specs.Entries.{StandsAt, IsLevelMap};
ghost use Rattle.level_index.specs.Value.{with_row};
ghost use Rattle.level_index.specs.Writes.{MakesEntry, Prepares, WriteCause};

use crate::columns::{columns_at, entry_after};
use crate::entry::LevelEntry;
use crate::index::LevelIndex;
use crate::pending::{Pending, WriteFault};
use metadata_schema::Update;
use row_keys::Row;
use std::alloc::Global;
use std::marker::Model;

/// A level and a row of it for which all memory has been taken. Contracts see what the level is without the row as it is written,
/// and with it.
#[derive(Drop)]
pub struct PreparedRow {
    index: LevelIndex,
    pending: Pending,
}

impl Model for PreparedRow {
    ghost use Rattle.level_index.specs.Value.{PreparedLevel, prepared_code, prepared, IsPrepared};
    ghost use Rattle.state_reader.specs.contracts.level.LevelKind as kind_type;
    ghost use Rattle.level_index.specs.contracts.entry.LevelEntry as entry_type;

    ghost Value = { PreparedLevel };

    ghost coded = { prepared_code kind_type.the_row.coded entry_type.the_row.coded };

    ghost view = { λ p. prepared p.index p.pending };

    ghost invariant = { λ p. IsPrepared p.index p.pending };
}

impl LevelIndex {
    /// What stands at a row once its columns are updated.
    fn made_entry(
        &self,
        alloc: Global,
        row: &Row,
        updates: &[Update],
    ) -> Result<Option<LevelEntry>, WriteFault>
        ensures ok { IfOk result (MakesEntry self.now row.now updates.now) }
        ensures cause { IfErr result (WriteCause self.now row.now updates.now) }
        ensures own { IsLevelMap self.now.kind self.now.entries }
    {
        let columns = columns_at(alloc, self.get(row))?;
        entry_after(alloc, self.kind(), &columns, row, updates)
    }

    /// Puts an entry, and keeps what was there. At want of memory the index comes back as it was.
    fn pend_put(
        mut self,
        alloc: Global,
        row: Row,
        entry: LevelEntry,
    ) -> Result<PreparedRow, LevelIndex>
        requires { StandsAt self.kind row entry }
        ensures before { IfOk result (λ prepared. prepared.before ≡ self) }
        ensures after { IfOk result (λ prepared. prepared.after ≡ with_row self row (Some entry)) }
        ensures err { IfErr result (λ refused. refused ≡ self) }
    {
        let Ok(key) = row.copy(alloc) else {
            return Err(self);
        };
        match self.put(key, entry) {
            Ok(was) => Ok(PreparedRow {
                index: self,
                pending: Pending::Put(row, was),
            }),
            Err(_) => Err(self),
        }
    }

    /// Has at a row what was there before something was put there. Takes no memory.
    fn put_back(&mut self, row: Row, was: Option<LevelEntry>)
        requires there { IsSome (map.get self.old.entries row) }
        requires own { IfSome was (StandsAt self.old.kind row) }
        ensures { self.new ≡ with_row self.old row was }
    {
        match was {
            // takes no memory, since an entry stands there
            Some(was) => drop(self.put(row, was)),
            None => self.take(&row),
        }
    }

    /// Takes all memory that it takes to have this entry at the row, or none. At want of memory the index comes back as it was.
    fn pend(
        self,
        alloc: Global,
        row: &Row,
        entry: Option<LevelEntry>,
    ) -> Result<PreparedRow, LevelIndex>
        requires { IfSome entry (StandsAt self.kind row.now) }
        ensures before { IfOk result (λ prepared. prepared.before ≡ self) }
        ensures after { IfOk result (λ prepared. prepared.after ≡ with_row self row.now entry) }
        ensures err { IfErr result (λ refused. refused ≡ self) }
    {
        let Ok(row) = row.copy(alloc) else {
            return Err(self);
        };
        match entry {
            Some(entry) => self.pend_put(alloc, row, entry),
            None => Ok(PreparedRow {
                index: self,
                pending: Pending::Removal(row),
            }),
        }
    }

    /// Takes all memory that it takes to write a row with these updates of its columns, and writes it not yet: so a caller can write
    /// the mutation to a log in between. Afterwards the level has at the row what its columns are then: a record, a candidate or a
    /// flag, or none of them where no column is left. `NoRow` comes exactly where the row is none of a tablet of such a level, of a
    /// path to be deleted, or of a path that is loaded. `BadColumns` comes where the columns would be those of no record, candidate or
    /// flag; in its place only `NoMemory` may. With each fault the index comes back as it was. Takes memory for the row, and time with
    /// the logarithm of the rows, and n log n for n columns of this row.
    pub fn prepare(
        self,
        alloc: Global,
        row: &Row,
        updates: &[Update],
    ) -> Result<PreparedRow, (WriteFault, LevelIndex)>
        ensures ok { IfOk result (Prepares self row.now updates.now) }
        ensures cause { IfErr result (λ refused. WriteCause self row.now updates.now refused.0) }
        ensures err { IfErr result (λ refused. refused.1 ≡ self) }
    {
        match self.made_entry(alloc, row, updates) {
            Ok(entry) => match self.pend(alloc, row, entry) {
                Ok(prepared) => Ok(prepared),
                Err(index) => Err((WriteFault::NoMemory, index)),
            },
            Err(fault) => Err((fault, self)),
        }
    }
}

impl PreparedRow {
    /// Writes the row. Takes no memory, and time with the logarithm of the rows.
    pub fn commit(self) -> LevelIndex
        ensures { result ≡ self.after }
    {
        let PreparedRow { mut index, pending } = self;
        if let Pending::Removal(row) = pending {
            index.take(&row);
        }
        index
    }

    /// Leaves the row as it was. Takes no memory, and time with the logarithm of the rows.
    pub fn withdraw(self) -> LevelIndex
        ensures { result ≡ self.before }
    {
        let PreparedRow { mut index, pending } = self;
        match pending {
            Pending::Put(row, was) => index.put_back(row, was),
            Pending::Removal(_row) => {}
        }
        index
    }
}
