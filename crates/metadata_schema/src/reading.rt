// From the columns of a row to a record.
ghost use Rattle.std.specs.Prelude.{◌≡◌, ◌≤◌, ◌↔◌, length, IfOk, OnOk, IsErrOf, MatchBool, MatchResult};
ghost use Rattle.std.specs.List.{All};
ghost use Rattle.row_keys.specs.MetadataRow.{IsMetadataRow};
ghost use Rattle.metadata_schema.specs.Kinds.{IsColumn};
ghost use Rattle.metadata_schema.specs.Records.{IsRecordOf};
ghost use Rattle.metadata_schema.specs.Refusals.{IsTabletRow, AreColumns, of_family, HasPrev, HasColumns, HasValues, Refuses};
ghost use Rattle.metadata_schema.specs.declared.fault.SchemaFault.TheVariants.{NoPrev, BadColumn, BadValue, NoMemory};

use crate::fault::SchemaFault;
use crate::files::read_files;
use crate::holders::{FUTURE, LOC, read_holder};
use crate::kind::is_column;
use crate::loaded::read_loaded;
use crate::logs::read_logs;
use crate::mutation::Update;
use crate::singles::{
    CHOPPED, DIR, MERGED, OLD_PREV, PREV, SRV, TAB, TIME, read_bar, read_chopped, read_directory,
    read_merged, read_old_prev, read_prev, value_at,
};
use crate::tablet::TabletRecord;
use row_keys::{KeyForm, Row, TableId, read_metadata_row};
use std::alloc::Global;

/// Whether each column is of the table of columns.
fn are_named(updates: &[Update]) -> bool
    ensures { MatchBool result (All (λ update. IsColumn update.family update.qualifier) updates.now) (All (λ update. IsColumn update.family update.qualifier) updates.now → ⊥) }
{
    for update in updates {
        if !is_column(update.family.as_bytes(), update.qualifier.as_bytes()) {
            return false;
        }
    }
    true
}

/// The number of columns of a family.
fn count_of(updates: &[Update], family: &[u8]) -> usize
    ensures { result ≡ length (of_family family.now updates.now) }
{
    updates
        .iter()
        .filter(|update| update.family.as_bytes() == family)
        .count()
}

/// Whether each column is of the table of columns, and no second `loc` or `future` is there.
fn are_columns(updates: &[Update]) -> bool
    ensures { MatchBool result (HasColumns updates.now) (HasColumns updates.now → ⊥) }
{
    are_named(updates) && count_of(updates, LOC) <= 1 && count_of(updates, FUTURE) <= 1
}

/// The table and the end row of a metadata row.
fn read_row(alloc: Global, row: &Row) -> Result<(TableId, Option<Row>), SchemaFault>
    requires { IsTabletRow row.now }
    ensures { MatchResult result (λ parts. IsMetadataRow parts.0 parts.1 row.now) (λ fault. fault ≡ NoMemory) }
{
    match read_metadata_row(alloc, row) {
        Ok(parts) => Ok(parts),
        Err(KeyForm::NoMemory) => Err(SchemaFault::NoMemory),
        Err(_) => unreachable!(),
    }
}

/// The record, where the columns are of the table of columns.
fn read_columns(alloc: Global, row: &Row, updates: &[Update]) -> Result<TabletRecord, SchemaFault>
    requires row { IsTabletRow row.now }
    requires given { AreColumns updates.now }
    requires prev { HasPrev updates.now }
    requires columns { HasColumns updates.now }
    ensures { MatchResult result (IsRecordOf row.now updates.now) (Refuses (HasValues updates.now)) }
{
    let (Some(dir), Some(time), Some(prev)) = (
        value_at(updates, SRV, DIR),
        value_at(updates, SRV, TIME),
        value_at(updates, TAB, PREV),
    ) else {
        return Err(SchemaFault::BadValue);
    };
    let (table, end) = read_row(alloc, row)?;
    let dir = read_directory(alloc, dir)?;
    let time = read_bar(alloc, time)?;
    let prev = read_prev(alloc, prev)?;
    let old_prev = read_old_prev(alloc, value_at(updates, TAB, OLD_PREV))?;
    let merged = read_merged(alloc, value_at(updates, TAB, MERGED))?;
    let chopped = read_chopped(value_at(updates, CHOPPED, CHOPPED))?;
    let loc = read_holder(alloc, updates, LOC)?;
    let future = read_holder(alloc, updates, FUTURE)?;
    let files = read_files(alloc, updates)?;
    let logs = read_logs(alloc, updates)?;
    let loaded = read_loaded(alloc, updates)?;
    Ok(TabletRecord {
        table,
        end,
        prev,
        old_prev,
        dir,
        time,
        loc,
        future,
        files,
        logs,
        loaded,
        chopped,
        merged,
    })
}

/// The record of a tablet, from its metadata row and the columns of that row, which are in order and none of them removed; so the
/// columns are those of this record, and of no other record of the row. `NoPrev` comes exactly where `~tab:~pr` isn't there; else
/// `BadColumn` exactly where a column is none of a tablet's, or a second `loc` or `future` is there; both take no memory. Else
/// `BadValue` comes where a value isn't of its form, or `srv:dir` or `srv:time` isn't there, and in its place only `NoMemory` may.
/// Takes memory for the record, and time with the bytes of the columns, which are gone through once for each kind.
pub fn record_of(alloc: Global, row: &Row, updates: &[Update]) -> Result<TabletRecord, SchemaFault>
    requires row { IsTabletRow row.now }
    requires columns { AreColumns updates.now }
    ensures ok { IfOk result (IsRecordOf row.now updates.now) }
    ensures in_form { OnOk result (HasPrev updates.now × HasColumns updates.now × HasValues updates.now) }
    ensures no_prev { IsErrOf result NoPrev ↔ (HasPrev updates.now → ⊥) }
    ensures bad_column { IsErrOf result BadColumn ↔ (HasPrev updates.now × (HasColumns updates.now → ⊥)) }
    ensures bad_value { IsErrOf result BadValue → HasPrev updates.now × HasColumns updates.now × (HasValues updates.now → ⊥) }
{
    if value_at(updates, TAB, PREV).is_none() {
        return Err(SchemaFault::NoPrev);
    }
    if !are_columns(updates) {
        return Err(SchemaFault::BadColumn);
    }
    read_columns(alloc, row, updates)
}
