// The records among rows.
ghost use Rattle.std.specs.Prelude.{◌≡◌, ◌≢◌, ℕ, List, Option, IfOk, IfErr, MatchBool, MatchOption};
ghost use Rattle.row_keys.specs.MetadataRow.{IsMetadataRow};
ghost use Rattle.metadata_schema.specs.declared.fault.SchemaFault.TheVariants.{NoMemory as NoRoom};
ghost use Rattle.cell_merge.specs.declared.cell.Cell.{Cell};
ghost use Rattle.cell_merge.specs.Newest.{IsNewest};
ghost use Rattle.state_reader.specs.declared.level.LevelFault.TheVariants.{NoMemory};
ghost use Rattle.state_reader.specs.Columns.{HasPair, AllPaired, AreInOrder};
ghost use Rattle.state_reader.specs.LevelRows.{IsOfKind, LevelCause};
ghost use Rattle.state_reader.specs.RowReads.{IsRecordIn, IsNoTabletRow, AreRecordsIn};

use crate::columns::columns_in;
use crate::level::{BadRow, LevelFault, LevelKind};
use crate::lists::push_item;
use cell_merge::Pair;
use metadata_schema::{SchemaFault, TabletRecord, record_of};
use row_keys::{KeyForm, ListOf, Row, TableId, read_metadata_row};
use std::alloc::Global;

const METADATA_TABLE: &[u8] = b"!0";

/// Whether a level of this kind tells of the tablets of the table. Takes no memory.
pub fn is_of_kind(kind: LevelKind, table: &TableId) -> bool
    ensures { MatchBool result (IsOfKind kind table.now) (IsOfKind kind table.now → ⊥) }
{
    let id = table.as_bytes();
    match kind {
        LevelKind::Metadata => id == METADATA_TABLE,
        LevelKind::Users => true,
    }
}

/// The table and the end row of a tablet's row, or none where it is none. Takes memory for both.
pub fn tablet_at(alloc: Global, row: &Row) -> Result<Option<(TableId, Option<Row>)>, LevelFault>
    ensures ok { IfOk result (λ found. MatchOption found ((table : List ℕ) (end : Option (List ℕ)) → IsMetadataRow table end row.now → ⊥) (λ parts. IsMetadataRow parts.0 parts.1 row.now)) }
    ensures err { IfErr result (λ fault. fault ≡ NoMemory) }
{
    match read_metadata_row(alloc, row) {
        Ok(parts) => Ok(Some(parts)),
        Err(KeyForm::NoMark) => Ok(None),
        Err(_) => Err(LevelFault::NoMemory),
    }
}

/// Whether it is want of memory.
pub fn is_no_memory(fault: SchemaFault) -> bool
    ensures { MatchBool result (fault ≡ NoRoom) (fault ≢ NoRoom) }
{
    matches!(fault, SchemaFault::NoMemory)
}

/// The record of a row, of which a level of this kind tells, or none where the row is none of such a tablet. Each fault but want of
/// memory names the row, whose columns are those of no record. Takes one pass over the pairs, and memory for the columns of the row.
pub fn read_record(
    alloc: Global,
    kind: LevelKind,
    pairs: &[Pair],
    row: &Row,
) -> Result<Option<TabletRecord>, LevelFault>
    requires { AreInOrder pairs.now }
    ensures ok { IfOk result (λ found. MatchOption found (IsNoTabletRow kind row.now) (IsRecordIn kind pairs.now row.now)) }
    ensures err { IfErr result (λ fault. (cells : List Cell) → IsNewest cells pairs.now → HasPair pairs.now row.now → LevelCause kind cells fault) }
{
    let Some((table, _)) = tablet_at(alloc, row)? else {
        return Ok(None);
    };
    if !is_of_kind(kind, &table) {
        return Ok(None);
    }
    let columns = columns_in(alloc, pairs, row)?;
    let fault = match record_of(alloc, row, &columns) {
        Ok(tablet) => return Ok(Some(tablet)),
        Err(fault) => fault,
    };
    if is_no_memory(fault) {
        return Err(LevelFault::NoMemory);
    }
    Err(LevelFault::Bad(BadRow::Tablet(row.copy(alloc)?)))
}

/// The records of these rows, of which a level of this kind tells.
pub fn read_records(
    alloc: Global,
    kind: LevelKind,
    pairs: &[Pair],
    rows: &[Row],
) -> Result<ListOf<TabletRecord>, LevelFault>
    requires { AreInOrder pairs.now }
    ensures ok { IfOk result (AreRecordsIn kind pairs.now rows.now) }
    ensures err { IfErr result (λ fault. (cells : List Cell) → IsNewest cells pairs.now → AllPaired pairs.now rows.now → LevelCause kind cells fault) }
{
    let mut records = Vec::new(alloc);
    for row in rows {
        if let Some(tablet) = read_record(alloc, kind, pairs, row)? {
            push_item(&mut records, tablet)?;
        }
    }
    Ok(ListOf::from_vec(records))
}
