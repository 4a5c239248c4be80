// What the pairs of one row tell.
ghost use Rattle.std.specs.Prelude.{◌≡◌, ◌≢◌, ℕ, List, IfOk, IfErr, MatchBool};
ghost use Rattle.cell_merge.specs.declared.cell.Cell.{Cell};
ghost use Rattle.cell_merge.specs.Newest.{IsNewest};
ghost use Rattle.state_reader.specs.declared.level.LevelFault.TheVariants.{NoMemory};
ghost use Rattle.state_reader.specs.Columns.{HasPair, AreInOrder};
ghost use Rattle.state_reader.specs.LevelRows.{LevelCause};
ghost use Rattle.level_index.specs.Entries.{IsRowOf};
ghost use Rattle.level_index.specs.RowReads.{IsFoundIn, IsFirstRow, BeginWith, IsMarked};

use crate::entry::LevelEntry;
use cell_merge::Pair;
use row_keys::Row;
use state_reader::{
    LevelFault, LevelKind, is_of_kind, read_candidate, read_flag, read_record, tablet_at,
};
use std::alloc::Global;

const CANDIDATE: &[u8] = b"~del";

const FLAG: &[u8] = b"~blip";

/// What a row of such a level tells, or none where the row is none of such a level.
pub fn entry_in(
    alloc: Global,
    kind: LevelKind,
    pairs: &[Pair],
    row: &Row,
) -> Result<Option<LevelEntry>, LevelFault>
    requires { AreInOrder pairs.now }
    ensures ok { IfOk result (IsFoundIn kind pairs.now row.now) }
    ensures err { IfErr result (λ fault. (cells : List Cell) → IsNewest cells pairs.now → HasPair pairs.now row.now → LevelCause kind cells fault) }
{
    if let Some(tablet) = read_record(alloc, kind, pairs, row)? {
        return Ok(Some(LevelEntry::Tablet(tablet)));
    }
    if let Some(path) = read_candidate(alloc, pairs, row)? {
        return Ok(Some(LevelEntry::Candidate(path)));
    }
    if let Some(flag) = read_flag(alloc, pairs, row)? {
        return Ok(Some(LevelEntry::Flag(flag)));
    }
    Ok(None)
}

/// Whether the bytes begin with these.
fn begin_with(bytes: &[u8], front: &[u8]) -> bool
    ensures { MatchBool result (BeginWith front.now bytes.now) (BeginWith front.now bytes.now → ⊥) }
{
    bytes.starts_with(front)
}

/// Whether the row is one of a path to be deleted or of a path that is loaded.
fn is_marked(row: &Row) -> bool
    ensures { MatchBool result (IsMarked row.now) (IsMarked row.now → ⊥) }
{
    begin_with(row.as_bytes(), CANDIDATE) || begin_with(row.as_bytes(), FLAG)
}

/// Whether the row is one of such a level: of a tablet, a candidate or a flag.
pub fn is_row_of(alloc: Global, kind: LevelKind, row: &Row) -> Result<bool, LevelFault>
    ensures ok { IfOk result (λ is. MatchBool is (IsRowOf kind row.now) (IsRowOf kind row.now → ⊥)) }
    ensures err { IfErr result (λ fault. fault ≡ NoMemory) }
{
    match tablet_at(alloc, row)? {
        Some((table, _)) => Ok(is_of_kind(kind, &table)),
        None => Ok(is_marked(row)),
    }
}

/// Whether the pair is of this row.
fn is_in_row(pair: &Pair, row: &Row) -> bool
    ensures { MatchBool result (pair.now.key.row ≡ row.now) (pair.now.key.row ≢ row.now) }
{
    pair.key.row == *row
}

/// The pairs of this row in front, and those behind them.
pub fn first_row<'a>(pairs: &'a [Pair], row: &Row) -> (&'a [Pair], &'a [Pair])
    ensures { IsFirstRow row.now pairs.now result.0.now result.1.now }
{
    for (at, pair) in pairs.iter().enumerate() {
        if !is_in_row(pair, row) {
            return pairs.split_at(at);
        }
    }
    pairs.split_at(pairs.len())
}
