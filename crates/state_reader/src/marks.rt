// Candidates to be deleted, and flags of loads, among rows.
ghost use Rattle.std.specs.Prelude.{◌≡◌, ℕ, List, IfOk, IfErr, MatchOption};
ghost use Rattle.std.specs.Option.{option_copied};
ghost use Rattle.cell_merge.specs.declared.cell.Cell.{Cell};
ghost use Rattle.cell_merge.specs.Newest.{IsNewest};
ghost use Rattle.store_meaning.specs.Levels.{lone_column};
ghost use Rattle.state_reader.specs.declared.level.LevelKind.{LevelKind};
ghost use Rattle.state_reader.specs.Columns.{HasPair, AllPaired};
ghost use Rattle.state_reader.specs.LevelRows.{LevelCause};
ghost use Rattle.state_reader.specs.RowReads.{IsCandidateIn, IsNoCandidateRow, IsFlagIn, IsNoFlagRow, AreCandidatesIn, AreFlagsIn};

use crate::columns::columns_in;
use crate::flag_text::read_flag_text;
use crate::level::{BadRow, LevelFault, LoadFlag};
use crate::lists::push_item;
use crate::paths::file_path;
use cell_merge::Pair;
use metadata_schema::Update;
use row_keys::{ListOf, Octets, Path, Paths, Row};
use std::alloc::Global;

const CANDIDATE: &[u8] = b"~del";

const FLAG: &[u8] = b"~blip";

/// The value of a lone column, of an empty family and qualifier, or none where there isn't just such a one.
fn lone_value(columns: &[Update]) -> Option<&Octets>
    ensures { MatchOption (option_copied result) ((value : List ℕ) → columns.now ≡ lone_column value → ⊥) (λ value. columns.now ≡ lone_column value) }
{
    let [only] = columns else {
        return None;
    };
    if !only.family.as_bytes().is_empty() {
        return None;
    }
    if !only.qualifier.as_bytes().is_empty() {
        return None;
    }
    only.value.as_ref()
}

/// The path of a candidate's row, or none where the row is none of a candidate. Each fault but want of memory names the row, whose
/// columns are those of no candidate. Takes one pass over the pairs, and memory for the columns of the row.
pub fn read_candidate(alloc: Global, pairs: &[Pair], row: &Row) -> Result<Option<Path>, LevelFault>
    ensures ok { IfOk result (λ found. MatchOption found (IsNoCandidateRow row.now) (IsCandidateIn pairs.now row.now)) }
    ensures err { IfErr result (λ fault. (kind : LevelKind) (cells : List Cell) → IsNewest cells pairs.now → HasPair pairs.now row.now → LevelCause kind cells fault) }
{
    let Some(bytes) = row.as_bytes().strip_prefix(CANDIDATE) else {
        return Ok(None);
    };
    let columns = columns_in(alloc, pairs, row)?;
    let Some(value) = lone_value(&columns) else {
        return Err(LevelFault::Bad(BadRow::Candidate(row.copy(alloc)?)));
    };
    if !value.as_bytes().is_empty() {
        return Err(LevelFault::Bad(BadRow::Candidate(row.copy(alloc)?)));
    }
    let Some(path) = file_path(alloc, bytes)? else {
        return Err(LevelFault::Bad(BadRow::Candidate(row.copy(alloc)?)));
    };
    Ok(Some(path))
}

/// The flag of a flag's row, or none where the row is none of a flag. Each fault but want of memory names the row, whose columns are
/// those of no flag. Takes one pass over the pairs, and memory for the columns of the row.
pub fn read_flag(alloc: Global, pairs: &[Pair], row: &Row) -> Result<Option<LoadFlag>, LevelFault>
    ensures ok { IfOk result (λ found. MatchOption found (IsNoFlagRow row.now) (IsFlagIn pairs.now row.now)) }
    ensures err { IfErr result (λ fault. (kind : LevelKind) (cells : List Cell) → IsNewest cells pairs.now → HasPair pairs.now row.now → LevelCause kind cells fault) }
{
    let Some(bytes) = row.as_bytes().strip_prefix(FLAG) else {
        return Ok(None);
    };
    let columns = columns_in(alloc, pairs, row)?;
    let Some(value) = lone_value(&columns) else {
        return Err(LevelFault::Bad(BadRow::Flag(row.copy(alloc)?)));
    };
    let Some((tid, number)) = read_flag_text(alloc, value.as_bytes())? else {
        return Err(LevelFault::Bad(BadRow::Flag(row.copy(alloc)?)));
    };
    let Some(path) = file_path(alloc, bytes)? else {
        return Err(LevelFault::Bad(BadRow::Flag(row.copy(alloc)?)));
    };
    Ok(Some(LoadFlag { path, tid, number }))
}

/// The candidates of these rows.
pub fn read_candidates(alloc: Global, pairs: &[Pair], rows: &[Row]) -> Result<Paths, LevelFault>
    ensures ok { IfOk result (AreCandidatesIn pairs.now rows.now) }
    ensures err { IfErr result (λ fault. (kind : LevelKind) (cells : List Cell) → IsNewest cells pairs.now → AllPaired pairs.now rows.now → LevelCause kind cells fault) }
{
    let mut paths = Vec::new(alloc);
    for row in rows {
        if let Some(path) = read_candidate(alloc, pairs, row)? {
            push_item(&mut paths, path)?;
        }
    }
    Ok(ListOf::from_vec(paths))
}

/// The flags of these rows.
pub fn read_flags(
    alloc: Global,
    pairs: &[Pair],
    rows: &[Row],
) -> Result<ListOf<LoadFlag>, LevelFault>
    ensures ok { IfOk result (AreFlagsIn pairs.now rows.now) }
    ensures err { IfErr result (λ fault. (kind : LevelKind) (cells : List Cell) → IsNewest cells pairs.now → AllPaired pairs.now rows.now → LevelCause kind cells fault) }
{
    let mut flags = Vec::new(alloc);
    for row in rows {
        if let Some(flag) = read_flag(alloc, pairs, row)? {
            push_item(&mut flags, flag)?;
        }
    }
    Ok(ListOf::from_vec(flags))
}
