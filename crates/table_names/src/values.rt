// The value of a table's node.
ghost use Rattle.std.specs.Prelude.{◌≡◌, IfOk, MatchBool, MatchOption};
ghost use Rattle.row_keys.specs.Forms.{IsUserTableId};
ghost use Rattle.store_layout.specs.Tables.{table_value};
ghost use Rattle.table_names.specs.Marks.{AreTableWords, AreNoTableWords, IsTableValue, IsNoTableValue};

use crate::marks::{put_mark, read_mark};
use crate::parts::split_words;
use crate::words::{put_word, read_state, state_word};
use row_keys::{Octets, TableId, TableName};
use std::alloc::{AllocError, Global};
use store_layout::{Mark, TableNode, TableState};

/// The state, the name and the mark that these words are, or none where they are no table's.
fn read_words(
    alloc: Global,
    words: &[Octets],
) -> Result<Option<(TableState, TableName, Mark)>, AllocError>
    ensures { IfOk result (λ found. MatchOption found (AreNoTableWords words.now) (λ parts. AreTableWords words.now parts.0 parts.1 parts.2)) }
{
    let [state, name, mark @ ..] = words else {
        return Ok(None);
    };
    let Some(state) = read_state(state.as_bytes()) else {
        return Ok(None);
    };
    let Some(name) = TableName::new(alloc, name.as_bytes())? else {
        return Ok(None);
    };
    let Some(mark) = read_mark(alloc, mark)? else {
        return Ok(None);
    };
    Ok(Some((state, name, mark)))
}

/// Whether it is the id of a user's table.
fn is_user_table(id: &TableId) -> bool
    ensures { MatchBool result (IsUserTableId id.now) (IsUserTableId id.now → ⊥) }
{
    match id.as_bytes() {
        b"+r" | b"!0" => false,
        _ => true,
    }
}

/// The table of this id that a value spells, or none where it spells none. Takes memory for its words and the table, and
/// time with its length.
pub fn read_table(
    alloc: Global,
    id: &TableId,
    value: &[u8],
) -> Result<Option<TableNode>, AllocError>
    ensures { IfOk result (λ found. MatchOption found (IsNoTableValue id.now value.now) (IsTableValue id.now value.now)) }
{
    if !is_user_table(id) {
        return Ok(None);
    }
    let words = split_words(alloc, value)?;
    let Some((state, name, mark)) = read_words(alloc, &words)? else {
        return Ok(None);
    };
    Ok(Some(TableNode {
        id: id.copy(alloc)?,
        name,
        state,
        mark,
    }))
}

/// The value that spells a table. Takes memory for it.
pub fn table_value(alloc: Global, table: &TableNode) -> Result<Octets, AllocError>
    ensures { IfOk result (λ value. value ≡ table_value table.now) }
{
    let mut bytes = state_word(table.state).to_vec(alloc)?;
    put_word(&mut bytes, table.name.as_bytes())?;
    put_mark(alloc, &mut bytes, &table.mark)?;
    Ok(Octets::from_vec(bytes))
}
