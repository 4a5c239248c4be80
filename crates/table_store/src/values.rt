// What the paths and values of nodes say.
ghost use Rattle.std.specs.Prelude.{◌≡◌, ℕ, List, MatchBool, MatchOption, IfOk};
ghost use Rattle.row_keys.specs.Forms.{IsWordName};
ghost use Rattle.table_store.specs.Numbers.{IsDrawn};
ghost use Rattle.table_store.specs.Layout.{table_path, table_value};

use crate::ids::number_of;
use crate::nodes::{NO_MARK, ONLINE, TABLES};
use row_keys::{TableId, TableName};
use std::alloc::{AllocError, Global};

const MAX_ID: usize = 13;

/// One past the greatest number that may be drawn next.
pub const NUMBER_END: u64 = 1 << 63;

/// Whether the id is that of a number drawn before `next`.
fn is_drawn(next: u64, id: &[u8]) -> bool
    ensures { MatchBool result (IsDrawn next id.now) (IsDrawn next id.now → ⊥) }
{
    match number_of(id) {
        Some(number) => id.len() <= MAX_ID && number > 0 && number < next,
        None => false,
    }
}

/// The id of the table whose node has this path, where it was drawn before `next`.
pub fn id_of(alloc: Global, next: u64, path: &[u8]) -> Result<Option<TableId>, AllocError>
    ensures { IfOk result (λ found. MatchOption found ((id : List ℕ) → path.now ≡ table_path id → IsDrawn next id → ⊥) (λ id. (path.now ≡ table_path id) × IsDrawn next id)) }
{
    match path.strip_prefix(TABLES) {
        Some(id) if is_drawn(next, id) => TableId::new(alloc, id),
        _ => Ok(None),
    }
}

fn named(value: &[u8]) -> Option<&[u8]>
    ensures { MatchOption result ((name : List ℕ) → value.now ≡ table_value name → ⊥) (λ name. value.now ≡ table_value name.now) }
{
    value.strip_prefix(ONLINE)?.strip_suffix(NO_MARK)
}

/// The name of the table whose node has this value.
pub fn name_of(alloc: Global, value: &[u8]) -> Result<Option<TableName>, AllocError>
    ensures { IfOk result (λ found. MatchOption found ((name : List ℕ) → value.now ≡ table_value name → IsWordName name → ⊥) (λ name. (value.now ≡ table_value name) × IsWordName name)) }
{
    match named(value) {
        Some(name) => TableName::new(alloc, name),
        None => Ok(None),
    }
}
