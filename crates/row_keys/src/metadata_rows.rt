// The row of a tablet in a metadata table.
ghost use Rattle.std.specs.Prelude.{◌≡◌, ◌≤◌, ◌↔◌, length, IfOk, IsErrOf, IfSome, IfNone, List, ℕ, Option, position};
ghost use Rattle.std.specs.Option.{option_copied};
ghost use Rattle.row_keys.specs.Marks.{is_mark, IsSplit};
ghost use Rattle.row_keys.specs.MetadataRow.{metadata_row, IsMetadataRow};
ghost use Rattle.row_keys.specs.declared.row.KeyForm.TheVariants.{TooLong, NoMark, BadPrev};

use crate::forms::TableId;
use crate::octets::Octets;
use crate::row::{KeyForm, Row};
use std::alloc::{AllocError, Global};

const MAX_END: usize = 256;

/// The row of a tablet: its table's id, and behind it `;` and the end row, or `<` for the last tablet. Takes memory for the row,
/// and time with its length.
pub fn metadata_row(alloc: Global, table: &TableId, end: Option<&Row>) -> Result<Row, AllocError>
    requires { IfSome (option_copied end) (λ row. length row ≤ 256) }
    ensures { IfOk result (λ row. row ≡ metadata_row table.now (option_copied end.entry)) }
{
    let mut bytes = table.as_bytes().to_vec(alloc)?;
    match end {
        Some(row) => {
            bytes.push(b';')?;
            bytes.extend_from_slice(row.as_bytes())?;
        }
        None => bytes.push(b'<')?,
    }
    Ok(Row::from_octets(Octets::from_vec(bytes)))
}

fn is_mark(byte: u8) -> bool
    ensures { result ≡ is_mark byte }
{
    byte == b';' || byte == b'<'
}

/// The place of the first mark.
fn first_mark(bytes: &[u8]) -> Option<usize>
    ensures { result ≡ position is_mark bytes.now }
{
    bytes.iter().position(|byte| is_mark(*byte))
}

/// The bytes before the first mark, and the end row behind it, or none where they aren't spelled as a metadata row's.
fn split_at_mark(bytes: &[u8]) -> Option<(&[u8], Option<&[u8]>)>
    ensures parts { IfSome result (λ parts. IsSplit parts.0.now (option_copied parts.1) bytes.now) }
    ensures none { IfNone result ((table : List ℕ) (end : Option (List ℕ)) → IsMetadataRow table end bytes.now → ⊥) }
{
    let at = first_mark(bytes)?;
    let (table, marked) = bytes.split_at(at);
    let (mark, end) = marked.split_first()?;
    match *mark {
        b'<' if end.is_empty() => Some((table, None)),
        b';' if end.len() <= MAX_END => Some((table, Some(end))),
        _ => None,
    }
}

/// The table's id and the end row of a metadata row. `NoMark` comes exactly where the row is neither a table's id, `;` and an
/// end row of at most 256 bytes, nor a table's id and `<`; beside it `NoMemory` alone. Takes memory for both, and time with the row's length.
pub fn read_metadata_row(alloc: Global, row: &Row) -> Result<(TableId, Option<Row>), KeyForm>
    ensures ok { IfOk result (λ parts. IsMetadataRow parts.0 parts.1 row.now) }
    ensures no_mark { IsErrOf result NoMark ↔ ((table : List ℕ) (end : Option (List ℕ)) → IsMetadataRow table end row.now → ⊥) }
    ensures bad_prev { IsErrOf result BadPrev → ⊥ }
    ensures too_long { IsErrOf result TooLong → ⊥ }
{
    let Some((id, end)) = split_at_mark(row.as_bytes()) else {
        return Err(KeyForm::NoMark);
    };
    let Some(table) = TableId::new(alloc, id)? else {
        return Err(KeyForm::NoMark);
    };
    let end = match end {
        Some(bytes) => Some(Row::new(alloc, bytes)?),
        None => None,
    };
    Ok((table, end))
}
