// The previous row of a tablet, as a value.
ghost use Rattle.std.specs.Prelude.{◌≡◌, ◌↔◌, IfOk, IsErrOf, List, ℕ, Option};
ghost use Rattle.std.specs.Option.{option_copied};
ghost use Rattle.row_keys.specs.MetadataRow.{prev_value, IsPrevValue};
ghost use Rattle.row_keys.specs.declared.row.KeyForm.TheVariants.{TooLong, NoMark, BadPrev};

use crate::octets::Octets;
use crate::row::{KeyForm, MAX_ROW, Row};
use std::alloc::{AllocError, Global};

/// The value that stands for a previous row: the byte 0 for none, or the byte 1 and the row. Takes memory for the value, and
/// time with its length.
pub fn prev_value(alloc: Global, prev: Option<&Row>) -> Result<Octets, AllocError>
    ensures { IfOk result (λ value. value ≡ prev_value (option_copied prev.entry)) }
{
    let mut bytes = Vec::new(alloc);
    match prev {
        None => bytes.push(0)?,
        Some(row) => {
            bytes.push(1)?;
            bytes.extend_from_slice(row.as_bytes())?;
        }
    }
    Ok(Octets::from_vec(bytes))
}

/// The previous row that a value stands for. `BadPrev` comes exactly where it stands for none, and beside it `NoMemory` alone.
/// Takes memory for the row, and time with its length.
pub fn read_prev_value(alloc: Global, value: &Octets) -> Result<Option<Row>, KeyForm>
    ensures ok { IfOk result (λ prev. IsPrevValue prev value.now) }
    ensures bad_prev { IsErrOf result BadPrev ↔ ((prev : Option (List ℕ)) → IsPrevValue prev value.now → ⊥) }
    ensures no_mark { IsErrOf result NoMark → ⊥ }
    ensures too_long { IsErrOf result TooLong → ⊥ }
{
    let Some((first, row)) = value.as_bytes().split_first() else {
        return Err(KeyForm::BadPrev);
    };
    match *first {
        0 if row.is_empty() => Ok(None),
        1 if row.len() <= MAX_ROW => Ok(Some(Row::new(alloc, row)?)),
        _ => Err(KeyForm::BadPrev),
    }
}
