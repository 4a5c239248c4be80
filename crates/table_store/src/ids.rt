// The ids of tables, and the numbers that they spell.
ghost use Rattle.std.specs.Prelude.{◌≡◌, ◌≤◌, ◌<◌, ◌^◌, false, Some, IfOk, MatchOption, ℕ};
ghost use Rattle.std.specs.Fmt.{digit_glyph};
ghost use Rattle.table_store.specs.Numbers.{base36, value_of, value_from};

use row_keys::TableId;
use std::alloc::{AllocError, Global};

const BASE: u64 = 36;

fn glyph(digit: u8) -> u8
    requires { digit < 36 }
    ensures { result ≡ digit_glyph false digit }
{
    if digit < 10 {
        b'0' + digit
    } else {
        b'a' + (digit - 10)
    }
}

fn digits(alloc: Global, number: u64) -> Result<Vec<u8>, AllocError>
    ensures { IfOk result (λ digits. digits.items ≡ base36 number) }
{
    let mut digits = Vec::new(alloc);
    let mut rest = number;
    while rest >= BASE {
        digits.push(glyph((rest % BASE) as u8))?;
        rest /= BASE;
    }
    digits.push(glyph(rest as u8))?;
    digits.reverse();
    Ok(digits)
}

/// The id of the table of this number: the number in lower-case base 36.
pub fn table_id(alloc: Global, number: u64) -> Result<TableId, AllocError>
    ensures { IfOk result (λ id. id ≡ base36 number) }
{
    let digits = digits(alloc, number)?;
    let id = TableId::new(alloc, &digits)?;
    Ok(id.unwrap())
}

fn value_of(byte: u8) -> Option<u64>
    ensures { result ≡ value_of byte }
{
    match byte {
        b'0'..=b'9' => Some(u64::from(byte - b'0')),
        b'a'..=b'z' => Some(u64::from(byte - b'a' + 10)),
        _ => None,
    }
}

/// The number that an id spells, where it fits 64 bits. Takes no memory.
pub fn number_of(id: &[u8]) -> Option<u64>
    ensures { MatchOption result ((number : ℕ) → value_from 0 id.now ≡ Some number → 2 ^ 64 ≤ number) (λ number. value_from 0 id.now ≡ Some number) }
{
    let mut number: u64 = 0;
    for byte in id {
        let digit = value_of(*byte)?;
        number = number.checked_mul(BASE)?.checked_add(digit)?;
    }
    Some(number)
}
