// The numbers in the value of a flag.
ghost use Rattle.std.specs.Prelude.{◌≡◌, ◌==◌, ℕ, ◌<◌, ◌^◌, ◌++◌, ◌∷◌, Some, IfOk, IsTrue, MatchOption, position};
ghost use Rattle.std.specs.Fmt.{decimal};
ghost use Rattle.metadata_schema.specs.Bytes.{is_free, IsParted};
ghost use Rattle.state_reader.specs.RowReads.{flag_text};

use std::alloc::{AllocError, Global};
use std::str;

fn parsed(text: &[u8]) -> Option<u64>
    ensures { (number : ℕ) → number < 2 ^ 64 → text.now ≡ decimal number → result ≡ Some number }
{
    let text = str::from_utf8(text).ok()?;
    text.parse().ok()
}

/// The number that a text spells, or none where it spells none.
fn read_number(alloc: Global, text: &[u8]) -> Result<Option<u64>, AllocError>
    ensures { IfOk result (λ found. MatchOption found ((number : ℕ) → number < 2 ^ 64 → text.now ≡ decimal number → ⊥) (λ number. text.now ≡ decimal number)) }
{
    let Some(number) = parsed(text) else {
        return Ok(None);
    };
    let spelled = number.to_string(alloc)?;
    if spelled.as_bytes() == text {
        Ok(Some(number))
    } else {
        Ok(None)
    }
}

/// The place of the first comma.
fn first_comma(text: &[u8]) -> Option<usize>
    ensures { result ≡ position (λ byte. byte == 44) text.now }
{
    text.iter().position(|byte| *byte == b',')
}

/// The bytes before the first comma, and those behind it.
fn parted(text: &[u8]) -> Option<(&[u8], &[u8])>
    ensures { MatchOption result (IsTrue (is_free 44 text.now)) (λ parts. IsParted 44 parts.0.now parts.1.now text.now) }
{
    let Some(at) = first_comma(text) else {
        return None;
    };
    Some((&text[..at], &text[at + 1..]))
}

/// The transaction and the number of a flag's value, or none where it spells none. Takes memory for their spelling.
pub fn read_flag_text(alloc: Global, text: &[u8]) -> Result<Option<(u64, u64)>, AllocError>
    ensures { IfOk result (λ found. MatchOption found ((tid number : ℕ) → tid < 2 ^ 64 → number < 2 ^ 64 → text.now ≡ flag_text tid number → ⊥) (λ parts. text.now ≡ flag_text parts.0 parts.1)) }
{
    let Some((front, back)) = parted(text) else {
        return Ok(None);
    };
    let Some(tid) = read_number(alloc, front)? else {
        return Ok(None);
    };
    let Some(number) = read_number(alloc, back)? else {
        return Ok(None);
    };
    Ok(Some((tid, number)))
}
