// Numbers in values: decimal, without leading zeros.
ghost use Rattle.std.specs.Prelude.{◌≡◌, ℕ, ◌<◌, ◌^◌, Some, IfOk, MatchResult};
ghost use Rattle.std.specs.Fmt.{decimal};
ghost use Rattle.metadata_schema.specs.Values.{IsNumberText, IsTimeText};
ghost use Rattle.metadata_schema.specs.Refusals.{Refuses};

use crate::fault::SchemaFault;
use row_keys::Octets;
use std::alloc::{AllocError, Global};
use std::str;

/// One past the greatest time.
const TIME_END: u64 = 1 << 63;

fn parsed(text: &[u8]) -> Option<u64>
    ensures { (number : ℕ) → number < 2 ^ 64 → text.now ≡ decimal number → result ≡ Some number }
{
    let text = str::from_utf8(text).ok()?;
    text.parse().ok()
}

/// The number that a text spells. Takes memory for its spelling.
pub(crate) fn read_number(alloc: Global, text: &[u8]) -> Result<u64, SchemaFault>
    ensures { MatchResult result (λ number. text.now ≡ decimal number) (Refuses (IsNumberText text.now)) }
{
    let Some(number) = parsed(text) else {
        return Err(SchemaFault::BadValue);
    };
    let spelled = number.to_string(alloc)?;
    if spelled.as_bytes() == text {
        Ok(number)
    } else {
        Err(SchemaFault::BadValue)
    }
}

/// The time that a text spells. Takes memory for its spelling.
pub(crate) fn read_time(alloc: Global, text: &[u8]) -> Result<u64, SchemaFault>
    ensures { MatchResult result (λ time. (time < 2 ^ 63) × (text.now ≡ decimal time)) (Refuses (IsTimeText text.now)) }
{
    let time = read_number(alloc, text)?;
    if time < TIME_END {
        Ok(time)
    } else {
        Err(SchemaFault::BadValue)
    }
}

/// The spelling of a number.
pub(crate) fn number_value(alloc: Global, number: u64) -> Result<Octets, AllocError>
    ensures { IfOk result (λ value. value ≡ decimal number) }
{
    let text = number.to_string(alloc)?;
    Octets::new(alloc, text.as_bytes())
}
