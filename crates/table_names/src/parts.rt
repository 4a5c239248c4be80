// Bytes parted by a mark.
ghost use Rattle.std.specs.Prelude.{◌≡◌, ◌==◌, IfOk, IsTrue, MatchOption, position};
ghost use Rattle.metadata_schema.specs.Bytes.{is_free, IsParted};
ghost use Rattle.table_names.specs.Words.{IsSplit};

use row_keys::Octets;
use std::alloc::{AllocError, Global};

/// The place of the first mark.
fn place_of(bytes: &[u8], mark: u8) -> Option<usize>
    ensures { result ≡ position (λ byte. byte == mark) bytes.now }
{
    bytes.iter().position(|byte| *byte == mark)
}

/// The bytes before the first mark, and those behind it, or none where there is no mark.
pub fn parted(bytes: &[u8], mark: u8) -> Option<(&[u8], &[u8])>
    ensures { MatchOption result (IsTrue (is_free mark bytes.now)) (λ parts. IsParted mark parts.0.now parts.1.now bytes.now) }
{
    let Some(at) = place_of(bytes, mark) else {
        return None;
    };
    Some((&bytes[..at], &bytes[at + 1..]))
}

/// The words of a text, which are parted by one space. Takes memory for them, and time with the text's length.
pub fn split_words(alloc: Global, text: &[u8]) -> Result<Vec<Octets>, AllocError>
    ensures { IfOk result (λ words. IsSplit text.now words.items) }
{
    let mut words = Vec::new(alloc);
    let mut rest = text;
    while let Some((word, behind)) = parted(rest, b' ') {
        words.push(Octets::new(alloc, word)?)?;
        rest = behind;
    }
    words.push(Octets::new(alloc, rest)?)?;
    Ok(words)
}
