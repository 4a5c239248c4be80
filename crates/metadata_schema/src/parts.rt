// Bytes parted by a mark.
ghost use Rattle.std.specs.Prelude.{◌≡◌, ◌==◌, IsTrue, MatchOption, position};
ghost use Rattle.metadata_schema.specs.Bytes.{is_free, IsParted};

/// The place of the first mark.
fn place_of(bytes: &[u8], mark: u8) -> Option<usize>
    ensures { result ≡ position (λ byte. byte == mark) bytes.now }
{
    bytes.iter().position(|byte| *byte == mark)
}

/// The bytes before the first mark, and those behind it, or none where there is no mark. Takes no memory.
pub(crate) fn parted(bytes: &[u8], mark: u8) -> Option<(&[u8], &[u8])>
    ensures { MatchOption result (IsTrue (is_free mark bytes.now)) (λ parts. IsParted mark parts.0.now parts.1.now bytes.now) }
{
    let Some(at) = place_of(bytes, mark) else {
        return None;
    };
    Some((&bytes[..at], &bytes[at + 1..]))
}
