// Words of a line.
ghost use Rattle.std.specs.Prelude.{◌≡◌, ◌∷◌, ◌<◌, ◌≤◌, [], MatchOption, IfSome, length};
ghost use Rattle.script_words.specs.Words.{is_blank, leading, words_of};

/// A space or a tab.
fn is_blank(byte: u8) -> bool
    ensures { result ≡ is_blank byte }
{
    byte == b' ' || byte == b'\t'
}

/// How many bytes at the front are blank, or how many are not.
fn leading(bytes: &[u8], blank: bool) -> usize
    ensures is { result ≡ leading blank bytes.now }
    ensures within { result ≤ length bytes.now }
{
    for (i, byte) in bytes.iter().enumerate() {
        if is_blank(*byte) != blank {
            return i;
        }
    }
    bytes.len()
}

/// The first word and the bytes behind it, or none where there is no word. Takes no memory.
pub fn next_word(bytes: &[u8]) -> Option<(&[u8], &[u8])>
    ensures is { MatchOption result (words_of bytes.now ≡ []) (λ found. words_of bytes.now ≡ found.0.now ∷ words_of found.1.now) }
    ensures some { IfSome result (λ found. 0 < length found.0.now) }
{
    let (_, text) = bytes.split_at(leading(bytes, true));
    if text.is_empty() {
        return None;
    }
    Some(text.split_at(leading(text, false)))
}
