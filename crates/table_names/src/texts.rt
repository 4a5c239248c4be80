// Texts as words, where a byte that doesn't stand for itself is escaped.
ghost use Rattle.std.specs.Prelude.{◌≡◌, ◌++◌, ◌<◌, ◌^◌, [], ℕ, List, IfOk, IfSome, OnOk, MatchOption, length};
ghost use Rattle.std.specs.List.{flat_map};
ghost use Rattle.store_layout.specs.Words.{stands_for_itself, hexadecimal_digit, escaped, spelled_byte, word_of};
ghost use Rattle.table_names.specs.Words.{AreBytes};

use std::alloc::{AllocError, Global};

const EMPTY: &[u8] = b"\\e";

const DASH: &[u8] = b"\\x2d";

fn stands_for_itself(byte: u8) -> bool
    ensures { result ≡ stands_for_itself byte }
{
    byte >= b'!' && byte <= b'~' && byte != b'\\'
}

fn hexadecimal_digit(value: u8) -> u8
    requires { value < 16 }
    ensures { result ≡ hexadecimal_digit value }
{
    if value < 10 {
        value + b'0'
    } else {
        value - 10 + b'a'
    }
}

fn put_byte(word: &mut Vec<u8>, byte: u8) -> Result<(), AllocError>
    ensures { OnOk result (word.new.items ≡ word.old.items ++ spelled_byte byte) }
{
    if stands_for_itself(byte) {
        word.push(byte)?;
        return Ok(());
    }
    let digits = [hexadecimal_digit(byte / 16), hexadecimal_digit(byte % 16)];
    word.push(b'\\')?;
    word.push(b'x')?;
    word.push(digits[0])?;
    word.push(digits[1])?;
    Ok(())
}

fn spelled(alloc: Global, text: &[u8]) -> Result<Vec<u8>, AllocError>
    ensures { IfOk result (λ word. word.items ≡ flat_map spelled_byte text.now) }
{
    let mut word = Vec::new(alloc);
    for byte in text {
        put_byte(&mut word, *byte)?;
    }
    Ok(word)
}

/// The word of a text. Takes memory for it.
pub fn word_of(alloc: Global, text: &[u8]) -> Result<Vec<u8>, AllocError>
    ensures { IfOk result (λ word. word.items ≡ word_of text.now) }
{
    if text.is_empty() {
        return EMPTY.to_vec(alloc);
    }
    if text == b"-".as_slice() {
        return DASH.to_vec(alloc);
    }
    spelled(alloc, text)
}

fn hexadecimal_value(digit: u8) -> u8
    ensures value { (value : ℕ) → value < 16 → digit ≡ hexadecimal_digit value → result ≡ value }
    ensures small { result < 16 }
{
    match digit {
        b'0'..=b'9' => digit - b'0',
        b'a'..=b'f' => digit - b'a' + 10,
        _ => 0,
    }
}

/// The byte that a word begins with, and what stands behind it.
fn first_byte(word: &[u8]) -> Option<(u8, &[u8])>
    ensures is { MatchOption result (word.now ≡ []) (λ found. (byte : ℕ) (more : List ℕ) → byte < 2 ^ 8 → word.now ≡ spelled_byte byte ++ more → (found.0 ≡ byte) × (found.1.now ≡ more)) }
    ensures shorter { MatchOption result (word.now ≡ []) (λ found. length found.1.now < length word.now) }
    ensures small { IfSome result (λ found. found.0 < 2 ^ 8) }
{
    match word {
        [b'\\', b'x', high, low, rest @ ..] => Some((
            16 * hexadecimal_value(*high) + hexadecimal_value(*low),
            rest,
        )),
        [byte, rest @ ..] => Some((*byte, rest)),
        [] => None,
    }
}

/// The text that a word spells byte by byte; of a word that spells none, some text.
fn unspelled(alloc: Global, word: &[u8]) -> Result<Vec<u8>, AllocError>
    ensures is { IfOk result (λ text. (spelled : List ℕ) → AreBytes spelled → word.now ≡ flat_map spelled_byte spelled → text.items ≡ spelled) }
    ensures bytes { IfOk result (λ text. AreBytes text.items) }
{
    let mut text = Vec::new(alloc);
    let mut rest = word;
    while let Some((byte, behind)) = first_byte(rest) {
        text.push(byte)?;
        rest = behind;
    }
    Ok(text)
}

/// The text of a word, or some text where it is none's.
fn likely_text(alloc: Global, word: &[u8]) -> Result<Vec<u8>, AllocError>
    ensures is { IfOk result (λ text. (spelled : List ℕ) → AreBytes spelled → word.now ≡ word_of spelled → text.items ≡ spelled) }
    ensures bytes { IfOk result (λ text. AreBytes text.items) }
{
    if word == EMPTY {
        return Ok(Vec::new(alloc));
    }
    if word == DASH {
        return b"-".to_vec(alloc);
    }
    unspelled(alloc, word)
}

/// The text that a word is, or none where it is no text's. Takes memory for it.
pub fn read_text(alloc: Global, word: &[u8]) -> Result<Option<Vec<u8>>, AllocError>
    ensures { IfOk result (λ found. MatchOption found ((text : List ℕ) → AreBytes text → word.now ≡ word_of text → ⊥) (λ text. (word.now ≡ word_of text.items) × AreBytes text.items)) }
{
    let text = likely_text(alloc, word)?;
    let spelled = word_of(alloc, &text)?;
    if spelled.as_slice() == word {
        Ok(Some(text))
    } else {
        Ok(None)
    }
}
