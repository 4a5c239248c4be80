// A line of a script.
ghost use Rattle.std.specs.Prelude.{◌≡◌, IfOk};
ghost use Rattle.script_words.specs.Words.{words_of};
ghost use Rattle.script_words.specs.Lines.{line_of, create_of, tables_of, begins_comment, is_text};

use crate::word::next_word;
use row_keys::TableName;
use std::alloc::{AllocError, Global};

/// What a line asks for.
#[derive(Debug, Drop)]
pub enum Line {
    /// No words, or a first word that begins with `#`.
    Blank,
    /// `createtable U`
    CreateTable(TableName),
    /// `tables`
    Tables,
    /// Every other line.
    Unbuilt,
}

/// Reads a line, without its line feed and a carriage return before that. Takes memory for the names in it.
pub fn read_line(alloc: Global, bytes: &[u8]) -> Result<Line, AllocError>
    ensures { IfOk result (λ line. line ≡ line_of bytes.now) }
{
    let Some((command, rest)) = next_word(bytes) else {
        return Ok(Line::Blank);
    };
    if begins_comment(command) {
        return Ok(Line::Blank);
    }
    if is_text(command, b"createtable") {
        return read_create(alloc, rest);
    }
    if is_text(command, b"tables") {
        return Ok(read_tables(rest));
    }
    Ok(Line::Unbuilt)
}

fn begins_comment(word: &[u8]) -> bool
    ensures { result ≡ begins_comment word.now }
{
    matches!(word, [b'#', ..])
}

fn is_text(word: &[u8], text: &[u8]) -> bool
    ensures { result ≡ is_text word.now text.now }
{
    word == text
}

fn read_create(alloc: Global, rest: &[u8]) -> Result<Line, AllocError>
    ensures { IfOk result (λ line. line ≡ create_of (words_of rest.now)) }
{
    let Some((name, rest)) = next_word(rest) else {
        return Ok(Line::Unbuilt);
    };
    if next_word(rest).is_some() {
        return Ok(Line::Unbuilt);
    }
    match TableName::new(alloc, name)? {
        Some(name) => Ok(Line::CreateTable(name)),
        None => Ok(Line::Unbuilt),
    }
}

fn read_tables(rest: &[u8]) -> Line
    ensures { result ≡ tables_of (words_of rest.now) }
{
    match next_word(rest) {
        Some(_) => Line::Unbuilt,
        None => Line::Tables,
    }
}
