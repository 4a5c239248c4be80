// The forms of directories and of the paths of data files.
ghost use Rattle.std.specs.Prelude.{◌≡◌, MatchBool};
ghost use Rattle.std.specs.List.{list_all};
ghost use Rattle.metadata_schema.specs.Paths.{is_base36, is_fixed, is_file_kind, IsDrawnText, IsDirectory, IsFileName, IsFilePath};

use crate::parts::parted;
use row_keys::{Form, TableIdForm};

const DRAWN: usize = 7;

const MAX_DRAWN: usize = 13;

const END: &[u8] = b".rf";

fn is_base36(byte: u8) -> bool
    ensures { result ≡ is_base36 byte }
{
    byte.is_ascii_digit() || byte.is_ascii_uppercase()
}

fn are_base36(bytes: &[u8]) -> bool
    ensures { result ≡ list_all is_base36 bytes.now }
{
    bytes.iter().all(|byte| is_base36(*byte))
}

fn is_file_kind(byte: u8) -> bool
    ensures { result ≡ is_file_kind byte }
{
    byte == b'F' || byte == b'C' || byte == b'A' || byte == b'I'
}

/// Whether this is a drawn number in upper-case base 36, padded to seven digits. Takes no memory; time goes with its length.
/// This project's own.
pub fn is_drawn_text(text: &[u8]) -> bool
    ensures { MatchBool result (IsDrawnText text.now) (IsDrawnText text.now → ⊥) }
{
    match text {
        [b'0', rest @ ..] => rest.len() + 1 == DRAWN && are_base36(text),
        _ => text.len() >= DRAWN && text.len() <= MAX_DRAWN && are_base36(text),
    }
}

/// Whether this is a directory that isn't drawn.
fn is_fixed(bytes: &[u8]) -> bool
    ensures { result ≡ is_fixed bytes.now }
{
    bytes == b"root_tablet".as_slice()
        || bytes == b"table_info".as_slice()
        || bytes == b"default_tablet".as_slice()
}

/// Whether this is the directory of a tablet. Takes no memory; time goes with its length.
pub(crate) fn is_directory(bytes: &[u8]) -> bool
    ensures { MatchBool result (IsDirectory bytes.now) (IsDirectory bytes.now → ⊥) }
{
    match bytes {
        [b't', b'-', text @ ..] => is_drawn_text(text),
        _ => is_fixed(bytes),
    }
}

/// Whether this is a kind, a drawn number and `.rf`.
fn is_file_name(bytes: &[u8]) -> bool
    ensures { MatchBool result (IsFileName bytes.now) (IsFileName bytes.now → ⊥) }
{
    let Some((kind, rest)) = bytes.split_first() else {
        return false;
    };
    let Some(text) = rest.strip_suffix(END) else {
        return false;
    };
    if !is_file_kind(*kind) {
        return false;
    }
    is_drawn_text(text)
}

/// Whether this is the path of a data file: a table's id, a directory and a name, with a slash between each two. Takes no
/// memory; time goes with its length. This project's own.
pub fn is_file_path(bytes: &[u8]) -> bool
    ensures { MatchBool result (IsFilePath bytes.now) (IsFilePath bytes.now → ⊥) }
{
    let Some((id, rest)) = parted(bytes, b'/') else {
        return false;
    };
    let Some((dir, name)) = parted(rest, b'/') else {
        return false;
    };
    if !TableIdForm::accepts(id) {
        return false;
    }
    if !is_directory(dir) {
        return false;
    }
    is_file_name(name)
}
