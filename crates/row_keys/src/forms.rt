// The forms of names and ids.
ghost use Rattle.std.specs.Prelude.{◌≡◌, MatchBool};
ghost use Rattle.std.specs.List.{list_all};
ghost use Rattle.row_keys.specs.Forms.{is_lower_or_digit, is_word_byte, is_hexadecimal, IsTableId, IsPath, IsSessionId, IsLogName, IsServerName, IsWordName};

use crate::spelled::{Form, Spelled};

const MAX_ID: usize = 13;

const MAX_PATH: usize = 200;

const SESSION: usize = 16;

const MAX_SERVER: usize = 32;

const MAX_WORD: usize = 64;

fn is_lower_or_digit(byte: u8) -> bool
    ensures { result ≡ is_lower_or_digit byte }
{
    byte.is_ascii_lowercase() || byte.is_ascii_digit()
}

fn are_lower_or_digits(bytes: &[u8]) -> bool
    ensures { result ≡ list_all is_lower_or_digit bytes.now }
{
    bytes.iter().all(|byte| is_lower_or_digit(*byte))
}

fn is_word_byte(byte: u8) -> bool
    ensures { result ≡ is_word_byte byte }
{
    byte.is_ascii_alphanumeric() || byte == b'_'
}

fn are_word_bytes(bytes: &[u8]) -> bool
    ensures { result ≡ list_all is_word_byte bytes.now }
{
    bytes.iter().all(|byte| is_word_byte(*byte))
}

fn is_hexadecimal(byte: u8) -> bool
    ensures { result ≡ is_hexadecimal byte }
{
    byte.is_ascii_digit() || matches!(byte, b'a'..=b'f')
}

fn are_hexadecimal(bytes: &[u8]) -> bool
    ensures { result ≡ list_all is_hexadecimal bytes.now }
{
    bytes.iter().all(|byte| is_hexadecimal(*byte))
}

fn is_word_name(bytes: &[u8]) -> bool
    ensures { MatchBool result (IsWordName bytes.now) (IsWordName bytes.now → ⊥) }
{
    !bytes.is_empty() && bytes.len() <= MAX_WORD && are_word_bytes(bytes)
}

fn is_session(bytes: &[u8]) -> bool
    ensures { MatchBool result (IsSessionId bytes.now) (IsSessionId bytes.now → ⊥) }
{
    bytes.len() == SESSION && are_hexadecimal(bytes)
}

/// `+r`, `!0`, or 1 to 13 lower-case letters or digits.
#[derive(Debug, Drop)]
pub struct TableIdForm;

impl Form for TableIdForm {
    ghost is_form = { IsTableId };

    fn accepts(bytes: &[u8]) -> bool {
        match bytes {
            b"+r" | b"!0" => true,
            _ => !bytes.is_empty() && bytes.len() <= MAX_ID && are_lower_or_digits(bytes),
        }
    }
}

/// The id of a table: `+r` the root table's, `!0` the metadata table's, and those of user tables, which are in base 36.
pub type TableId = Spelled<TableIdForm>;

/// 1 to 200 bytes.
#[derive(Debug, Drop)]
pub struct PathForm;

impl Form for PathForm {
    ghost is_form = { IsPath };

    fn accepts(bytes: &[u8]) -> bool {
        !bytes.is_empty() && bytes.len() <= MAX_PATH
    }
}

/// The path of a node, or of a file.
pub type Path = Spelled<PathForm>;

/// 16 lower-case hexadecimal digits.
#[derive(Debug, Drop)]
pub struct SessionIdForm;

impl Form for SessionIdForm {
    ghost is_form = { IsSessionId };

    fn accepts(bytes: &[u8]) -> bool {
        is_session(bytes)
    }
}

/// The session of a tablet server.
pub type SessionId = Spelled<SessionIdForm>;

/// `log-` and a session.
#[derive(Debug, Drop)]
pub struct LogNameForm;

impl Form for LogNameForm {
    ghost is_form = { IsLogName };

    fn accepts(bytes: &[u8]) -> bool {
        match bytes {
            [b'l', b'o', b'g', b'-', session @ ..] => is_session(session),
            _ => false,
        }
    }
}

/// The name of a write-ahead log.
pub type LogName = Spelled<LogNameForm>;

/// 1 to 32 lower-case letters or digits.
#[derive(Debug, Drop)]
pub struct ServerNameForm;

impl Form for ServerNameForm {
    ghost is_form = { IsServerName };

    fn accepts(bytes: &[u8]) -> bool {
        !bytes.is_empty() && bytes.len() <= MAX_SERVER && are_lower_or_digits(bytes)
    }
}

/// The name of a tablet server.
pub type ServerName = Spelled<ServerNameForm>;

/// 1 to 64 letters, digits or `_`.
#[derive(Debug, Drop)]
pub struct TableNameForm;

impl Form for TableNameForm {
    ghost is_form = { IsWordName };

    fn accepts(bytes: &[u8]) -> bool {
        is_word_name(bytes)
    }
}

/// The name of a table.
pub type TableName = Spelled<TableNameForm>;

/// 1 to 64 letters, digits or `_`.
#[derive(Debug, Drop)]
pub struct StagedNameForm;

impl Form for StagedNameForm {
    ghost is_form = { IsWordName };

    fn accepts(bytes: &[u8]) -> bool {
        is_word_name(bytes)
    }
}

/// The name of a staged file.
pub type StagedName = Spelled<StagedNameForm>;
