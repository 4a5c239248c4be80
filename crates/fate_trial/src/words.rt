// How nodes spell a status and a step.
ghost use Rattle.std.specs.Prelude.{◌≡◌, ◌≤◌, ◌<◌, ◌∷◌, [], length, drop, take, slice_index_or, Some, IfOk, MatchOption};
ghost use Rattle.std.specs.Option.{option_copied};
ghost use Rattle.fate_trial.specs.Stored.{status_letter, letter_status, cause_letter, letter_after, status_in, kind_in, status_value, step_value, words_in};

use fate_runner::{Cause, StepWords, TxStatus};
use row_keys::Octets;
use std::alloc::{AllocError, Global};

fn status_letter(status: TxStatus) -> u8
    ensures { result ≡ status_letter status }
{
    match status {
        TxStatus::Submitted => b'S',
        TxStatus::InProgress => b'I',
        TxStatus::FailedInProgress => b'F',
        TxStatus::Failed => b'X',
        TxStatus::Successful => b'D',
    }
}

fn letter_status(letter: u8) -> Option<TxStatus>
    ensures { result ≡ letter_status letter }
{
    match letter {
        b'S' => Some(TxStatus::Submitted),
        b'I' => Some(TxStatus::InProgress),
        b'F' => Some(TxStatus::FailedInProgress),
        b'X' => Some(TxStatus::Failed),
        b'D' => Some(TxStatus::Successful),
        _ => None,
    }
}

fn cause_letter(cause: Cause) -> u8
    ensures { result ≡ cause_letter cause }
{
    match cause {
        Cause::NoTable => b't',
        Cause::Exists => b'e',
        Cause::Asked => b'a',
    }
}

/// The byte at this place, or another where there is none.
fn byte_or(bytes: &[u8], at: usize, other: u8) -> u8
    ensures { result ≡ slice_index_or bytes.now at other }
{
    if at < bytes.len() { bytes[at] } else { other }
}

/// The bytes behind so many.
fn behind(bytes: &[u8], count: usize) -> &[u8]
    ensures { result.now ≡ drop count bytes.now }
{
    if count < bytes.len() {
        &bytes[count..]
    } else {
        &[]
    }
}

/// The first so many bytes.
fn front(bytes: &[u8], count: usize) -> &[u8]
    ensures { result.now ≡ take count bytes.now }
{
    if count < bytes.len() {
        &bytes[..count]
    } else {
        bytes
    }
}

/// The status that a node's value says.
pub fn status_in(value: Option<&Octets>) -> Option<TxStatus>
    ensures { result ≡ status_in (option_copied value.entry) }
{
    match value {
        Some(value) => letter_status(byte_or(value.as_bytes(), 0, b'-')),
        None => None,
    }
}

/// The kind that it says.
pub fn kind_in(alloc: Global, value: Option<&Octets>) -> Result<Octets, AllocError>
    ensures { IfOk result (λ kind. kind ≡ kind_in (option_copied value.entry)) }
{
    match value {
        Some(value) => Octets::new(alloc, behind(value.as_bytes(), 2)),
        None => Octets::new(alloc, &[]),
    }
}

/// The value with another status, and another cause where there is one.
pub fn status_value(
    alloc: Global,
    status: TxStatus,
    cause: Option<Cause>,
    old: &Octets,
) -> Result<Octets, AllocError>
    ensures { IfOk result (λ value. value ≡ status_value status cause old.now) }
{
    let bytes = old.as_bytes();
    let letter = match cause {
        Some(cause) => cause_letter(cause),
        None => byte_or(bytes, 1, b'-'),
    };
    let mut value = vec![in alloc; status_letter(status), letter]?;
    value.extend_from_slice(behind(bytes, 2))?;
    Ok(Octets::from_vec(value))
}

/// The value that spells a step, or none exactly where its name has 256 bytes or more.
pub fn step_value(alloc: Global, words: &StepWords) -> Result<Option<Octets>, AllocError>
    ensures { IfOk result (λ found. MatchOption found (256 ≤ length words.now.name) (λ value. (length words.now.name < 256) × (value ≡ step_value words.now))) }
{
    let Ok(size) = u8::try_from(words.name.as_bytes().len()) else {
        return Ok(None);
    };
    let mut value = vec![in alloc; size]?;
    value.extend_from_slice(words.name.as_bytes())?;
    value.extend_from_slice(words.argument.as_bytes())?;
    Ok(Some(Octets::from_vec(value)))
}

/// The step's words that a node's value says.
pub fn words_of(alloc: Global, value: &Octets) -> Result<StepWords, AllocError>
    ensures { IfOk result (λ words. words_in (Some value.now) ≡ words ∷ []) }
{
    let bytes = value.as_bytes();
    let size = byte_or(bytes, 0, 0) as usize;
    let rest = behind(bytes, 1);
    let name = front(rest, size);
    Ok(StepWords {
        name: Octets::new(alloc, name)?,
        argument: Octets::new(alloc, behind(rest, size))?,
    })
}
