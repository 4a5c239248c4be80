// Reads a file of records.
ghost use Rattle.std.specs.Prelude.{◌≡◌, ◌⊎◌, ℕ, List, IsTrue, IfOk, IfErr, OnOk, IsErrOf, MatchOption};
ghost use Rattle.std.specs.Option.{option_map};
ghost use Rattle.host_model.specs.Picture.{file_at};
ghost use Rattle.host_model.specs.Calls.{Looks};
ghost use Rattle.host_model.specs.Kinds.{IsLook};
ghost use Rattle.journal_core.specs.Journal.{FileCause};
ghost use Rattle.journal_core.specs.Records.{HasRecords, EndsAt, HasNone};
ghost use Rattle.journal_core.specs.Parts.{HasNoRecord, IsRecord};

use crate::format::{HEADER, OPEN};
use host_model::{Host, Name, Stop};
use row_keys::Octets;
use std::alloc::{AllocError, Global};

/// What stands in a file of records.
#[derive(Drop)]
pub struct Contents {
    /// The offset of the closed gate.
    pub end: usize,
    pub records: Vec<Octets>,
}

/// The bytes of a whole file, or none where it isn't there. Takes memory for them, and where that is wanting the last call
/// of the host only asked.
pub fn read_file<H: Host>(alloc: Global, host: &mut H, name: &Name) -> Result<Option<Vec<u8>>, Stop>
    ensures looks { Looks (H.state host.old) (H.state host.new) }
    ensures last { OnOk result (IsLook (H.state host.new).last) }
    ensures is { IsTrue (H.state host.old).is_faithful → IfOk result (λ found. file_at (H.state host.old).files name.now ≡ option_map (λ bytes. bytes.items) found) }
    ensures asked { IsErrOf result Stop.NoMemory → IsLook (H.state host.new).last }
    ensures stops { IfErr result (λ stop. FileCause stop (H.state host.old) (H.state host.new)) }
{
    let Some(size) = host.length(name)? else {
        return Ok(None);
    };
    let mut bytes = vec![in alloc; 0u8; size as usize]?;
    host.read(name, 0, &mut bytes)?;
    Ok(Some(bytes))
}

/// The first record's payload and what stands behind it, or none where no record stands there whole.
fn next_record(bytes: &[u8]) -> Option<(&[u8], &[u8])>
    ensures { MatchOption result (HasNoRecord bytes.now) (λ parts. IsRecord bytes.now parts.0.now parts.1.now) }
{
    if bytes.len() < HEADER || bytes[0] != OPEN {
        return None;
    }
    let size = u32::from_be_bytes([bytes[1], bytes[2], bytes[3], bytes[4]]) as usize;
    let after = &bytes[HEADER..];
    if after.len() < size {
        return None;
    }
    Some((&after[..size], &after[size..]))
}

/// The records of these bytes, or none where they are damaged. Takes memory for a copy of each record.
pub fn read_records(alloc: Global, bytes: &[u8]) -> Result<Option<Contents>, AllocError>
    ensures { IfOk result (λ found. MatchOption found (HasNone bytes.now) (λ contents. EndsAt contents.end bytes.now contents.records.items)) }
{
    let mut records = Vec::new(alloc);
    let mut rest = bytes;
    while let Some((payload, after)) = next_record(rest) {
        records.push(Octets::new(alloc, payload)?)?;
        rest = after;
    }
    if rest.is_empty() || rest[0] == OPEN {
        return Ok(None);
    }
    Ok(Some(Contents {
        end: bytes.len() - rest.len(),
        records,
    }))
}

/// A law: a file has at most one list of records. It does nothing.
pub fn one_list()
    ensures { (file : List ℕ) (first second : List (List ℕ)) → HasRecords file first → HasRecords file second → first ≡ second }
{}
