// The records of a log.
ghost use Rattle.std.specs.Prelude.{IfOk, MatchOption};
ghost use Rattle.log_files.specs.Parts.{IsNoEntry, IsEntry, AreMutations, AreNoMutations};

use crate::payload::read_mutation;
use metadata_schema::Mutation;
use row_keys::Octets;
use std::alloc::{AllocError, Global};

/// The most bytes of a mutation.
const MAX_BYTES: usize = (1 << 32) - 1;

/// The mutation that a record holds, or none where it holds none.
pub fn read_record(alloc: Global, bytes: &[u8]) -> Result<Option<Mutation>, AllocError>
    ensures { IfOk result (λ found. MatchOption found (IsNoEntry bytes.now) (λ mutation. IsEntry bytes.now mutation)) }
{
    if bytes.len() > MAX_BYTES {
        return Ok(None);
    }
    read_mutation(alloc, bytes)
}

/// The mutations of all records, or none where one holds none. Takes memory for them, and time with their bytes.
pub fn read_records(alloc: Global, records: &[Octets]) -> Result<Option<Vec<Mutation>>, AllocError>
    ensures { IfOk result (λ found. MatchOption found (AreNoMutations records.now) (λ mutations. AreMutations records.now mutations.items)) }
{
    let mut mutations = Vec::new(alloc);
    for record in records {
        let Some(mutation) = read_record(alloc, record.as_bytes())? else {
            return Ok(None);
        };
        mutations.push(mutation)?;
    }
    Ok(Some(mutations))
}
