// The stable sort of mutations.
ghost use Rattle.std.specs.Prelude.{◌≡◌, map, IfOk};
ghost use Rattle.log_files.specs.Sorted.{mutation_cmp, IsStableSortOf};

use metadata_schema::Mutation;
use std::alloc::{AllocError, Global};
use std::cmp::Ordering;

/// By table, then by row, then by time.
fn mutation_cmp(one: &Mutation, other: &Mutation) -> Ordering
    ensures { result ≡ mutation_cmp one.now other.now }
{
    one.table
        .cmp(&other.table)
        .then(one.row.cmp(&other.row))
        .then(one.time.cmp(&other.time))
}

fn references(alloc: Global, mutations: &[Mutation]) -> Result<Vec<&Mutation>, AllocError>
    ensures { IfOk result (λ all. map (λ one. one.now) all.items ≡ mutations.now) }
{
    let mut all = Vec::new(alloc);
    for mutation in mutations {
        all.push(mutation)?;
    }
    Ok(all)
}

/// The mutations in order, those of one table, row and time in the order that they have here.
pub fn sorted(alloc: Global, mutations: &[Mutation]) -> Result<Vec<&Mutation>, AllocError>
    ensures { IfOk result (λ all. IsStableSortOf mutations.now (map (λ one. one.now) all.items)) }
{
    let mut all = references(alloc, mutations)?;
    all.sort_by(|one, other| mutation_cmp(one, other))?;
    Ok(all)
}
