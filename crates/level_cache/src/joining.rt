// Lists that are joined in order.
ghost use Rattle.std.specs.Prelude.{◌⊎◌, ◌↔◌, ℕ, List, IfOk, IsTrue, Contains};
ghost use Rattle.std.specs.List.Sorted.{IsSorted};
ghost use Rattle.row_keys.specs.RowOrder.{bytes_cmp};
ghost use Rattle.metadata_schema.specs.Bytes.{is_rising};
ghost use Rattle.state_reader.specs.declared.level.LoadFlag.{LoadFlag};
ghost use Rattle.level_cache.specs.Marks.{flag_cmp};

use row_keys::Path;
use state_reader::LoadFlag;
use std::alloc::AllocError;

/// The paths of both lists, each once, in their order.
pub fn joined_paths(mut all: Vec<Path>, mut more: Vec<Path>) -> Result<Vec<Path>, AllocError>
    ensures each { IfOk result (λ paths. (path : List ℕ) → Contains paths.items path ↔ (Contains all.items path ⊎ Contains more.items path)) }
    ensures order { IfOk result (λ paths. IsTrue (is_rising bytes_cmp paths.items)) }
{
    all.append(&mut more)?;
    all.sort_unstable();
    all.dedup();
    Ok(all)
}

/// The flags of both lists, in the order of their paths.
pub fn joined_flags(
    mut all: Vec<LoadFlag>,
    mut more: Vec<LoadFlag>,
) -> Result<Vec<LoadFlag>, AllocError>
    ensures each { IfOk result (λ flags. (flag : LoadFlag) → Contains flags.items flag ↔ (Contains all.items flag ⊎ Contains more.items flag)) }
    ensures order { IfOk result (λ flags. IsSorted flag_cmp flags.items) }
{
    all.append(&mut more)?;
    all.sort_by(|one, other| one.path.cmp(&other.path))?;
    Ok(all)
}
