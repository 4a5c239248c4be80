// What is needed to write a new file, before anything is asked of the host.
ghost use Rattle.std.specs.Prelude.{◌≡◌, IfOk, IfErr};
ghost use Rattle.metadata_schema.specs.Paths.{IsDirectory, IsFilePath};
ghost use Rattle.ground_store.specs.Drawing.{IsDrawn, PlanCause};
ghost use Rattle.new_files.specs.Names.{new_path};

use crate::kinds::FileKind;
use crate::paths::new_path;
use host_model::Stop;
use node_store::NodeStore;
use row_keys::{Octets, Path, TableId};
use std::alloc::Global;
use store_layout::{next_name_path, next_number, nodes_name};

/// One past the greatest number that is drawn.
const NUMBER_END: u64 = 1 << 63;

/// A number that isn't drawn yet, and the path of its file.
#[derive(Drop)]
pub struct FilePlan {
    pub number: u64,
    pub path: Path,
}

/// The number of the next file's name, as `/next/name` says it, behind which one more can be drawn; it isn't drawn yet. From 1 to
/// 2^63 - 2. `Damaged` names the nodes, exactly where they say no such number; `Full` comes exactly where the number after it would
/// reach 2^63; and `NoMemory` where there is none for a path. Takes time with the logarithm of the number of nodes.
pub fn next_file_number(alloc: Global, nodes: &NodeStore) -> Result<u64, Stop>
    ensures number { IfOk result (λ number. IsDrawn nodes.now.nodes number) }
    ensures stops { IfErr result (λ stop. PlanCause nodes.now.nodes stop) }
{
    let path = next_name_path(alloc)?;
    let Some(number) = next_number(alloc, nodes, &path)? else {
        return Err(Stop::Damaged(nodes_name(alloc)?));
    };
    if number + 1 >= NUMBER_END {
        return Err(Stop::Full);
    }
    Ok(number)
}

/// All that a new file needs.
pub fn plan_file(
    alloc: Global,
    nodes: &NodeStore,
    table: &TableId,
    dir: &Octets,
    kind: FileKind,
) -> Result<FilePlan, Stop>
    requires dir { IsDirectory dir.now }
    ensures number { IfOk result (λ plan. IsDrawn nodes.now.nodes plan.number) }
    ensures path { IfOk result (λ plan. plan.path ≡ new_path table.now dir.now kind plan.number) }
    ensures form { IfOk result (λ plan. IsFilePath plan.path) }
    ensures stops { IfErr result (λ stop. PlanCause nodes.now.nodes stop) }
{
    let number = next_file_number(alloc, nodes)?;
    let path = new_path(alloc, table, dir, kind, number)?;
    Ok(FilePlan { number, path })
}
