// The staged files that the nodes of a store tell of.
ghost use Rattle.std.specs.Prelude.{◌≡◌, List, ℕ, IfOk, IfErr, MatchOption, codes};
ghost use Rattle.row_keys.specs.Forms.{IsWordName};
ghost use Rattle.store_layout.specs.Tables.{staged_path, IsStagedPath, IsStagedAt, TellsStaged};
ghost use Rattle.table_names.specs.Staged.{StagedCause, NamesNoFile, IsStrayFile, AreStagedAt, AreStaged, HasStrayFile, StagedFilesCause};

use crate::paths::{STAGED, is_staged_path, staged_path};
use crate::table_nodes::damaged;
use host_model::Stop;
use node_store::NodeStore;
use row_keys::{Path, StagedName};
use std::alloc::{AllocError, Global};

const STAGED_PARENT: &[u8] = b"/staged";

/// The path of a staged file that a value is, or none.
fn read_path(alloc: Global, value: &[u8]) -> Result<Option<Path>, AllocError>
    ensures { IfOk result (λ found. MatchOption found (IsStagedPath value.now → ⊥) (λ path. (path ≡ value.now) × IsStagedPath value.now)) }
{
    if !is_staged_path(value) {
        return Ok(None);
    }
    match Path::new(alloc, value)? {
        Some(path) => Ok(Some(path)),
        None => unreachable!(),
    }
}

/// The path of the staged file of this name, or none exactly where there is no node `/staged/NAME`.
///
/// `Damaged` names the nodes, and comes exactly where that node is there and its value isn't the path of a staged file. Beside
/// it there is want of memory alone. Takes memory for the path, asks nothing of a host, and takes time with the logarithm of
/// the number of nodes.
pub fn staged(alloc: Global, nodes: &NodeStore, name: &StagedName) -> Result<Option<Path>, Stop>
    ensures ok { IfOk result (TellsStaged nodes.now.nodes name.now) }
    ensures stops { IfErr result (StagedCause nodes.now name.now) }
{
    let at = staged_path(alloc, name)?;
    let Some(node) = nodes.get(&at) else {
        return Ok(None);
    };
    match read_path(alloc, node.value.as_bytes())? {
        Some(path) => Ok(Some(path)),
        None => Err(damaged(alloc, nodes)?),
    }
}

/// The name that stands behind `/staged/` in a path, or none where no name does.
fn name_at(alloc: Global, path: &Path) -> Result<Option<StagedName>, AllocError>
    ensures { IfOk result (λ found. MatchOption found (NamesNoFile path.now) (λ name. (path.now ≡ staged_path name) × IsWordName name)) }
{
    match path.as_bytes().strip_prefix(STAGED.as_slice()) {
        Some(name) => StagedName::new(alloc, name),
        None => Ok(None),
    }
}

/// The staged file of the node of a path, or none where it is no staged file's.
fn file_at(
    alloc: Global,
    nodes: &NodeStore,
    at: &Path,
) -> Result<Option<(StagedName, Path)>, AllocError>
    ensures { IfOk result (λ found. MatchOption found (IsStrayFile nodes.now.nodes at.now) (λ file. (at.now ≡ staged_path file.0) × IsStagedAt nodes.now.nodes file.0 file.1)) }
{
    let Some(name) = name_at(alloc, at)? else {
        return Ok(None);
    };
    let Some(node) = nodes.get(at) else {
        return Ok(None);
    };
    match read_path(alloc, node.value.as_bytes())? {
        Some(path) => Ok(Some((name, path))),
        None => Ok(None),
    }
}

/// The staged files of the nodes of these paths, each by its name and its path, one for each in their order, or none where one of the
/// nodes is no staged file's. Takes memory for the files, and time with the logarithm of the number of nodes.
pub fn files_at(
    alloc: Global,
    nodes: &NodeStore,
    paths: &[Path],
) -> Result<Option<Vec<(StagedName, Path)>>, AllocError>
    ensures { IfOk result (λ found. MatchOption found (HasStrayFile nodes.now.nodes paths.now) (λ files. AreStagedAt nodes.now.nodes paths.now files.items)) }
{
    let mut files = Vec::new(alloc);
    for path in paths {
        let Some(file) = file_at(alloc, nodes, path)? else {
            return Ok(None);
        };
        files.push(file)?;
    }
    Ok(Some(files))
}

fn staged_parent(alloc: Global) -> Result<Path, AllocError>
    ensures { IfOk result (λ path. path ≡ codes "/staged") }
{
    let path = Path::new(alloc, STAGED_PARENT)?;
    Ok(path.unwrap())
}

/// All staged files, each by its name and its path, in byte order of the names: one for each node right below `/staged`.
///
/// `Damaged` names the nodes, and comes exactly where one of these nodes isn't of its form. Beside it there is want of memory
/// alone. Takes memory for the files, asks nothing of a host, and takes time with the nodes below `/staged`, and the logarithm
/// of the number of all.
pub fn staged_files(alloc: Global, nodes: &NodeStore) -> Result<Vec<(StagedName, Path)>, Stop>
    ensures ok { IfOk result (λ files. AreStaged nodes.now.nodes files.items) }
    ensures stops { IfErr result (StagedFilesCause nodes.now) }
{
    let parent = staged_parent(alloc)?;
    let paths = nodes.children(&parent)?;
    match files_at(alloc, nodes, &paths)? {
        Some(files) => Ok(files),
        None => Err(damaged(alloc, nodes)?),
    }
}
