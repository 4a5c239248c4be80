// The candidates that nodes name.
ghost use Rattle.std.specs.Prelude.{◌≡◌, ◌↔◌, ℕ, List, map, codes, IfOk, IsTrue, MatchOption, Contains};
ghost use Rattle.metadata_schema.specs.Paths.{IsFilePath};
ghost use Rattle.node_store.specs.Children.{is_child};
ghost use Rattle.level_cache.specs.Marks.{path_byte, IsCandidateNode, IsListedFile};

use metadata_schema::is_file_path;
use node_store::NodeStore;
use row_keys::Path;
use std::alloc::{AllocError, Global};

const PARENT: &[u8] = b"/gc";

/// How many bytes `/gc/` has.
const FRONT: usize = 4;

fn path_byte(byte: u8) -> u8
    ensures { result ≡ path_byte byte }
{
    if byte == b',' { b'/' } else { byte }
}

fn path_bytes(alloc: Global, name: &[u8]) -> Result<Vec<u8>, AllocError>
    ensures { IfOk result (λ bytes. bytes.items ≡ map path_byte name.now) }
{
    let mut bytes = Vec::with_capacity(alloc, name.len())?;
    for byte in name {
        bytes.push(path_byte(*byte))?;
    }
    Ok(bytes)
}

/// The path of the file of which this is a candidate's node, if it is one.
fn path_in(alloc: Global, node: &Path) -> Result<Option<Path>, AllocError>
    requires { IsTrue (is_child (codes "/gc") node.now) }
    ensures { IfOk result (λ found. MatchOption found ((path : List ℕ) → IsCandidateNode node.now path → ⊥) (IsCandidateNode node.now)) }
{
    let bytes = path_bytes(alloc, &node.as_bytes()[FRONT..])?;
    if !is_file_path(&bytes) {
        return Ok(None);
    }
    Ok(Path::new(alloc, &bytes)?)
}

fn parent(alloc: Global) -> Result<Path, AllocError>
    ensures { IfOk result (λ path. path ≡ codes "/gc") }
{
    let path = Path::new(alloc, PARENT)?;
    Ok(path.unwrap())
}

/// The paths of the files that nodes under `/gc` name.
pub fn listed_files(alloc: Global, nodes: &NodeStore) -> Result<Vec<Path>, AllocError>
    ensures { IfOk result (λ paths. (path : List ℕ) → Contains paths.items path ↔ IsListedFile nodes.now.nodes path) }
{
    let children = nodes.children(&parent(alloc)?)?;
    let mut paths = Vec::new(alloc);
    for node in &children {
        if let Some(path) = path_in(alloc, node)? {
            paths.push(path)?;
        }
    }
    Ok(paths)
}
