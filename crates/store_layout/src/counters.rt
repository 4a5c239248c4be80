// Counters: the nodes that say which number is drawn next.
ghost use Rattle.std.specs.Prelude.{◌≡◌, ℕ, ◌+◌, ◌<◌, ◌^◌, Some, IfOk, MatchOption};
ghost use Rattle.std.specs.Fmt.{decimal};
ghost use Rattle.store_layout.specs.Nodes.{IsCounter, IsNext, IsNoCounter, draw_ops, next_name_path};

use crate::new_store::path_of;
use node_store::{NodeOp, NodeStore};
use row_keys::{Octets, Path};
use std::alloc::{AllocError, Global};
use std::str;

const NEXT_NAME: &[u8] = b"/next/name";

/// One past the greatest number that is drawn.
const NUMBER_END: u64 = 1 << 63;

/// The path of the counter for the names of files. Takes memory for it.
pub fn next_name_path(alloc: Global) -> Result<Path, AllocError>
    ensures { IfOk result (λ path. path ≡ next_name_path) }
{
    path_of(alloc, NEXT_NAME)
}

fn parsed(text: &[u8]) -> Option<u64>
    ensures { (number : ℕ) → number < 2 ^ 64 → text.now ≡ decimal number → result ≡ Some number }
{
    let text = str::from_utf8(text).ok()?;
    text.parse().ok()
}

/// The number that a counter's value spells, or none where it spells none.
fn read_counter(alloc: Global, value: &[u8]) -> Result<Option<u64>, AllocError>
    ensures { IfOk result (λ found. MatchOption found ((number : ℕ) → IsCounter value.now number → ⊥) (IsCounter value.now)) }
{
    let Some(number) = parsed(value) else {
        return Ok(None);
    };
    if number == 0 || number >= NUMBER_END {
        return Ok(None);
    }
    let spelled = number.to_string(alloc)?;
    if spelled.as_bytes() == value {
        Ok(Some(number))
    } else {
        Ok(None)
    }
}

/// The number that is drawn next at a path, or none where the nodes say none: from 1 to 2^63 - 1. Takes memory for its
/// spelling; the time is logarithmic in the number of nodes.
pub fn next_number(alloc: Global, nodes: &NodeStore, path: &Path) -> Result<Option<u64>, AllocError>
    ensures { IfOk result (λ found. MatchOption found (IsNoCounter nodes.now.nodes path.now) (IsNext nodes.now.nodes path.now)) }
{
    match nodes.get(path) {
        Some(node) => read_counter(alloc, node.value.as_bytes()),
        None => Ok(None),
    }
}

/// The one change that draws a number: it raises the counter of a path by one. Takes memory for it.
pub fn draw_ops(alloc: Global, path: Path, number: u64) -> Result<Vec<NodeOp>, AllocError>
    requires { number + 1 < 2 ^ 63 }
    ensures { IfOk result (λ ops. ops.items ≡ draw_ops path number) }
{
    let digits = (number + 1).to_string(alloc)?;
    let set = NodeOp::Set {
        path,
        value: Octets::new(alloc, digits.as_bytes())?,
        version: None,
    };
    Ok(vec![in alloc; set]?)
}
