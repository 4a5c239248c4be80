// How the id of a table is drawn.
ghost use Rattle.std.specs.Prelude.{◌≡◌, ◌<◌, ◌+◌, ◌^◌, false, IfOk, IfErr, codes};
ghost use Rattle.std.specs.Fmt.{decimal, digit_glyph};
ghost use Rattle.store_layout.specs.Nodes.{next_table_path};
ghost use Rattle.table_names.specs.Draws.{base36, IsTableDraw, DrawCause};

use crate::table_nodes::damaged;
use host_model::Stop;
use node_store::{NodeOp, NodeStore};
use row_keys::{Octets, Path, TableId};
use std::alloc::{AllocError, Global};
use store_layout::next_number;

const NEXT_TABLE: &[u8] = b"/next/table";

const BASE: u64 = 36;

/// The greatest number that a counter says, which is never drawn.
const LAST: u64 = (1 << 63) - 1;

fn glyph(digit: u8) -> u8
    requires { digit < 36 }
    ensures { result ≡ digit_glyph false digit }
{
    if digit < 10 {
        b'0' + digit
    } else {
        b'a' + (digit - 10)
    }
}

fn digits(alloc: Global, number: u64) -> Result<Vec<u8>, AllocError>
    ensures { IfOk result (λ digits. digits.items ≡ base36 number) }
{
    let mut digits = Vec::new(alloc);
    let mut rest = number;
    while rest >= BASE {
        digits.push(glyph((rest % BASE) as u8))?;
        rest /= BASE;
    }
    digits.push(glyph(rest as u8))?;
    digits.reverse();
    Ok(digits)
}

/// The id of the table of this number: the number in lower-case base 36.
pub fn table_id(alloc: Global, number: u64) -> Result<TableId, AllocError>
    ensures { IfOk result (λ id. id ≡ base36 number) }
{
    let digits = digits(alloc, number)?;
    let id = TableId::new(alloc, &digits)?;
    Ok(id.unwrap())
}

fn next_table_path(alloc: Global) -> Result<Path, AllocError>
    ensures { IfOk result (λ path. path ≡ next_table_path) }
{
    let path = Path::new(alloc, NEXT_TABLE)?;
    Ok(path.unwrap())
}

/// The id of the next table, which is the number in `/next/table` in lower-case base 36, and the change that draws this
/// number. The id is drawn once the change is made; a table that is made in the same multi has it alone.
///
/// `Damaged` names the nodes, and comes exactly where `/next/table` says no number from 1 to 2^63 - 1. `Full` comes exactly
/// where it says 2^63 - 1, since the number behind the one that is drawn has to be a counter's, too. Beside these there is want
/// of memory alone. Takes memory for both, asks nothing of a host, and takes time with the logarithm of the number of nodes.
pub fn draw_table(alloc: Global, nodes: &NodeStore) -> Result<(TableId, NodeOp), Stop>
    ensures ok { IfOk result (λ drawn. IsTableDraw nodes.now.nodes drawn.0 drawn.1) }
    ensures stops { IfErr result (DrawCause nodes.now) }
{
    let path = next_table_path(alloc)?;
    let Some(number) = next_number(alloc, nodes, &path)? else {
        return Err(damaged(alloc, nodes)?);
    };
    if number >= LAST {
        return Err(Stop::Full);
    }
    let next = (number + 1).to_string(alloc)?;
    let raise = NodeOp::Set {
        path,
        value: Octets::new(alloc, next.as_bytes())?,
        version: None,
    };
    Ok((table_id(alloc, number)?, raise))
}
