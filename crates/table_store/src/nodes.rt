// The nodes of a store, and the changes of them.
ghost use Rattle.std.specs.Prelude.{◌≡◌, IfOk};
ghost use Rattle.std.specs.Fmt.{decimal};
ghost use Rattle.row_keys.specs.Forms.{IsPath};
ghost use Rattle.table_store.specs.Layout.{counter_paths, table_path, table_value, create_ops};

use node_store::NodeOp;
use row_keys::{Octets, Path, TableId, TableName};
use std::alloc::{AllocError, Global};

pub const INSTANCE: &[u8] = b"/instance";

pub const INSTANCE_VALUE: &[u8] = b"accmgr 1";

pub const ROOT: &[u8] = b"/root";

pub const NEXT_TABLE: &[u8] = b"/next/table";

/// The paths of the numbers that are drawn next.
pub const COUNTERS: [&[u8]; 5] = [
    NEXT_TABLE,
    b"/next/tx",
    b"/next/name",
    b"/next/session",
    b"/next/lock",
];

pub const TABLES: &[u8] = b"/tables/";

pub const ONLINE: &[u8] = b"ONLINE ";

pub const NO_MARK: &[u8] = b" -";

/// The path that these bytes are.
pub fn path(alloc: Global, bytes: &[u8]) -> Result<Path, AllocError>
    requires { IsPath bytes.now }
    ensures { IfOk result (λ path. path ≡ bytes.now) }
{
    let path = Path::new(alloc, bytes)?;
    Ok(path.unwrap())
}

fn table_path(alloc: Global, id: &TableId) -> Result<Path, AllocError>
    ensures { IfOk result (λ path. path ≡ table_path id.now) }
{
    let mut bytes = TABLES.to_vec(alloc)?;
    bytes.extend_from_slice(id.as_bytes())?;
    path(alloc, &bytes)
}

fn table_value(alloc: Global, name: &TableName) -> Result<Octets, AllocError>
    ensures { IfOk result (λ value. value ≡ table_value name.now) }
{
    let mut bytes = ONLINE.to_vec(alloc)?;
    bytes.extend_from_slice(name.as_bytes())?;
    bytes.extend_from_slice(NO_MARK)?;
    Ok(Octets::from_vec(bytes))
}

fn decimal(alloc: Global, number: u64) -> Result<Octets, AllocError>
    ensures { IfOk result (λ text. text ≡ decimal number) }
{
    let digits = number.to_string(alloc)?;
    Octets::new(alloc, digits.as_bytes())
}

/// The changes that make a table, after which `next` is the number that is drawn next.
pub fn create_ops(
    alloc: Global,
    id: &TableId,
    name: &TableName,
    next: u64,
) -> Result<Vec<NodeOp>, AllocError>
    ensures { IfOk result (λ ops. ops.items ≡ create_ops id.now name.now next) }
{
    Ok(vec![in alloc;
        NodeOp::Set {
            path: path(alloc, NEXT_TABLE)?,
            value: decimal(alloc, next)?,
            version: None
        },
        NodeOp::Create {
            path: table_path(alloc, id)?,
            value: table_value(alloc, name)?
        },
    ]?)
}

/// The paths of the numbers that are drawn next.
pub fn counter_paths(alloc: Global) -> Result<Vec<Path>, AllocError>
    ensures { IfOk result (λ paths. paths.items ≡ counter_paths) }
{
    let mut paths = Vec::new(alloc);
    for bytes in COUNTERS {
        paths.push(path(alloc, bytes)?)?;
    }
    Ok(paths)
}
