// The paths of new data files.
ghost use Rattle.std.specs.Prelude.{◌≡◌, ◌<◌, ◌^◌, IfOk};
ghost use Rattle.row_keys.specs.Forms.{IsTableId};
ghost use Rattle.metadata_schema.specs.Paths.{IsDirectory, IsFilePath};
ghost use Rattle.new_files.specs.Names.{new_name, new_path};

use crate::kinds::{FileKind, letter};
use crate::numerals::name_text;
use row_keys::{Octets, Path, TableId};
use std::alloc::{AllocError, Global};

const END: &[u8] = b".rf";

fn new_name(alloc: Global, kind: FileKind, number: u64) -> Result<Vec<u8>, AllocError>
    ensures { IfOk result (λ name. name.items ≡ new_name kind number) }
{
    let mut name = vec![in alloc; letter(kind)]?;
    let text = name_text(alloc, number)?;
    name.extend_from_slice(&text)?;
    name.extend_from_slice(END)?;
    Ok(name)
}

fn path_bytes(
    alloc: Global,
    table: &TableId,
    dir: &Octets,
    kind: FileKind,
    number: u64,
) -> Result<Vec<u8>, AllocError>
    ensures bytes { IfOk result (λ bytes. bytes.items ≡ new_path table.now dir.now kind number) }
    ensures table { IsTableId table.now }
{
    let mut bytes = table.as_bytes().to_vec(alloc)?;
    bytes.push(b'/')?;
    bytes.extend_from_slice(dir.as_bytes())?;
    bytes.push(b'/')?;
    let name = new_name(alloc, kind, number)?;
    bytes.extend_from_slice(&name)?;
    Ok(bytes)
}

/// The path of the file of this kind and number, in a directory of a table. Takes memory for it.
pub fn new_path(
    alloc: Global,
    table: &TableId,
    dir: &Octets,
    kind: FileKind,
    number: u64,
) -> Result<Path, AllocError>
    requires dir { IsDirectory dir.now }
    requires number { number < 2 ^ 63 }
    ensures path { IfOk result (λ path. path ≡ new_path table.now dir.now kind number) }
    ensures form { IfOk result (λ path. IsFilePath path) }
{
    let bytes = path_bytes(alloc, table, dir, kind, number)?;
    let path = Path::new(alloc, &bytes)?;
    Ok(path.unwrap())
}
