// The names of a store's files.
ghost use Rattle.std.specs.Prelude.{◌≡◌, IfOk};
ghost use Rattle.host_model.specs.FileName.{IsFileName};
ghost use Rattle.metadata_schema.specs.Paths.{IsFilePath};
ghost use Rattle.store_layout.specs.Names.{nodes_name, name_byte, file_of};

use host_model::Name;
use row_keys::Path;
use std::alloc::{AllocError, Global};
use std::str;

/// The name of the journal of the nodes.
pub fn nodes_name(alloc: Global) -> Result<Name, AllocError>
    ensures { IfOk result (λ name. name ≡ nodes_name) }
{
    let name = Name::new(alloc, "nodes")?;
    Ok(name.unwrap())
}

/// The name that these bytes are.
pub fn name_of_bytes(alloc: Global, bytes: &[u8]) -> Result<Name, AllocError>
    requires { IsFileName bytes.now }
    ensures { IfOk result (λ name. name ≡ bytes.now) }
{
    let Ok(text) = str::from_utf8(bytes) else {
        unreachable!()
    };
    let Some(name) = Name::new(alloc, text)? else {
        unreachable!()
    };
    Ok(name)
}

fn name_byte(byte: u8) -> u8
    ensures { result ≡ name_byte byte }
{
    if byte == b'/' { b',' } else { byte }
}

fn file_bytes(alloc: Global, path: &[u8]) -> Result<Vec<u8>, AllocError>
    ensures { IfOk result (λ bytes. bytes.items ≡ file_of path.now) }
{
    let mut bytes = Vec::with_capacity(alloc, path.len())?;
    for byte in path {
        bytes.push(name_byte(*byte))?;
    }
    Ok(bytes)
}

/// The name of the data file of a path.
pub fn file_of(alloc: Global, path: &Path) -> Result<Name, AllocError>
    requires { IsFilePath path.now }
    ensures { IfOk result (λ name. name ≡ file_of path.now) }
{
    let bytes = file_bytes(alloc, path.as_bytes())?;
    name_of_bytes(alloc, &bytes)
}
