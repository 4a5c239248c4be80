// The paths that values name, and those of nodes.
ghost use Rattle.std.specs.Prelude.{◌≡◌, IfOk, MatchBool};
ghost use Rattle.row_keys.specs.Forms.{IsWordName};
ghost use Rattle.store_layout.specs.Tables.{IsStagedPath, staged_path, table_path};

use metadata_schema::is_drawn_text;
use row_keys::{Path, StagedName, TableId};
use std::alloc::{AllocError, Global};

pub const TABLES: &[u8; 8] = b"/tables/";

pub const STAGED: &[u8; 8] = b"/staged/";

const STAGED_FRONT: &[u8] = b"stage/default_tablet/I";

const FILE_END: &[u8] = b".rf";

/// Whether this is the path of a staged file. Takes no memory; time goes with its length.
pub fn is_staged_path(bytes: &[u8]) -> bool
    ensures { MatchBool result (IsStagedPath bytes.now) (IsStagedPath bytes.now → ⊥) }
{
    let Some(rest) = bytes.strip_prefix(STAGED_FRONT) else {
        return false;
    };
    let Some(text) = rest.strip_suffix(FILE_END) else {
        return false;
    };
    is_drawn_text(text)
}

/// The path of the node of a table. Takes memory for it.
pub fn table_path(alloc: Global, id: &TableId) -> Result<Path, AllocError>
    ensures { IfOk result (λ path. path ≡ table_path id.now) }
{
    let mut bytes = TABLES.to_vec(alloc)?;
    bytes.extend_from_slice(id.as_bytes())?;
    match Path::new(alloc, &bytes)? {
        Some(path) => Ok(path),
        None => unreachable!(),
    }
}

/// The path of the node of a staged file. Takes memory for it.
pub fn staged_path(alloc: Global, name: &StagedName) -> Result<Path, AllocError>
    ensures path { IfOk result (λ path. path ≡ staged_path name.now) }
    ensures form { IsWordName name.now }
{
    let name = name.as_bytes();
    let mut bytes = STAGED.to_vec(alloc)?;
    bytes.extend_from_slice(name)?;
    match Path::new(alloc, &bytes)? {
        Some(path) => Ok(path),
        None => unreachable!(),
    }
}
