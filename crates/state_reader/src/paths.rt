// The form of the paths of data files.
ghost use Rattle.std.specs.Prelude.{◌≡◌, IfOk, IfErr, MatchOption};
ghost use Rattle.metadata_schema.specs.Paths.{IsFilePath};
ghost use Rattle.state_reader.specs.declared.level.LevelFault.TheVariants.{NoMemory};

use crate::level::LevelFault;
use metadata_schema::is_file_path;
use row_keys::Path;
use std::alloc::Global;

/// The path of these bytes, or none where they are no data file's.
pub fn file_path(alloc: Global, bytes: &[u8]) -> Result<Option<Path>, LevelFault>
    ensures ok { IfOk result (λ found. MatchOption found (IsFilePath bytes.now → ⊥) (λ path. (path ≡ bytes.now) × IsFilePath path)) }
    ensures err { IfErr result (λ fault. fault ≡ NoMemory) }
{
    if !is_file_path(bytes) {
        return Ok(None);
    }
    Ok(Path::new(alloc, bytes)?)
}
