// The files of a log.
ghost use Rattle.std.specs.Prelude.{◌≡◌, IfOk};
ghost use Rattle.host_model.specs.FileName.{IsFileName};
ghost use Rattle.log_files.specs.Sorted.{sorted_name};

use host_model::Name;
use row_keys::LogName;
use std::alloc::{AllocError, Global};
use std::str;

/// The name that these bytes are. Takes memory for a copy.
fn name_of(alloc: Global, bytes: &[u8]) -> Result<Name, AllocError>
    requires { IsFileName bytes.now }
    ensures { IfOk result (λ name. name ≡ bytes.now) }
{
    let Ok(text) = str::from_utf8(bytes) else {
        unreachable!()
    };
    let Some(name) = Name::new(alloc, text)? else {
        unreachable!()
    };
    Ok(name)
}

/// The name of a log's own file, which is the log's: `log-` and the session. Takes memory for a copy.
pub fn log_file(alloc: Global, log: &LogName) -> Result<Name, AllocError>
    ensures { IfOk result (λ name. name ≡ log.now) }
{
    name_of(alloc, log.as_bytes())
}

/// The name of a log's sorted file: `sorted-` and the session. Takes memory for it.
pub fn sorted_file(alloc: Global, log: &LogName) -> Result<Name, AllocError>
    ensures { IfOk result (λ name. name ≡ sorted_name log.now) }
{
    let mut bytes = Vec::new(alloc);
    bytes.extend_from_slice(b"sorted-")?;
    bytes.extend_from_slice(&log.as_bytes()[4..])?;
    name_of(alloc, &bytes)
}
