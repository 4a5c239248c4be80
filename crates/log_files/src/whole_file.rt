// Files that are written and read whole.
ghost use Rattle.std.specs.Prelude.{◌≡◌, IfOk, IfErr, IsTrue, Some, length};
ghost use Rattle.std.specs.Option.{option_map};
ghost use Rattle.host_model.specs.Picture.{Becomes, file_at};
ghost use Rattle.host_model.specs.Calls.{HasCause, Looks};
ghost use Rattle.host_model.specs.Stores.{Stores};
ghost use Rattle.journal_core.specs.Changes.{MayMake};
ghost use Rattle.journal_core.specs.Journal.{FileCause};

use host_model::{Host, HostFault, Name, Stop};
use std::alloc::Global;

/// Makes the file anew with these bytes, and syncs.
pub fn write_synced<H: Host>(host: &mut H, name: &Name, bytes: &[u8]) -> Result<(), HostFault>
    ensures stores { Stores name.now (MayMake (length bytes.now)) (Becomes (Some bytes.now)) result (H.state host.old) (H.state host.new) }
    ensures cause { HasCause result (H.state host.old) (H.state host.new) }
{
    host.create(name)?;
    host.write(name, 0, bytes)?;
    host.sync(name)
}

/// The bytes of a whole file, or none where it isn't there. Takes memory for them.
pub fn read_whole<H: Host>(
    alloc: Global,
    host: &mut H,
    name: &Name,
) -> Result<Option<Vec<u8>>, Stop>
    ensures looks { Looks (H.state host.old) (H.state host.new) }
    ensures is { IsTrue (H.state host.old).is_faithful → IfOk result (λ found. file_at (H.state host.old).files name.now ≡ option_map (λ bytes. bytes.items) found) }
    ensures stops { IfErr result (λ stop. FileCause stop (H.state host.old) (H.state host.new)) }
{
    let Some(size) = host.length(name)? else {
        return Ok(None);
    };
    let mut bytes = vec![in alloc; 0u8; size as usize]?;
    host.read(name, 0, &mut bytes)?;
    Ok(Some(bytes))
}
