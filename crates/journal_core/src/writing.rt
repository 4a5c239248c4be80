// The two durable writes of an append.
ghost use Rattle.std.specs.Prelude.{◌≡◌, [], ◌∷◌, ◌++◌, ◌+◌, ◌<◌, ◌^◌, length, IsTrue, Some, OnOk};
ghost use Rattle.host_model.specs.Calls.{Reaches, HasCause, Torn, Puts};
ghost use Rattle.host_model.specs.Picture.{OnBytes};
ghost use Rattle.host_model.specs.Stores.{Stores};
ghost use Rattle.host_model.specs.declared.call.HostCall.TheVariants.{Sync};
ghost use Rattle.journal_core.specs.Records.{body};
ghost use Rattle.journal_core.specs.Parts.{KeepsFront};

use crate::format::CLOSED;
use byteorder::{BigEndian, ByteOrder};
use host_model::{Host, HostFault, Name};

/// Writes a record that lacks its gate, with a closed gate behind it, and syncs.
pub fn write_body<H: Host>(
    host: &mut H,
    name: &Name,
    at: u64,
    payload: &[u8],
) -> Result<(), HostFault>
    requires there { IsTrue (H.state host.old).is_faithful → Reaches (H.state host.old).files name.now at }
    requires short { length payload.now < 2 ^ 32 }
    requires room { at < 2 ^ 41 }
    ensures stores { Stores name.now (OnBytes (KeepsFront at)) (OnBytes (Puts at (body payload.now ++ 0 ∷ []))) result (H.state host.old) (H.state host.new) }
    ensures cause { HasCause result (H.state host.old) (H.state host.new) }
{
    let mut size = [0; 4];
    BigEndian::write_u32(&mut size, payload.len() as u32);
    host.write(name, at, &size)?;
    host.write(name, at + 4, payload)?;
    host.write(name, at + 4 + payload.len() as u64, &[CLOSED])?;
    host.sync(name)
}

/// Writes bytes and syncs.
pub fn write_synced<H: Host>(
    host: &mut H,
    name: &Name,
    at: u64,
    bytes: &[u8],
) -> Result<(), HostFault>
    requires { IsTrue (H.state host.old).is_faithful → Reaches (H.state host.old).files name.now at }
    ensures stores { Stores name.now (OnBytes (Torn at (length bytes.now))) (OnBytes (Puts at bytes.now)) result (H.state host.old) (H.state host.new) }
    ensures last { OnOk result ((H.state host.new).last ≡ Some Sync) }
    ensures cause { HasCause result (H.state host.old) (H.state host.new) }
{
    host.write(name, at, bytes)?;
    host.sync(name)
}
