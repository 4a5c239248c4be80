// Fields put behind other bytes.
ghost use Rattle.std.specs.Prelude.{◌≡◌, ◌++◌, ◌<◌, ◌+◌, ◌^◌, length, OnOk, OnErr};
ghost use Rattle.std.specs.Int.{w8, w16, w32, w64};
ghost use Rattle.bytes_form.specs.Fields.{number_field, flag_field, short_field, long_field, sized_field};

use byteorder::{BigEndian, ByteOrder};
use std::alloc::AllocError;

/// Adds a number of one byte. At want of memory `out` is as it was. At most one growth.
pub fn put_u8(out: &mut Vec<u8>, value: u8) -> Result<(), AllocError>
    ensures ok { OnOk result (out.new.items ≡ out.old.items ++ number_field w8 value) }
    ensures err { OnErr result (out.new.items ≡ out.old.items) }
{
    out.push(value)?;
    Ok(())
}

/// Adds a number of two bytes. At want of memory `out` is as it was. At most one growth.
pub fn put_u16(out: &mut Vec<u8>, value: u16) -> Result<(), AllocError>
    ensures ok { OnOk result (out.new.items ≡ out.old.items ++ number_field w16 value) }
    ensures err { OnErr result (out.new.items ≡ out.old.items) }
{
    let mut spelled = [0; 2];
    BigEndian::write_u16(&mut spelled, value);
    out.extend_from_slice(&spelled)
}

/// Adds a number of four bytes. At want of memory `out` is as it was. At most one growth.
pub fn put_u32(out: &mut Vec<u8>, value: u32) -> Result<(), AllocError>
    ensures ok { OnOk result (out.new.items ≡ out.old.items ++ number_field w32 value) }
    ensures err { OnErr result (out.new.items ≡ out.old.items) }
{
    let mut spelled = [0; 4];
    BigEndian::write_u32(&mut spelled, value);
    out.extend_from_slice(&spelled)
}

/// Adds a number of eight bytes. At want of memory `out` is as it was. At most one growth.
pub fn put_u64(out: &mut Vec<u8>, value: u64) -> Result<(), AllocError>
    ensures ok { OnOk result (out.new.items ≡ out.old.items ++ number_field w64 value) }
    ensures err { OnErr result (out.new.items ≡ out.old.items) }
{
    let mut spelled = [0; 8];
    BigEndian::write_u64(&mut spelled, value);
    out.extend_from_slice(&spelled)
}

/// Adds both, in one growth, so that no half stays at want of memory.
fn put_both(out: &mut Vec<u8>, front: &[u8], back: &[u8]) -> Result<(), AllocError>
    requires { length front.now + length back.now < 2 ^ 64 }
    ensures ok { OnOk result (out.new.items ≡ out.old.items ++ front.now ++ back.now) }
    ensures err { OnErr result (out.new.items ≡ out.old.items) }
{
    out.reserve(front.len() + back.len())?;
    out.extend_from_slice(front)?;
    out.extend_from_slice(back)
}

/// Adds one length byte and the bytes. At want of memory `out` is as it was. At most one growth.
pub fn put_short(out: &mut Vec<u8>, bytes: &[u8]) -> Result<(), AllocError>
    requires { length bytes.now < 2 ^ 8 }
    ensures ok { OnOk result (out.new.items ≡ out.old.items ++ short_field bytes.now) }
    ensures err { OnErr result (out.new.items ≡ out.old.items) }
{
    put_both(out, &[bytes.len() as u8], bytes)
}

/// Adds two length bytes and the bytes. At want of memory `out` is as it was. At most one growth.
pub fn put_long(out: &mut Vec<u8>, bytes: &[u8]) -> Result<(), AllocError>
    requires { length bytes.now < 2 ^ 16 }
    ensures ok { OnOk result (out.new.items ≡ out.old.items ++ long_field bytes.now) }
    ensures err { OnErr result (out.new.items ≡ out.old.items) }
{
    let mut size = [0; 2];
    BigEndian::write_u16(&mut size, bytes.len() as u16);
    put_both(out, &size, bytes)
}

/// Adds four length bytes and the bytes. At want of memory `out` is as it was. At most one growth.
pub fn put_sized(out: &mut Vec<u8>, bytes: &[u8]) -> Result<(), AllocError>
    requires { length bytes.now < 2 ^ 32 }
    ensures ok { OnOk result (out.new.items ≡ out.old.items ++ sized_field bytes.now) }
    ensures err { OnErr result (out.new.items ≡ out.old.items) }
{
    let mut size = [0; 4];
    BigEndian::write_u32(&mut size, bytes.len() as u32);
    put_both(out, &size, bytes)
}

/// Adds a flag of one byte. At want of memory `out` is as it was. At most one growth.
pub fn put_flag(out: &mut Vec<u8>, value: bool) -> Result<(), AllocError>
    ensures ok { OnOk result (out.new.items ≡ out.old.items ++ flag_field value) }
    ensures err { OnErr result (out.new.items ≡ out.old.items) }
{
    out.push(u8::from(value))?;
    Ok(())
}
