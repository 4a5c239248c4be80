// Bytes that are written over a part of a file, and taken back.
ghost use Rattle.std.specs.Prelude.{◌≡◌, ◌≤◌, ◌+◌, vec_len, take, drop, length, OnOk, OnErr, IfOk};
ghost use Rattle.host_model.specs.Calls.{overlaid};

use std::alloc::{AllocError, Global};

/// Writes the bytes at an offset, or at the end of a file that ends before it, in time that grows with their number.
///
/// Only past the old end does it take memory. Without it the file stays as it was.
pub fn overlay(file: &mut Vec<u8>, at: usize, bytes: &[u8]) -> Result<(), AllocError>
    ensures ok { OnOk result (file.new.items ≡ overlaid file.old.items at bytes.now) }
    ensures err { OnErr result (file.new.items ≡ file.old.items) }
{
    let at = at.min(file.len());
    let inside = bytes.len().min(file.len() - at);
    let (over, past_end) = bytes.split_at(inside);
    file.extend_from_slice(past_end)?;
    file.slice_mut(at..at + inside).copy_from_slice(over);
    Ok(())
}

/// A copy of what stands in a range, as far as the file goes.
pub fn in_range(alloc: Global, file: &[u8], at: usize, count: usize) -> Result<Vec<u8>, AllocError>
    requires { at ≤ length file.now }
    ensures { IfOk result (λ bytes. bytes.items ≡ take count (drop at file.now)) }
{
    let rest = &file[at..];
    rest[..count.min(rest.len())].to_vec(alloc)
}
