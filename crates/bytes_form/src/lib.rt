//! Fields as bytes: numbers, flags, and bytes behind their length.
//!
//! Numbers are big-endian. No spelling of a field begins another one, so what was put is taken again, whatever follows
//! it. The forms are this project's own.
#![tactic(auto)]

mod laws;
mod puts;
mod takes;
#[cfg(test)]
mod tests;

pub use laws::{counted_bytes_are_prefix_free, flags_are_prefix_free, numbers_are_prefix_free};
pub use puts::{put_flag, put_long, put_short, put_sized, put_u8, put_u16, put_u32, put_u64};
pub use takes::{
    Form, Taken, take_flag, take_long, take_short, take_sized, take_u8, take_u16, take_u32,
    take_u64,
};
