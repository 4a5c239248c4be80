//! The lines of a script, which is heard in pieces and never held whole.
#![tactic(auto)]

mod halt;
mod pieces;
mod script;

pub use script::{Heard, MAX_LINE, Script};
