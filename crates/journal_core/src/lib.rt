//! Records in a file, each of them whole or absent after a crash.
#![tactic(auto)]

mod format;
mod journal;
mod reading;
mod writing;

pub use journal::Journal;
pub use reading::one_list;
