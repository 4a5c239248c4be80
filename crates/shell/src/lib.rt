//! A whole run: the words, the store, the script, the replies.
#![tactic(auto)]

mod ending;
mod opening;
mod outcomes;
mod running;
mod serving;

pub use outcomes::Outcome;
pub use plain_model::{Entries, Entry, Op, Source};
pub use running::{dir_of, run};
