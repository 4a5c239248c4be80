//! The words of the command line, the lines of a script, and the bytes of a reply.
#![tactic(auto)]

mod command_line;
mod line;
mod reply;
mod word;

pub use command_line::{StoreForm, WordsStop, read_words};
pub use line::{Line, read_line};
pub use reply::{Answer, Refusal, write_no_line, write_reply};
