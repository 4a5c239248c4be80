//! New data files: each is written under a name whose number was drawn before.
//!
//! A name is a letter for what wrote the file, the number in upper-case base 36, and `.rf`. The number is drawn by a multi of its
//! own, so that no name is used twice, whatever a crash leaves. The letters and names are those of Apache Accumulo 2.1; how the
//! numbers are drawn is this project's own.
#![tactic(auto)]

mod kinds;
mod laws;
mod numerals;
mod paths;
mod planning;
mod putting;

pub use kinds::FileKind;
pub use laws::{a_drawn_number_has_a_path, a_new_file_may_be_written};
pub use planning::next_file_number;
pub use putting::{NewFile, put_new_file};
