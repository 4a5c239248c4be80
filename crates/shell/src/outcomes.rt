// How a run ended.
use host_model::{HostFault, Name, Stop};
use plain_model::{Entries, Entry};

/// What a run did.
///
/// | status | meaning |
/// |---|---|
/// | 0 | the script was read to its end |
/// | 2 | the words are of no form |
/// | 3 | a line is too long, or one too many |
/// | 4, 5, 6 | a fault of the disk, of the source or of the sink, answered by the last call of the host |
/// | 7 | want of memory |
/// | 8 | there is no store, or one where a new one was to be made |
/// | 9 | the file `damaged` isn't there or isn't in its grammar |
/// | 10 | a journal is full, or a number at its end |
#[derive(Debug, Drop)]
pub struct Outcome {
    pub status: u8,
    /// The number of lines heard.
    pub lines: u32,
    /// What was committed, in order.
    pub history: Entries,
    /// The one operation that may have committed: a fault of the host fell into its commit.
    pub doubt: Option<Entry>,
    pub damaged: Option<Name>,
}
