// Which picture a crash leaves.

/// Which of the pictures a crash leaves. The choices are this project's own.
#[derive(Clone, Copy, Debug, PartialEq, Eq)]
pub enum Pick {
    /// All unsynced writes landed, and a `create` or `remove` that the crash fell into was done.
    Kept,
    /// None did, and it was not done.
    Lost,
    /// Each byte written since its file's last sync is 1, and it was not done.
    Ones,
}
