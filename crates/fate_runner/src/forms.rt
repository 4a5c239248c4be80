// What the runner and the steps tell each other.
use host_model::Stop;
use row_keys::Row;

/// Why a transaction waits. The rows are metadata rows of tablets.
#[derive(Debug, Drop)]
pub enum Reason {
    /// This transaction holds a lock in front of its own.
    Lock(u64),
    /// A tablet that is still at work, or about to be.
    Hosted(Row),
    /// A tablet that is on no live server.
    Unhosted(Row),
    /// A tablet of a merge whose files reach past its extent.
    Unchopped(Row),
    /// A tablet with cells that aren't in files yet.
    Unflushed(Row),
    /// A tablet between the steps of its split.
    Splitting(Row),
    /// This other transaction imports into the table.
    Import(u64),
    /// The clock is to pass this value, at which a killed server expires.
    Until(u64),
}

/// Why a transaction failed.
#[derive(Clone, Copy, Debug, PartialEq, Eq)]
pub enum Cause {
    /// The table isn't there, or not in use.
    NoTable,
    /// The new name is in use.
    Exists,
    /// It was asked for.
    Asked,
}

/// How far a transaction is.
#[derive(Clone, Copy, Debug, PartialEq, Eq)]
pub enum TxStatus {
    /// Stored, and not begun.
    Submitted,
    /// It goes forward.
    InProgress,
    /// It goes back.
    FailedInProgress,
    /// All is undone.
    Failed,
    /// All is done.
    Successful,
}

/// Which way a step is to be taken.
#[derive(Clone, Copy, Debug, PartialEq, Eq)]
pub enum Going {
    /// The step is to be called.
    Forward,
    /// The step is to be undone.
    Back,
}

/// Whether a step may be taken.
#[derive(Debug, Drop)]
pub enum Ready {
    /// It may.
    Now,
    /// It has to wait, for this reason.
    Defer(Reason),
}

/// What follows a step.
#[derive(Debug, Drop)]
pub enum Next<S> {
    /// This step.
    Push(S),
    /// Nothing: the transaction is done.
    Done,
}

/// Why a step did not do its work.
#[derive(Debug, Drop)]
pub enum StepStop {
    /// It can't be done, and the transaction is to go back.
    Failed(Cause),
    /// The disk, the memory or the room for it failed.
    Stop(Stop),
}

/// What a turn did.
#[derive(Debug, Drop)]
pub enum Turned {
    /// It began, or a step was called and the next one pushed, or a step was undone and popped.
    Moved,
    /// Nothing, for this reason.
    Deferred(Reason),
    /// The called step failed, and the transaction goes back from now on.
    Broken(Cause),
    /// The last step was called: the transaction is done.
    Ended,
    /// No step was left to undo: the transaction has failed.
    Undone,
}
