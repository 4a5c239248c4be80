// What was done to the files, with what takes it back.
use host_model::Name;

/// A write, done or torn, and what it wrote over.
#[derive(Debug, Drop)]
pub struct Written {
    pub name: Name,
    /// Where its range begins, in bytes.
    pub at: u64,
    /// How long its range is. All of it, or a front of it, was written.
    pub count: u64,
    /// What stood in the part that was written.
    pub overwritten: Vec<u8>,
    /// How long the file was before.
    pub length: u64,
}

#[derive(Debug, Drop)]
pub enum Event {
    Write(Written),
    /// A file was made anew or taken out. It had been this one.
    Put(Name, Option<Vec<u8>>),
    /// A crash fell into a call that was to make the file anew, and did not yet.
    CutCreate(Name),
    /// A crash fell into a call that took the file out. It had been this one.
    CutRemove(Name, Vec<u8>),
    Sync(Name),
    /// So many bytes were said.
    Say(u64),
}
