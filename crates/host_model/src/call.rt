// What is asked of a host.

/// The kinds of calls of a host. A host keeps which came last, so that contracts can say it of a whole run. It is this
/// project's own.
#[derive(Clone, Copy, Debug, PartialEq, Eq)]
pub enum HostCall {
    Names,
    Create,
    Remove,
    Length,
    Read,
    Write,
    Sync,
    Hear,
    Say,
}
