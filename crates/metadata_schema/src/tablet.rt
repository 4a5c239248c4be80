// Tablet records.
use row_keys::{ListOf, LogName, Octets, Path, Row, ServerName, SessionId, TableId};

/// A data file of a tablet.
#[derive(Debug, Drop)]
pub struct FileEntry {
    /// `ID/DIR/NAME`.
    pub path: Path,
    /// In bytes.
    pub size: u64,
    /// The number of its cells.
    pub entries: u64,
    /// The time, below 2^63, as of which all of its cells count, where it has one.
    pub time: Option<u64>,
}

/// The data files of a tablet.
pub type FileEntries = ListOf<FileEntry>;

/// The names of write-ahead logs.
pub type LogNames = ListOf<LogName>;

/// A file that a bulk import put into a tablet.
#[derive(Debug, Drop)]
pub struct LoadedEntry {
    pub path: Path,
    /// The transaction of the import.
    pub tid: u64,
}

/// The files that bulk imports put into a tablet.
pub type LoadedEntries = ListOf<LoadedEntry>;

/// The session of a tablet server, and its name.
#[derive(Debug, Drop)]
pub struct Holder {
    pub session: SessionId,
    pub server: ServerName,
}

/// What a metadata row says of a tablet.
#[derive(Debug, Drop)]
pub struct TabletRecord {
    pub table: TableId,
    /// The end row, which is in the tablet, or none for the last tablet.
    pub end: Option<Row>,
    /// The row below the tablet, which isn't in it, or none for the first tablet.
    pub prev: Option<Row>,
    /// The previous row before a split that isn't done yet.
    pub old_prev: Option<Option<Row>>,
    /// The directory of the tablet's files.
    pub dir: Octets,
    /// The bar, below 2^63: each mutation of the tablet with this time or an earlier one is in its files or was overwritten.
    pub time: u64,
    /// The server that hosts the tablet.
    pub loc: Option<Holder>,
    /// The server that is to host it.
    pub future: Option<Holder>,
    /// Strictly increasing by path.
    pub files: FileEntries,
    /// The logs with mutations past the bar, strictly increasing.
    pub logs: LogNames,
    /// Strictly increasing by path.
    pub loaded: LoadedEntries,
    /// No file of the tablet holds a row outside its extent.
    pub chopped: bool,
    /// The transaction of the merge that took other tablets into this one.
    pub merged: Option<u64>,
}
