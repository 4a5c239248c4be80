// What stands at a row of a level.
use metadata_schema::TabletRecord;
use row_keys::Path;
use state_reader::LoadFlag;

/// What stands at a row of a level.
#[derive(Debug, Drop)]
pub enum LevelEntry {
    /// The record of a tablet.
    Tablet(TabletRecord),
    /// The path of a file to be deleted.
    Candidate(Path),
    /// The flag of a file that is being loaded.
    Flag(LoadFlag),
}
