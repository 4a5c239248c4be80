// What wrote a data file.
ghost use Rattle.std.specs.Prelude.{◌≡◌};
ghost use Rattle.new_files.specs.Names.{letter};

/// What wrote a data file, as the first letter of its name says.
#[derive(Clone, Copy, Debug, PartialEq, Eq)]
pub enum FileKind {
    /// A flush of a tablet's memory: `F`.
    Flush,
    /// A compaction of some of a tablet's files: `C`.
    Merged,
    /// A compaction of all files of a tablet: `A`.
    Whole,
    /// A bulk import: `I`. Staged files are of this kind, too.
    Bulk,
}

/// The letter of a kind.
pub fn letter(kind: FileKind) -> u8
    ensures { result ≡ letter kind }
{
    match kind {
        FileKind::Flush => b'F',
        FileKind::Merged => b'C',
        FileKind::Whole => b'A',
        FileKind::Bulk => b'I',
    }
}
