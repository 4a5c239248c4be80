// A file that is kept open.
use std::fs::OpenFile;
use std::io;
use std::io::{Read, Seek, SeekFrom, Write};

/// An open file with its position, so that reads and writes in a row need no seek. One whose read or write failed is of
/// no more use, since its position isn't known.
#[derive(Drop)]
pub struct HeldFile<F> {
    file: F,
    position: u64,
}

impl<F: Read + Write + Seek + OpenFile> HeldFile<F> {
    /// A file that has just been opened.
    pub fn new(file: F) -> HeldFile<F> {
        HeldFile { file, position: 0 }
    }

    /// How many bytes it has. One call of the system.
    pub fn length(&self) -> io::Result<u64> {
        Ok(self.file.metadata()?.len())
    }

    /// Fills `into` with the bytes from this offset on. One call of the system, two where it goes elsewhere.
    pub fn read_at(&mut self, at: u64, into: &mut [u8]) -> io::Result<()> {
        self.go_to(at)?;
        self.file.read_exact(into)?;
        self.position = at.saturating_add(into.len() as u64);
        Ok(())
    }

    /// Puts all the bytes from this offset on. One call of the system, two where it goes elsewhere.
    pub fn write_at(&mut self, at: u64, bytes: &[u8]) -> io::Result<()> {
        self.go_to(at)?;
        self.file.write_all(bytes)?;
        self.position = at.saturating_add(bytes.len() as u64);
        Ok(())
    }

    /// Waits until the bytes and the length are on the disk. The length counts as data, since no read finds the bytes without it.
    pub fn sync(&mut self) -> io::Result<()> {
        self.file.flush()?;
        self.file.sync_data()
    }

    fn go_to(&mut self, at: u64) -> io::Result<()> {
        if self.position != at {
            self.file.seek(SeekFrom::Start(at))?;
        }
        Ok(())
    }
}
