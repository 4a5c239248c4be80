// The files of one directory.
use crate::file_fault::FileFault;
use crate::held_file::HeldFile;
use host_model::Name;
use std::alloc::{AllocError, Global};
use std::collections::BTreeMap;
use std::fs::{DirEntry, File, Files, OpenFile, OpenOptions};
use std::io::ErrorKind;
use std::{fs, io};

// Far below the 1,024 files that a process may usually have open.
const MOST_HELD: usize = 64;

/// A directory, with those of its files that are in use kept open. Files are named in it by paths, and only regular files count.
#[derive(Drop)]
pub struct Directory<R: Files> {
    alloc: Global,
    path: String,
    // the directory itself, once a call has opened it
    entries: Option<R::File>,
    // this host's creates and removes, and those of runs before it, are on the disk
    are_entries_synced: bool,
    has_sync_failed: bool,
    held: BTreeMap<Name, HeldFile<R::File>>,
}

impl<R: Files> Directory<R> {
    /// The directory at this path. Nothing is opened yet.
    pub fn new(alloc: Global, path: &str) -> Result<Directory<R>, AllocError> {
        Ok(Directory {
            alloc,
            path: String::from_str(alloc, path)?,
            entries: None,
            are_entries_synced: false,
            has_sync_failed: false,
            held: BTreeMap::new(alloc),
        })
    }

    /// The names of its regular files, in byte order.
    pub fn names(&mut self, files: &R, alloc: Global) -> Result<Vec<Name>, FileFault> {
        self.open_entries(files)?;
        let rt = (files, alloc);
        let mut names = Vec::new(alloc);
        for entry in fs::read_dir(&rt, self.path.as_str())? {
            if let Some(name) = name_of(alloc, entry)? {
                names.push(name).map_err(AllocError::from)?;
            }
        }
        names.sort()?;
        Ok(names)
    }

    /// Makes the file, or cuts it to no bytes, lastingly.
    pub fn create(&mut self, files: &R, name: &Name) -> Result<(), FileFault> {
        self.open_entries(files)?;
        let path = self.path_of(name)?;
        self.are_entries_synced = false;
        let file = OpenOptions::new()
            .read(true)
            .write(true)
            .create(true)
            .truncate(true)
            .open(files, path.as_str())?;
        self.believe(file.sync_all())?;
        self.sync_entries(files)?;
        self.hold(name, file)
    }

    /// Takes the file away, lastingly, also where an earlier run had done so without a sync.
    pub fn remove(&mut self, files: &R, name: &Name) -> Result<(), FileFault> {
        self.open_entries(files)?;
        let path = self.path_of(name)?;
        self.held.remove(name);
        self.are_entries_synced = false;
        match fs::remove_file(files, path.as_str()) {
            Err(error) if error.kind() != ErrorKind::NotFound => return Err(FileFault::from(error)),
            _ => {}
        }
        self.sync_entries(files)
    }

    /// How many bytes the file has, if it is there.
    pub fn length(&mut self, files: &R, name: &Name) -> Result<Option<u64>, FileFault> {
        self.open(files, name)?;
        match self.held.get(name) {
            Some(held) => Ok(Some(held.length()?)),
            None => Ok(None),
        }
    }

    /// Fills `into` with the file's bytes from this offset on.
    pub fn read(
        &mut self,
        files: &R,
        name: &Name,
        at: u64,
        into: &mut [u8],
    ) -> Result<(), FileFault> {
        self.open(files, name)?;
        let read = match self.held.get_mut(name) {
            Some(held) => held.read_at(at, into),
            None => Err(io::Error::from(ErrorKind::NotFound)),
        };
        self.release_failed(name, read)
    }

    /// Puts all the bytes into the file, from this offset on.
    pub fn write(
        &mut self,
        files: &R,
        name: &Name,
        at: u64,
        bytes: &[u8],
    ) -> Result<(), FileFault> {
        self.open(files, name)?;
        let written = match self.held.get_mut(name) {
            Some(held) => held.write_at(at, bytes),
            None => Err(io::Error::from(ErrorKind::NotFound)),
        };
        self.release_failed(name, written)
    }

    /// Waits until the file, as reads give it, is on the disk.
    pub fn sync(&mut self, files: &R, name: &Name) -> Result<(), FileFault> {
        self.open(files, name)?;
        let synced = match self.held.get_mut(name) {
            Some(held) => held.sync(),
            None => Err(io::Error::from(ErrorKind::NotFound)),
        };
        self.believe(synced)?;
        // A create that failed, or an earlier run that ended inside one, may have left the directory without a sync.
        if !self.are_entries_synced {
            self.sync_entries(files)?;
        }
        Ok(())
    }

    // Opens the file and keeps it open, unless it is open or isn't there.
    fn open(&mut self, files: &R, name: &Name) -> Result<(), FileFault> {
        if self.held.contains_key(name) {
            return Ok(());
        }
        self.open_entries(files)?;
        let path = self.path_of(name)?;
        match OpenOptions::new()
            .read(true)
            .write(true)
            .open(files, path.as_str())
        {
            Ok(file) => self.hold(name, file),
            Err(error) if error.kind() == ErrorKind::NotFound => Ok(()),
            Err(error) => Err(FileFault::from(error)),
        }
    }

    fn hold(&mut self, name: &Name, file: R::File) -> Result<(), FileFault> {
        let name = name.copy(self.alloc)?;
        if self.held.len() >= MOST_HELD {
            self.held.clear();
        }
        self.held
            .insert(name, HeldFile::new(file))
            .map_err(AllocError::from)?;
        Ok(())
    }

    // The next call opens the file again.
    fn release_failed(&mut self, name: &Name, done: io::Result<()>) -> Result<(), FileFault> {
        if done.is_err() {
            self.held.remove(name);
        }
        Ok(done?)
    }

    // A file call in a directory that isn't there fails here, before a missing file could mean anything.
    fn open_entries(&mut self, files: &R) -> Result<(), FileFault> {
        if self.entries.is_none() {
            self.entries = Some(File::open(files, self.path.as_str())?);
        }
        Ok(())
    }

    fn sync_entries(&mut self, files: &R) -> Result<(), FileFault> {
        self.open_entries(files)?;
        let synced = match &self.entries {
            Some(entries) => entries.sync_all(),
            None => Err(io::Error::from(ErrorKind::NotFound)),
        };
        self.believe(synced)?;
        self.are_entries_synced = true;
        Ok(())
    }

    // After a sync that failed the system may count what it lost as written, so that a later one would say Ok of it.
    fn believe(&mut self, synced: io::Result<()>) -> Result<(), FileFault> {
        if synced.is_err() {
            self.has_sync_failed = true;
        }
        if self.has_sync_failed {
            return Err(FileFault::Disk);
        }
        Ok(synced?)
    }

    fn path_of(&self, name: &Name) -> Result<String, AllocError> {
        let mut path = self.path.clone()?;
        path.push('/')?;
        for byte in name.as_bytes() {
            path.push(char::from(*byte))?;
        }
        Ok(path)
    }
}

// The name of a regular file, if it is of the form of a `Name`.
fn name_of<R: Files + Drop>(
    alloc: Global,
    entry: io::Result<DirEntry<R, Global>>,
) -> Result<Option<Name>, FileFault> {
    let entry = match entry {
        Err(error) if error.kind() == ErrorKind::InvalidFilename => return Ok(None),
        entry => entry?,
    };
    if !entry.file_type()?.is_file() {
        return Ok(None);
    }
    Ok(Name::new(alloc, entry.file_name())?)
}
