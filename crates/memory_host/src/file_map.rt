// The files, by their names.
ghost use Rattle.std.specs.Prelude.{◌≡◌, ◌≤◌, Some, None, take, MatchOption, IfOk, OnOk, OnErr, IfErr};
ghost use Rattle.std.specs.FinMap as map;
ghost use Rattle.std.specs.Option.{option_map};
ghost use Rattle.host_model.specs.Calls.{overlaid};
ghost use Rattle.memory_host.specs.Crash.{ones};
ghost use Rattle.memory_host.specs.Files.{Changes, as_file};
ghost use Rattle.memory_host.specs.Past.{taken_back};
ghost use Rattle.host_model.specs.Picture.{file_at, file_names, set_file, with_file, without_file};

use crate::event::Written;
use crate::overlay::overlay;
use host_model::Name;
use std::alloc::{AllocError, Global};
use std::collections::BTreeMap;
use std::marker::Model;

/// The files, by their names. Each call's time grows with the logarithm of their number.
#[derive(Drop)]
pub struct FileMap {
    files: BTreeMap<Name, Vec<u8>>,
}

impl Model for FileMap {
    ghost use Rattle.host_model.specs.Picture.{Image};
    ghost use Rattle.memory_host.specs.Files.{image_code, image_of};

    ghost Value = { Image };

    ghost coded = { image_code };

    ghost view = { λ a. image_of a.files.entries };
}

impl FileMap {
    pub fn new(alloc: Global) -> Self
        ensures { result ≡ map.empty }
    {
        FileMap {
            files: BTreeMap::new(alloc),
        }
    }

    /// The names, in byte order.
    pub fn names(&self, alloc: Global) -> Result<Vec<Name>, AllocError>
        ensures { IfOk result (λ names. names.items ≡ file_names self.now) }
    {
        let mut names = Vec::new(alloc);
        for name in self.files.keys() {
            names.push(name.copy(alloc)?)?;
        }
        Ok(names)
    }

    /// The file, if it is there.
    pub fn get(&self, name: &Name) -> Option<&[u8]>
        ensures { MatchOption result (file_at self.now name.now ≡ None) (λ bytes. file_at self.now name.now ≡ Some bytes.now) }
    {
        match self.files.get(name) {
            Some(bytes) => Some(bytes.as_slice()),
            None => None,
        }
    }

    /// Makes the file this one, and gives what it was. At want of memory the files are as they were.
    pub fn insert(&mut self, name: Name, bytes: Vec<u8>) -> Result<Option<Vec<u8>>, AllocError>
        ensures ok { IfOk result (λ was. (self.new ≡ with_file self.old name bytes.items) × (as_file was ≡ file_at self.old name)) }
        ensures err { OnErr result (self.new ≡ self.old) }
    {
        Ok(self.files.insert(name, bytes)?)
    }

    /// Takes the file out, and gives what it was.
    pub fn remove(&mut self, name: &Name) -> Option<Vec<u8>>
        ensures after { self.new ≡ without_file self.old name.now }
        ensures was { as_file result ≡ file_at self.old name.now }
    {
        self.files.remove(name)
    }

    /// Makes the file this one. At want of memory the files are as they were.
    pub fn replace(&mut self, alloc: Global, name: &Name, bytes: Vec<u8>) -> Result<(), AllocError>
        ensures ok { OnOk result (self.new ≡ with_file self.old name.now bytes.items) }
        ensures err { OnErr result (self.new ≡ self.old) }
    {
        self.insert(name.copy(alloc)?, bytes)?;
        Ok(())
    }

    /// Takes the file out.
    pub fn discard(&mut self, name: &Name)
        ensures { self.new ≡ without_file self.old name.now }
    {
        let _ = self.remove(name);
    }

    /// Makes the file this one, or takes it out, and gives what it was. At want of memory the files are as they were.
    pub fn set(
        &mut self,
        alloc: Global,
        name: &Name,
        file: Option<Vec<u8>>,
    ) -> Result<Option<Vec<u8>>, AllocError>
        ensures ok { IfOk result (λ was. (self.new ≡ set_file self.old name.now (as_file file)) × (as_file was ≡ file_at self.old name.now)) }
        ensures err { OnErr result (self.new ≡ self.old) }
    {
        match file {
            Some(bytes) => self.insert(name.copy(alloc)?, bytes),
            None => Ok(self.remove(name)),
        }
    }

    /// Writes into the file, if it is there, in time that grows with the bytes. At want of memory the files are as they were.
    pub fn write(&mut self, name: &Name, at: usize, bytes: &[u8]) -> Result<(), AllocError>
        ensures ok { OnOk result (Changes name.now (λ file. overlaid file at bytes.now) self.old self.new) }
        ensures err { OnErr result (self.new ≡ self.old) }
    {
        match self.files.get_mut(name) {
            Some(file) => overlay(file, at, bytes),
            None => Ok(()),
        }
    }

    /// Cuts the file to this length, if it is there and longer.
    pub fn truncate(&mut self, name: &Name, length: usize)
        ensures { Changes name.now (take length) self.old self.new }
    {
        match self.files.get_mut(name) {
            Some(file) => file.truncate(length),
            None => {}
        }
    }

    /// Takes a write back, if the file is there. At want of memory it may be half taken back.
    pub fn take_back(&mut self, written: &Written) -> Result<(), AllocError>
        ensures { OnOk result (Changes written.now.name (taken_back written.now) self.old self.new) }
    {
        self.write(&written.name, written.at as usize, &written.overwritten)?;
        self.truncate(&written.name, written.length as usize);
        Ok(())
    }

    /// Writes ones into the range of a write, if the file is there. At want of memory the files are as they were.
    pub fn fill(&mut self, alloc: Global, written: &Written) -> Result<(), AllocError>
        ensures { OnOk result (Changes written.now.name (ones written.now) self.old self.new) }
    {
        let filler = vec![in alloc; 1u8; written.count as usize]?;
        self.write(&written.name, written.at as usize, &filler)
    }
}
