// The files and the said bytes, with every moment since they began.
ghost use Rattle.std.specs.Prelude.{◌≡◌, ◌≤◌, ◌<◌, ◌++◌, ◌∷◌, ℕ, List, [], vec_len, vec_capacity, length, take, OnErr, OnOk, IfOk, MatchOption, Some, None};
ghost use Rattle.std.specs.FinMap as map;
ghost use Rattle.host_model.specs.Calls.{Reaches};
ghost use Rattle.host_model.specs.Picture.{file_at, file_names};
ghost use Rattle.memory_host.specs.Crash.{picked};
ghost use Rattle.memory_host.specs.Past.{May};
ghost use Rattle.memory_host.specs.Moments.{AddsWrite, AddsPut, AddsCutCreate, CutsRemove, AddsSync, AddsSay, KeepsOld};
ghost use Rattle.memory_host.specs.Files.{as_file};

use crate::crash::{landed, lost, with_ones};
use crate::event::{Event, Written};
use crate::file_map::FileMap;
use crate::overlay::in_range;
use crate::pick::Pick;
use host_model::Name;
use std::alloc::{AllocError, Global};
use std::marker::Model;

/// The files and the said bytes, with every moment since they began.
///
/// A call keeps what takes it back: about as many bytes as it was given.
#[derive(Drop)]
pub struct Moments {
    alloc: Global,
    files: FileMap,
    said: Vec<u8>,
    // the oldest first
    past: Vec<Event>,
}

impl Model for Moments {
    ghost use Rattle.std.specs.Prelude.{reverse};
    ghost use Rattle.memory_host.specs.Known.{Known, IsRun, known_code};
    ghost use Rattle.memory_host.specs.contracts.event.Event as event;

    ghost Value = { Known };

    ghost coded = { known_code event.the_row.coded };

    ghost view = { λ a. record { now = record { image = a.files; said = a.said.items }; past = reverse a.past.items } };

    ghost invariant = { λ a. IsRun (reverse a.past.items) (record { image = a.files; said = a.said.items }) };
}

impl Moments {
    /// These files, and nothing said.
    pub fn new(alloc: Global, files: FileMap) -> Moments
        ensures { result ≡ record { now = record { image = files; said = [] }; past = [] } }
    {
        Moments {
            alloc,
            files,
            said: Vec::new(alloc),
            past: Vec::new(alloc),
        }
    }

    pub fn said(&self) -> &[u8]
        ensures { result.now ≡ self.now.now.said }
    {
        &self.said
    }

    pub fn names(&self, alloc: Global) -> Result<Vec<Name>, AllocError>
        ensures { IfOk result (λ names. names.items ≡ file_names self.now.now.image) }
    {
        self.files.names(alloc)
    }

    pub fn get(&self, name: &Name) -> Option<&[u8]>
        ensures { MatchOption result (file_at self.now.now.image name.now ≡ None) (λ bytes. file_at self.now.now.image name.now ≡ Some bytes.now) }
    {
        self.files.get(name)
    }

    /// Makes the file this one, or takes it out.
    pub fn put(&mut self, name: &Name, file: Option<Vec<u8>>) -> Result<(), AllocError>
        ensures ok { OnOk result (AddsPut name.now (as_file file) self.old self.new) }
        ensures err { OnErr result (self.new ≡ self.old) }
    {
        let kept_name = name.copy(self.alloc)?;
        self.past.reserve(1)?;
        let was = self.files.set(self.alloc, name, file)?;
        push_reserved(&mut self.past, Event::Put(kept_name, was));
        Ok(())
    }

    /// Notes that a crash fell into a call that was to make the file.
    pub fn cut_create(&mut self, name: &Name) -> Result<(), AllocError>
        ensures ok { OnOk result (AddsCutCreate name.now self.old self.new) }
        ensures err { OnErr result (self.new ≡ self.old) }
    {
        self.past.push(Event::CutCreate(name.copy(self.alloc)?))?;
        Ok(())
    }

    /// Takes the file out, if it is there, and notes that a crash fell into the call.
    pub fn cut_remove(&mut self, name: &Name) -> Result<(), AllocError>
        ensures ok { OnOk result (CutsRemove name.now self.old self.new) }
        ensures err { OnErr result (self.new ≡ self.old) }
    {
        let kept_name = name.copy(self.alloc)?;
        self.past.reserve(1)?;
        let Some(was) = self.files.remove(name) else {
            return Ok(());
        };
        push_reserved(&mut self.past, Event::CutRemove(kept_name, was));
        Ok(())
    }

    /// Writes a front of the bytes, so many.
    pub fn write(
        &mut self,
        name: &Name,
        at: u64,
        bytes: &[u8],
        landed: usize,
    ) -> Result<(), AllocError>
        requires there { Reaches self.old.now.image name.now at }
        requires front { landed ≤ length bytes.now }
        ensures ok { OnOk result (AddsWrite name.now at (length bytes.now) (take landed bytes.now) self.old self.new) }
        ensures err { OnErr result (self.new ≡ self.old) }
    {
        let written = about_to_write(self.alloc, &self.files, name, at, bytes.len(), landed)?;
        self.past.reserve(1)?;
        self.files.write(name, at as usize, &bytes[..landed])?;
        push_reserved(&mut self.past, Event::Write(written));
        Ok(())
    }

    pub fn sync(&mut self, name: &Name) -> Result<(), AllocError>
        ensures ok { OnOk result (AddsSync name.now self.old self.new) }
        ensures err { OnErr result (self.new ≡ self.old) }
    {
        self.past.push(Event::Sync(name.copy(self.alloc)?))?;
        Ok(())
    }

    pub fn say(&mut self, bytes: &[u8]) -> Result<(), AllocError>
        ensures ok { OnOk result (AddsSay bytes.now self.old self.new) }
        ensures err { OnErr result (self.new ≡ self.old) }
    {
        self.past.reserve(1)?;
        self.said.extend_from_slice(bytes)?;
        push_reserved(&mut self.past, Event::Say(bytes.len() as u64));
        Ok(())
    }

    /// The files that a crash leaves. For the picks that lose writes its time grows with the number of events.
    pub fn after_crash(self, pick: Pick) -> Result<FileMap, AllocError>
        ensures picked { IfOk result (λ files. files ≡ picked pick self) }
        ensures left { IfOk result (λ files. May self.past self.now (record { image = files; said = self.now.said })) }
    {
        let Moments {
            alloc,
            files,
            said: _,
            past,
        } = self;
        match pick {
            Pick::Kept => landed(alloc, files, past),
            Pick::Lost => lost(alloc, files, past),
            Pick::Ones => with_ones(alloc, files, past),
        }
    }
}

// What takes the write back, of which so many bytes will land.
fn about_to_write(
    alloc: Global,
    files: &FileMap,
    name: &Name,
    at: u64,
    count: usize,
    landed: usize,
) -> Result<Written, AllocError>
    requires { Reaches files.now name.now at }
    ensures { IfOk result (λ w. (file : List ℕ) → file_at files.now name.now ≡ Some file → KeepsOld name.now at count landed file w) }
{
    let Some(file) = files.get(name) else {
        unreachable!()
    };
    Ok(Written {
        name: name.copy(alloc)?,
        at,
        count: count as u64,
        overwritten: in_range(alloc, file, at as usize, landed)?,
        length: file.len() as u64,
    })
}

// Room was made before, so that the change and its event come together.
fn push_reserved(past: &mut Vec<Event>, event: Event)
    requires { vec_len past.old < vec_capacity past.old }
    ensures { past.new.items ≡ past.old.items ++ event ∷ [] }
{
    match past.push(event) {
        Ok(()) => {}
        Err(_) => unreachable!(),
    }
}
