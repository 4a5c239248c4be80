// The book of entries.
ghost use Rattle.std.specs.Prelude.{◌≡◌, None, IfErr, OnErr, OnOk};
ghost use Rattle.std.specs.Option.{option_copied};
ghost use Rattle.entry_book.specs.Book.{empty_book, offers, committed, withdrawn, at_line, notes, source_of};

use plain_model::{Entries, Entry, Source};
use row_keys::ListOf;
use std::alloc::{AllocError, Global};
use std::collections::BTreeMap;
use std::marker::Model;

/// The entries that have committed, and at the most one that is offered. Contracts see the history, the offered entry, the
/// current line, and the line that each transaction of this run comes from.
#[derive(Debug, Drop)]
pub struct EntryBook {
    entries: Vec<Entry>,
    committed: usize,
    line: u32,
    noted: BTreeMap<u64, u32>,
}

impl Model for EntryBook {
    ghost use Rattle.std.specs.Prelude.{length, take, slice_get};
    ghost use Rattle.std.specs.FinMap as map;
    ghost use Rattle.entry_book.specs.Book.{Book, HasAtMostOneMore};
    ghost use Rattle.entry_book.specs.Codes.{book_code};

    ghost Value = { Book };

    ghost coded = { book_code };

    ghost view = { λ b. record { history = take b.committed b.entries.items; offered = slice_get b.entries.items b.committed; line = b.line; noted = map.from_entries b.noted.entries } };

    ghost invariant = { λ b. HasAtMostOneMore b.committed (length b.entries.items) };
}

impl EntryBook {
    /// No entries, at line 0. Takes no memory.
    pub fn new(alloc: Global) -> EntryBook
        ensures { result ≡ empty_book }
    {
        EntryBook {
            entries: Vec::new(alloc),
            committed: 0,
            line: 0,
            noted: BTreeMap::new(alloc),
        }
    }

    /// The entries that have committed, in order. Takes no memory.
    pub fn history(&self) -> &[Entry]
        ensures { result.now ≡ self.now.history }
    {
        &self.entries[..self.committed]
    }

    /// The entry that is offered, if there is one. Takes no memory.
    pub fn offered(&self) -> Option<&Entry>
        ensures { option_copied result ≡ self.now.offered }
    {
        self.entries.get(self.committed)
    }

    /// Offers an entry, right before the action of the host that commits it, and takes the memory for it. At want of memory
    /// nothing has changed.
    pub fn offer(&mut self, entry: Entry) -> Result<(), AllocError>
        requires { self.old.offered ≡ None }
        ensures ok { OnOk result (self.new ≡ offers entry self.old) }
        ensures err { OnErr result (self.new ≡ self.old) }
    {
        self.entries.push(entry)?;
        Ok(())
    }

    /// Puts the offered entry behind the history, if there is one. Takes no memory.
    pub fn commit(&mut self)
        ensures { self.new ≡ committed self.old }
    {
        self.committed = self.entries.len();
    }

    /// Takes the offered entry back, if there is one. Takes no memory.
    pub fn withdraw(&mut self)
        ensures { self.new ≡ withdrawn self.old }
    {
        self.entries.truncate(self.committed);
    }

    /// The history, and the entry in doubt, which is the one that is offered still. Takes no memory.
    pub fn finish(self) -> (Entries, Option<Entry>)
        ensures history { result.0 ≡ self.history }
        ensures doubt { result.1 ≡ self.offered }
    {
        let mut entries = self.entries;
        let doubt = if self.committed < entries.len() {
            entries.pop()
        } else {
            None
        };
        (ListOf::from_vec(entries), doubt)
    }

    /// The number of the current line. Takes no memory.
    pub fn line(&self) -> u32
        ensures { result ≡ self.now.line }
    {
        self.line
    }

    /// Sets the current line. Takes no memory.
    pub fn set_line(&mut self, number: u32)
        ensures { self.new ≡ at_line number self.old }
    {
        self.line = number;
    }

    /// Notes the current line as the one that a transaction comes from. At want of memory nothing has changed. Takes time with
    /// the logarithm of the number of notes.
    pub fn note_line(&mut self, tid: u64) -> Result<(), AllocError>
        ensures ok { OnOk result (self.new ≡ notes tid self.old) }
        ensures err { OnErr result (self.new ≡ self.old) }
    {
        self.noted.insert(tid, self.line)?;
        Ok(())
    }

    /// What a transaction comes from: the line that was noted, or, where none was, an earlier run. Takes no memory, and time
    /// with the logarithm of the number of notes.
    pub fn source_of(&self, tid: u64) -> Source
        ensures { result ≡ source_of tid self.now }
    {
        match self.noted.get(&tid) {
            Some(line) => Source::Line(*line),
            None => Source::Carried(tid),
        }
    }
}
