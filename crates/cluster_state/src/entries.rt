// The history of the run, and the lines of transactions.
ghost use Rattle.std.specs.Prelude.{◌≡◌, None, OnOk, OnErr};
ghost use Rattle.entry_book.specs.Book.{at_line, committed, notes, offers, withdrawn};

use crate::cluster::Cluster;
use host_model::Host;
use plain_model::Entry;
use std::alloc::AllocError;

impl<H: Host> Cluster<H> {
    /// Offers an entry, right before the action of the host that commits it, and takes the memory for it. At want of memory nothing
    /// has changed.
    pub fn offer_entry(&mut self, entry: Entry) -> Result<(), AllocError>
        requires { self.old.book.offered ≡ None }
        ensures ok { OnOk result (self.new ≡ record self.old { book = offers entry self.old.book }) }
        ensures err { OnErr result (self.new ≡ self.old) }
    {
        self.book.offer(entry)
    }

    /// Puts the offered entry behind the history, if there is one. Takes no memory.
    pub fn commit_entry(&mut self)
        ensures { self.new ≡ record self.old { book = committed self.old.book } }
    {
        self.book.commit();
    }

    /// Takes the offered entry back, if there is one: where the action that was to commit it was refused, or stopped without a fault
    /// of the host. Takes no memory.
    pub fn withdraw_entry(&mut self)
        ensures { self.new ≡ record self.old { book = withdrawn self.old.book } }
    {
        self.book.withdraw();
    }

    /// The entries that have committed, in order. Takes no memory.
    pub fn history(&self) -> &[Entry]
        ensures { result.now ≡ self.now.book.history }
    {
        self.book.history()
    }

    /// Sets the number of the current line. Takes no memory.
    pub fn set_line(&mut self, number: u32)
        ensures { self.new ≡ record self.old { book = at_line number self.old.book } }
    {
        self.book.set_line(number);
    }

    /// Notes the current line as the one that a transaction comes from. At want of memory nothing has changed. Takes time with the
    /// logarithm of the number of notes.
    pub fn note_line(&mut self, tid: u64) -> Result<(), AllocError>
        ensures ok { OnOk result (self.new ≡ record self.old { book = notes tid self.old.book }) }
        ensures err { OnErr result (self.new ≡ self.old) }
    {
        self.book.note_line(tid)
    }
}
