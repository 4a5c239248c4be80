// The memories of hosted tablets, by the tablets' rows.
ghost use Rattle.std.specs.Prelude.{◌≡◌, ◌↔◌, ℕ, List, length, None, Some, IsTrue, IfOk, IfErr, OnOk, OnErr, MatchOption};
ghost use Rattle.std.specs.FinMap as map;
ghost use Rattle.std.specs.Option.{option_copied};
ghost use Rattle.hosted_memories.specs.Hosted.{memories_of, sessions_of, with_memory, of_others};
ghost use Rattle.hosted_memories.specs.Rows.{IsNextRow, HasNoRow};

use crate::hosting::Hosting;
use row_keys::{Row, SessionId};
use std::alloc::{AllocError, Global};
use std::collections::BTreeMap;
use std::marker::Model;
use std::mem;
use std::ops::Bound;
use tablet_mem::TabletMem;

/// The memories of hosted tablets, by the metadata rows of the tablets. Contracts see a finite map from rows to the session of the
/// server and what `TabletMem` shows: cells and a clock.
#[derive(Drop)]
pub struct HostedMemories {
    tablets: BTreeMap<Row, Hosting>,
}

impl Model for HostedMemories {
    ghost use Rattle.std.specs.FinMap as map;
    ghost use Rattle.hosted_memories.specs.Hosted.{HostedTablets, hosted_code};
    ghost use Rattle.hosted_memories.specs.contracts.hosting.Hosting as hosting;

    ghost Value = { HostedTablets };

    ghost coded = { hosted_code hosting.the_row.coded };

    ghost view = { λ m. map.from_entries m.tablets.entries };
}

impl HostedMemories {
    /// No tablet is hosted. Takes no memory.
    pub fn new(alloc: Global) -> HostedMemories
        ensures { result ≡ map.empty }
    {
        HostedMemories {
            tablets: BTreeMap::new(alloc),
        }
    }

    /// How many tablets are hosted. Takes no memory.
    pub fn len(&self) -> usize
        ensures { result ≡ length (map.entries self.now) }
    {
        self.tablets.len()
    }

    /// Whether no tablet is hosted. Takes no memory.
    pub fn is_empty(&self) -> bool
        ensures { IsTrue result ↔ (self.now ≡ map.empty) }
    {
        self.tablets.is_empty()
    }

    /// The memory of the tablet of this row, or none where it isn't hosted. Takes no memory, and time with the logarithm of the
    /// tablets.
    pub fn get(&self, row: &Row) -> Option<&TabletMem>
        ensures { option_copied result ≡ memories_of self.now row.now }
    {
        match self.tablets.get(row) {
            Some(hosting) => Some(&hosting.memory),
            None => None,
        }
    }

    /// The session of the server that hosts the tablet of this row, or none where it isn't hosted. Takes no memory, and time with the
    /// logarithm of the tablets.
    pub fn session(&self, row: &Row) -> Option<&SessionId>
        ensures { option_copied result ≡ sessions_of self.now row.now }
    {
        match self.tablets.get(row) {
            Some(hosting) => Some(&hosting.session),
            None => None,
        }
    }

    /// Puts the memory of the tablet of this row, which the server of this session hosts, in place of any that was there. At want of
    /// memory, which can't be where one was there, nothing has changed. Takes time with the logarithm of the tablets.
    pub fn insert(
        &mut self,
        row: Row,
        session: SessionId,
        memory: TabletMem,
    ) -> Result<(), AllocError>
        ensures ok { OnOk result (self.new ≡ map.insert self.old row (record { session = session; memory = memory })) }
        ensures err { OnErr result (self.new ≡ self.old) }
        ensures absent { OnErr result (map.get self.old row ≡ None) }
    {
        self.tablets.insert(row, Hosting { session, memory })?;
        Ok(())
    }

    /// Takes the memory of the tablet of this row out, as where the tablet is hosted no longer. Takes no memory, and time with the
    /// logarithm of the tablets.
    pub fn remove(&mut self, row: &Row) -> Option<TabletMem>
        ensures was { result ≡ memories_of self.old row.now }
        ensures after { self.new ≡ map.remove self.old row.now }
    {
        match self.tablets.remove(row) {
            Some(hosting) => Some(hosting.memory),
            None => None,
        }
    }

    /// Puts this memory in place of the one that the tablet of this row has, on the same server, and gives that one. `Err` comes
    /// exactly where the tablet isn't hosted: then this memory comes back, and nothing has changed. Takes no memory, and time with the
    /// logarithm of the tablets. So a caller may take a memory out, prepare a mutation in it, write that to a log, and put the memory
    /// back with the mutation in it.
    pub fn exchange(&mut self, row: &Row, memory: TabletMem) -> Result<TabletMem, TabletMem>
        ensures was { IfOk result (λ was. memories_of self.old row.now ≡ Some was) }
        ensures ok { OnOk result (self.new ≡ with_memory self.old row.now memory) }
        ensures back { IfErr result (λ back. back ≡ memory) }
        ensures absent { OnErr result (map.get self.old row.now ≡ None) }
        ensures err { OnErr result (self.new ≡ self.old) }
    {
        let Some(hosting) = self.tablets.get_mut(row) else {
            return Err(memory);
        };
        Ok(mem::replace(&mut hosting.memory, memory))
    }

    /// Takes the memories of all tablets on the server of this session out, as where it was killed. Takes no memory, and time with the
    /// number of the tablets.
    pub fn drop_session(&mut self, session: &SessionId)
        ensures { (row : List ℕ) → map.get self.new row ≡ of_others session.now (map.get self.old row) }
    {
        self.tablets
            .retain(|_, hosting| hosting.session != *session);
    }

    /// The first row above `low`, in the order of bytes, whose tablet is hosted, or none where there is none; without `low` the first
    /// of all. Takes no memory, and time with the logarithm of the tablets.
    pub fn next_row(&self, low: Option<&Row>) -> Option<&Row>
        ensures { MatchOption (option_copied result) (HasNoRow self.now (option_copied low.entry)) (IsNextRow self.now (option_copied low.entry)) }
    {
        let start = match low {
            Some(row) => Bound::Excluded(row),
            None => Bound::Unbounded,
        };
        match self.tablets.range((start, Bound::Unbounded)).next() {
            Some((row, _)) => Some(row),
            None => None,
        }
    }
}
