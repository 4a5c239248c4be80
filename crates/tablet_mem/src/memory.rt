// The memory of a tablet.
ghost use Rattle.std.specs.Prelude.{◌≡◌, ◌≤◌, ◌<◌, ◌^◌, true, max, All, IfOk, OnOk, OnErr, IfErr};
ghost use Rattle.std.specs.Option.{option_copied};
ghost use Rattle.cell_merge.specs.Newest.{IsMerged, clipped};
ghost use Rattle.tablet_mem.specs.Memory.{started, put, passed, cleared, next_time};

use crate::ready::Ready;
use crate::unflushed::Unflushed;
use cell_merge::Cell;
use metadata_schema::Mutation;
use row_keys::Row;
use std::alloc::{AllocError, Global};
use std::marker::Model;

/// The unflushed cells of a hosted tablet and the time of its next mutation. Contracts see the cells, in the order in which
/// they were put, and the clock: the greatest time that is known of.
#[derive(Drop)]
pub struct TabletMem {
    alloc: Global,
    unflushed: Unflushed,
    clock: u64,
}

impl Model for TabletMem {
    ghost use Rattle.tablet_mem.specs.Memory.{Memory};
    ghost use Rattle.tablet_mem.specs.Value.{memory_code, IsMemory};
    ghost use Rattle.cell_merge.specs.contracts.cell.Cell as cell;

    ghost Value = { Memory };

    ghost coded = { memory_code cell.the_row.coded };

    ghost view = { λ m. record { cells = m.unflushed.cells.items; clock = m.clock } };

    ghost invariant = { λ m. IsMemory m.unflushed m.clock };
}

/// The later of two times.
fn later(a: u64, b: u64) -> u64
    ensures { result ≡ max a b }
{
    if a < b { b } else { a }
}

impl TabletMem {
    /// The memory of a tablet with this bar, where `greatest` is the greatest of the times of its files: those of its `file`
    /// columns, and those of the cells of files without one. It has no cells. Takes no memory.
    pub fn new(alloc: Global, bar: u64, greatest: u64) -> TabletMem
        requires bar { bar < 2 ^ 63 }
        requires greatest { greatest < 2 ^ 63 }
        ensures { result ≡ started bar greatest }
    {
        TabletMem {
            alloc,
            unflushed: Unflushed::new(alloc),
            clock: later(bar, greatest),
        }
    }

    /// The time of the next mutation: 1 more than the greatest of the bar, the times of the files, and the times of the
    /// mutations that were put. Takes no memory.
    pub fn next_time(&self) -> u64
        ensures next { result ≡ next_time self.now }
        ensures past { All (λ cell. cell.time < result) self.now.cells }
        ensures fits { result ≤ 2 ^ 63 }
    {
        self.clock + 1
    }

    /// Puts a mutation. At want of memory nothing has changed. Takes memory for copies of its cells, and for each time with
    /// the logarithm of the keys that were put so far; the list of cells moves each time that it has doubled.
    pub fn put(&mut self, mutation: &Mutation) -> Result<(), AllocError>
        requires { mutation.now.time < 2 ^ 63 }
        ensures ok { OnOk result (self.new ≡ put self.old mutation.now) }
        ensures err { OnErr result (self.new ≡ self.old) }
    {
        let ready = self.unflushed.make_ready(self.alloc, mutation)?;
        self.unflushed.put_ready(ready);
        self.clock = later(self.clock, mutation.time);
        Ok(())
    }

    /// Takes all memory that putting a mutation takes, and puts it not yet: so a caller can write it to a log in between. At
    /// want of memory this memory comes back as it was. Takes the time of `put`.
    pub fn prepare(self, mutation: &Mutation) -> Result<Prepared, (AllocError, TabletMem)>
        requires { mutation.now.time < 2 ^ 63 }
        ensures ok { IfOk result (λ prepared. prepared ≡ record { before = self; after = put self mutation.now }) }
        ensures err { IfErr result (λ refused. refused.1 ≡ self) }
    {
        let TabletMem {
            alloc,
            mut unflushed,
            clock,
        } = self;
        match unflushed.make_ready(alloc, mutation) {
            Ok(ready) => Ok(Prepared {
                alloc,
                unflushed,
                clock,
                ready,
                time: mutation.time,
            }),
            Err(error) => Err((
                error,
                TabletMem {
                    alloc,
                    unflushed,
                    clock,
                },
            )),
        }
    }

    /// The cells, in the order in which they were put. Takes no memory.
    pub fn cells(&self) -> &[Cell]
        ensures cells { result.now ≡ self.now.cells }
        ensures known { All (λ cell. cell.time ≤ self.now.clock) self.now.cells }
    {
        self.unflushed.cells()
    }

    /// The cell of greatest time of each key of the rows above `low`, up to `high` and at it, in key order, removals among
    /// them. A bound that isn't there is no limit. Where two cells agree in key and time, the first that was put counts. Takes
    /// memory for copies of these cells and of the bounds, and time with their number and the logarithm of all keys.
    pub fn newest(
        &self,
        alloc: Global,
        low: Option<&Row>,
        high: Option<&Row>,
    ) -> Result<Vec<Cell>, AllocError>
        ensures { IfOk result (λ newest. IsMerged (clipped (option_copied low.entry) (option_copied high.entry) self.now.cells) true newest.items) }
    {
        self.unflushed.newest(alloc, low, high)
    }

    /// Counts a time in, as that of a file which the tablet gets: the next time is past it. Takes no memory.
    pub fn pass(&mut self, time: u64)
        requires { time < 2 ^ 63 }
        ensures { self.new ≡ passed self.old time }
    {
        self.clock = later(self.clock, time);
    }

    /// Takes all cells out, as after a flush, and keeps the clock. Takes no memory.
    pub fn clear(&mut self)
        ensures { self.new ≡ cleared self.old }
    {
        self.unflushed.clear();
    }
}

/// The memory of a tablet and a mutation for which all memory has been taken. Contracts see what the memory is without the
/// mutation, and with it.
#[derive(Drop)]
pub struct Prepared {
    alloc: Global,
    unflushed: Unflushed,
    clock: u64,
    ready: Vec<Ready>,
    time: u64,
}

impl Model for Prepared {
    ghost use Rattle.tablet_mem.specs.Memory.{PreparedPut};
    ghost use Rattle.tablet_mem.specs.Value.{prepared_code, prepared, IsPrepared};
    ghost use Rattle.cell_merge.specs.contracts.cell.Cell as cell;

    ghost Value = { PreparedPut };

    ghost coded = { prepared_code cell.the_row.coded };

    ghost view = { λ p. prepared (record { cells = p.unflushed.cells.items; clock = p.clock }) p.ready.items p.time };

    ghost invariant = { λ p. IsPrepared p.unflushed p.clock p.ready.items p.time };
}

impl Prepared {
    /// Puts the mutation. Takes no memory, and for each cell time with the logarithm of the keys that were put so far.
    pub fn commit(self) -> TabletMem
        ensures { result ≡ self.after }
    {
        let Prepared {
            alloc,
            mut unflushed,
            clock,
            ready,
            time,
        } = self;
        unflushed.put_ready(ready);
        TabletMem {
            alloc,
            unflushed,
            clock: later(clock, time),
        }
    }

    /// Leaves the mutation out. Takes no memory.
    pub fn withdraw(self) -> TabletMem
        ensures { result ≡ self.before }
    {
        let Prepared {
            alloc,
            unflushed,
            clock,
            ready: _,
            time: _,
        } = self;
        TabletMem {
            alloc,
            unflushed,
            clock,
        }
    }
}
