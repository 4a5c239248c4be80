// What holds of the memory of a tablet and its logs. Each law is the contract of a call that does nothing.
ghost use Rattle.std.specs.Prelude.{◌≡◌, ◌↔◌, ◌<◌, [], ℕ, List, Option, Some, All, Contains, true, false};
ghost use Rattle.metadata_schema.specs.declared.mutation.Mutation.{Mutation};
ghost use Rattle.metadata_schema.specs.declared.tablet.TabletRecord.{TabletRecord};
ghost use Rattle.cell_merge.specs.declared.cell.Cell.{Cell};
ghost use Rattle.cell_merge.specs.Newest.{Bytes};
ghost use Rattle.cell_merge.specs.Changes.{AreConsistent};
ghost use Rattle.tablet_mem.specs.Memory.{Memory, put, cleared};
ghost use Rattle.store_meaning.specs.Ground.{Ground};
ghost use Rattle.store_meaning.specs.Content.{logs_of, cells_of_mutation};
ghost use Rattle.store_meaning.specs.Flushes.{memory_of};
ghost use Rattle.store_meaning.specs.Writes.{appended, counts_in};
ghost use Rattle.tablet_scan.specs.Scans.{IsMemoryOf};

/// A memory that has the cells of the tablet's logs in any order, and each as often as it may, is the tablet's.
pub fn the_order_in_memory_counts_for_nothing()
    ensures { (known : Ground) (low : Option Bytes) (tablet : TabletRecord) (memory : Memory) (logged : List Cell) → memory_of known low tablet ≡ Some logged → AreConsistent logged
        → ((cell : Cell) → Contains memory.cells cell ↔ Contains logged cell) → IsMemoryOf known low tablet memory }
{}

/// A memory stays the tablet's as mutations are appended to logs and put: one that counts in the tablet and is later than all in
/// memory, in a log of the tablet, is put; one that doesn't count in the tablet, or stands in another log, isn't. After a flush,
/// which leaves nothing in the logs that counts, it is the tablet's once it is cleared.
pub fn a_memory_follows_its_logs()
    ensures put { (known : Ground) (low : Option Bytes) (tablet : TabletRecord) (memory : Memory) (is : IsMemoryOf known low tablet memory) (log : List ℕ) (mutation : Mutation) → Contains (logs_of tablet) log → counts_in low tablet mutation ≡ true
        → All (λ cell. cell.time < mutation.time) memory.cells → AreConsistent is.logged → AreConsistent (cells_of_mutation mutation) → IsMemoryOf (appended known log mutation) low tablet (put memory mutation) }
    ensures elsewhere { (known : Ground) (low : Option Bytes) (tablet : TabletRecord) (memory : Memory) → IsMemoryOf known low tablet memory → (log : List ℕ) (mutation : Mutation) → counts_in low tablet mutation ≡ false
        → IsMemoryOf (appended known log mutation) low tablet memory }
    ensures unnamed { (known : Ground) (low : Option Bytes) (tablet : TabletRecord) (memory : Memory) → IsMemoryOf known low tablet memory → (log : List ℕ) (mutation : Mutation) → (Contains (logs_of tablet) log → ⊥)
        → IsMemoryOf (appended known log mutation) low tablet memory }
    ensures flushed { (known : Ground) (low : Option Bytes) (tablet : TabletRecord) (memory : Memory) → memory_of known low tablet ≡ Some [] → IsMemoryOf known low tablet (cleared memory) }
{}
