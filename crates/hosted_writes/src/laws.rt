// What a write into a hosted tablet makes of the memories of tablets. Each law is the contract of a call that does nothing.
ghost use Rattle.std.specs.Prelude.{◌≡◌, ◌≢◌, ℕ, List, Option, Some, IsSome, Contains};
ghost use Rattle.std.specs.FinMap as map;
ghost use Rattle.cell_merge.specs.Newest.{Bytes};
ghost use Rattle.hosted_memories.specs.Hosted.{HostedTablets, memories_of, sessions_of};
ghost use Rattle.hosted_writes.specs.Memories.{HasRow, IsTimedPast, AreTold, TakesWrite, IsAside, IsHolderOf};
ghost use Rattle.hosted_writes.specs.Puts.{timed, next_mutation, memory_at, with_put};
ghost use Rattle.hosted_writes.specs.declared.row_updates.RowUpdates.{RowUpdates};
ghost use Rattle.level_rows.specs.Chain.{Rows, IsChain, effective_prev};
ghost use Rattle.metadata_schema.specs.declared.mutation.Mutation.{Mutation};
ghost use Rattle.metadata_schema.specs.declared.tablet.TabletRecord.{TabletRecord};
ghost use Rattle.store_meaning.specs.Content.{content_of};
ghost use Rattle.store_meaning.specs.Ground.{Ground};
ghost use Rattle.store_meaning.specs.Writes.{appended, StandsIn};
ghost use Rattle.tablet_mem.specs.Memory.{Memory, put};
ghost use Rattle.tablet_scan.specs.Scans.{IsMemoryOf};

/// A put changes one memory: that of its tablet has the mutation, and each other one is as it was. No tablet comes, goes or moves.
pub fn a_put_changes_one_memory()
    ensures own { (hosted : HostedTablets) (tablet : List ℕ) (mutation : Mutation) → IsSome (map.get hosted tablet) → memories_of (with_put hosted tablet mutation) tablet ≡ Some (put (memory_at hosted tablet) mutation) }
    ensures others { (hosted : HostedTablets) (tablet : List ℕ) (mutation : Mutation) (other : List ℕ) → other ≢ tablet → map.get (with_put hosted tablet mutation) other ≡ map.get hosted other }
    ensures sessions { (hosted : HostedTablets) (tablet : List ℕ) (mutation : Mutation) (row : List ℕ) → sessions_of (with_put hosted tablet mutation) row ≡ sessions_of hosted row }
{}

/// A memory stays its tablet's as a write is put in it, once the write stands in a log of the tablet. Its next time is past all that
/// the tablet has then, and no two different cells there have the same key and time.
pub fn a_put_memory_is_the_tablets()
    ensures memory { (known : Ground) (low : Option Bytes) (tablet : TabletRecord) (memory : Memory) (log : List ℕ) (write : RowUpdates) → TakesWrite known low tablet memory log write
        → IsMemoryOf (appended known log (next_mutation memory write)) low tablet (put memory (next_mutation memory write)) }
    ensures past { (known : Ground) (low : Option Bytes) (tablet : TabletRecord) (memory : Memory) (log : List ℕ) (write : RowUpdates) → TakesWrite known low tablet memory log write
        → IsTimedPast (appended known log (next_mutation memory write)) low tablet (put memory (next_mutation memory write)) }
    ensures content { (known : Ground) (low : Option Bytes) (tablet : TabletRecord) (memory : Memory) (log : List ℕ) (write : RowUpdates) → TakesWrite known low tablet memory log write
        → AreTold (content_of (appended known log (next_mutation memory write)) low tablet) }
{}

/// The memory of a tablet that doesn't have the row, or doesn't name the log, stays that tablet's, and its next time stays past all
/// that the tablet has.
pub fn other_memories_stay()
    ensures memory { (known : Ground) (low : Option Bytes) (tablet : TabletRecord) (memory : Memory) (log : List ℕ) (mutation : Mutation) → IsMemoryOf known low tablet memory → IsAside low tablet log mutation
        → IsMemoryOf (appended known log mutation) low tablet memory }
    ensures past { (known : Ground) (low : Option Bytes) (tablet : TabletRecord) (memory : Memory) (log : List ℕ) (mutation : Mutation) → IsTimedPast known low tablet memory → IsAside low tablet log mutation
        → IsTimedPast (appended known log mutation) low tablet memory }
    ensures aside { (low : Option Bytes) (tablet : TabletRecord) (log : List ℕ) (write : RowUpdates) (time : ℕ) → (HasRow low tablet write → ⊥) → IsAside low tablet log (timed write time) }
{}

/// A row lies in the extent of just one tablet of a chain of its table: so does a row of a level among the tablets one level up. There
/// the write stands once it is in a log of that tablet, and it is aside of every other one.
pub fn a_written_row_stands_in_its_holder()
    ensures one { (rows : Rows) (chain : List TabletRecord) (write : RowUpdates) → IsChain rows chain → ((tablet : TabletRecord) → Contains chain tablet → write.table ≡ tablet.table) → (holder : TabletRecord) × IsHolderOf rows chain write holder }
    ensures stands { (known : Ground) (rows : Rows) (chain : List TabletRecord) (holder : TabletRecord) (memory : Memory) (log : List ℕ) (write : RowUpdates) → Contains chain holder → TakesWrite known (effective_prev rows holder) holder memory log write
        → StandsIn known rows chain log (next_mutation memory write) }
    ensures others { (rows : Rows) (chain : List TabletRecord) (holder other : TabletRecord) (log : List ℕ) (write : RowUpdates) (time : ℕ) → IsHolderOf rows chain write holder → Contains chain other → other ≢ holder
        → IsAside (effective_prev rows other) other log (timed write time) }
{}
