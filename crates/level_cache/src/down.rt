// Which of the upper tablets is on no live server.
ghost use Rattle.std.specs.Prelude.{◌≡◌, List, None, All, IfErr, IfOk, IsSome, IsTrue, MatchOption};
ghost use Rattle.metadata_schema.specs.declared.tablet.TabletRecord.{TabletRecord as Record};
ghost use Rattle.store_meaning.specs.Ground.{Ground as Known};
ghost use Rattle.host_model.specs.declared.fault.Stop.TheVariants.{NoMemory};
ghost use Rattle.store_meaning.specs.Levels.{Reading, IsRecordAt, metadata_rows};
ghost use Rattle.ground_store.specs.Acts.{Acts, stop_of};
ghost use Rattle.ground_store.specs.Steps.{Stays};
ghost use Rattle.hosted_memories.specs.Hosted.{memories_of};
ghost use Rattle.level_scan.specs.Levels.{IsNoDamage};
ghost use Rattle.level_cache.specs.Shown.{ShowsLevels, HasRootMemory};
ghost use Rattle.level_cache.specs.Tables.{AreRecordsAt};
ghost use Rattle.level_cache.specs.Causes.{LevelsStop};
ghost use Rattle.level_cache.specs.Down.{IsLive, IsAway, IsDownIn, AreLevelsDown};

use crate::cache::LevelCache;
use crate::records::root_records;
use crate::tables::metadata_table;
use ground_store::Ground;
use host_model::{Host, Stop};
use hosted_memories::HostedMemories;
use metadata_schema::TabletRecord;
use row_keys::{Row, metadata_row};
use server_list::{Place, ServerList};
use state_reader::LevelKind;
use std::alloc::{AllocError, Global};

/// Where the tablet is, unless it is on a live server.
fn away(
    alloc: Global,
    servers: &ServerList,
    tablet: &TabletRecord,
) -> Result<Option<Place>, AllocError>
    ensures { IfOk result (λ place. MatchOption place (IsLive servers.now tablet.now) (IsAway servers.now tablet.now)) }
{
    match servers.place(alloc, tablet)? {
        Place::Live(_) => Ok(None),
        place => Ok(Some(place)),
    }
}

/// The row and the place of the first of these tablets that is on no live server.
fn first_away(
    alloc: Global,
    servers: &ServerList,
    tablets: &[TabletRecord],
) -> Result<Option<(Row, Place)>, AllocError>
    requires { All (λ tablet. IsRecordAt tablet.table tablet.end tablet) tablets.now }
    ensures { IfOk result (IsDownIn servers.now tablets.now) }
{
    for tablet in tablets {
        if let Some(place) = away(alloc, servers, tablet)? {
            let row = metadata_row(alloc, &tablet.table, tablet.end.as_ref())?;
            return Ok(Some((row, place)));
        }
    }
    Ok(None)
}

/// The same, over a ground that stops where memory wants.
fn down_in<H: Host>(
    alloc: Global,
    ground: &mut Ground<H>,
    servers: &ServerList,
    tablets: &[TabletRecord],
) -> Result<Option<(Row, Place)>, Stop>
    requires { All (λ tablet. IsRecordAt tablet.table tablet.end tablet) tablets.now }
    ensures acts { Acts H.state Stays Stays (stop_of result) ground.old ground.new }
    ensures host { ground.new.host ≡ ground.old.host }
    ensures same { (ground.new.nodes ≡ ground.old.nodes) × (ground.new.logs ≡ ground.old.logs) }
    ensures found { IfOk result (IsDownIn servers.now tablets.now) }
    ensures stops { ground.old.stopped ≡ None → IfErr result (λ stop. stop ≡ NoMemory) }
{
    ground.check()?;
    match first_away(alloc, servers, tablets) {
        Ok(down) => Ok(down),
        Err(_) => Err(ground.stop(Stop::NoMemory)),
    }
}

impl LevelCache {
    /// The records of the metadata table's tablets.
    fn metadata_records<H: Host>(
        &mut self,
        alloc: Global,
        ground: &mut Ground<H>,
        memories: &HostedMemories,
    ) -> Result<Vec<TabletRecord>, Stop>
        ensures acts { Acts H.state Stays Stays (stop_of result) ground.old ground.new }
        ensures same { (ground.new.nodes ≡ ground.old.nodes) × (ground.new.logs ≡ ground.old.logs) }
        ensures told { IsTrue (H.state ground.old.host).is_faithful → (reading : Reading) (known : Known) → ShowsLevels (H.state ground.old.host).files self.old reading known
            → HasRootMemory known reading (memories_of memories.now) → IfOk result (λ records. AreRecordsAt (metadata_rows reading) records.items) }
        ensures keeps { IsTrue (H.state ground.old.host).is_faithful → (reading : Reading) (known : Known) → ShowsLevels (H.state ground.old.host).files self.old reading known
            → HasRootMemory known reading (memories_of memories.now) → ShowsLevels (H.state ground.new.host).files self.new reading known }
        ensures undamaged { ground.old.stopped ≡ None → IsTrue (H.state ground.old.host).is_faithful → (reading : Reading) (known : Known) → ShowsLevels (H.state ground.old.host).files self.old reading known
            → HasRootMemory known reading (memories_of memories.now) → IfErr result IsNoDamage }
        ensures forms { IfOk result (λ records. All (λ tablet. IsRecordAt tablet.table tablet.end tablet) records.items) }
        ensures stops { ground.old.stopped ≡ None → IfErr result (λ stop. LevelsStop ground.old.nodes.nodes (memories_of memories.now) self.new stop (H.state ground.old.host) (H.state ground.new.host)) }
        ensures cached { IsSome self.old.metadata → (ground.new.host ≡ ground.old.host) × (self.new ≡ self.old) }
    {
        ground.check()?;
        match metadata_table(alloc) {
            Ok(table) => self.records_on(alloc, ground, memories, LevelKind::Metadata, &table),
            Err(_) => Err(ground.stop(Stop::NoMemory)),
        }
    }

    /// The first of the metadata table's tablets that is on no live server.
    fn metadata_down<H: Host>(
        &mut self,
        alloc: Global,
        ground: &mut Ground<H>,
        memories: &HostedMemories,
        servers: &ServerList,
    ) -> Result<Option<(Row, Place)>, Stop>
        ensures acts { Acts H.state Stays Stays (stop_of result) ground.old ground.new }
        ensures same { (ground.new.nodes ≡ ground.old.nodes) × (ground.new.logs ≡ ground.old.logs) }
        ensures told { IsTrue (H.state ground.old.host).is_faithful → (reading : Reading) (known : Known) → ShowsLevels (H.state ground.old.host).files self.old reading known
            → HasRootMemory known reading (memories_of memories.now) → IfOk result (λ found. (records : List Record) × AreRecordsAt (metadata_rows reading) records × IsDownIn servers.now records found) }
        ensures keeps { IsTrue (H.state ground.old.host).is_faithful → (reading : Reading) (known : Known) → ShowsLevels (H.state ground.old.host).files self.old reading known
            → HasRootMemory known reading (memories_of memories.now) → ShowsLevels (H.state ground.new.host).files self.new reading known }
        ensures undamaged { ground.old.stopped ≡ None → IsTrue (H.state ground.old.host).is_faithful → (reading : Reading) (known : Known) → ShowsLevels (H.state ground.old.host).files self.old reading known
            → HasRootMemory known reading (memories_of memories.now) → IfErr result IsNoDamage }
        ensures stops { ground.old.stopped ≡ None → IfErr result (λ stop. LevelsStop ground.old.nodes.nodes (memories_of memories.now) self.new stop (H.state ground.old.host) (H.state ground.new.host)) }
        ensures cached { IsSome self.old.metadata → (ground.new.host ≡ ground.old.host) × (self.new ≡ self.old) }
    {
        let records = self.metadata_records(alloc, ground, memories)?;
        down_in(alloc, ground, servers, &records)
    }

    /// The row and the place of the first tablet that is on no live server, of the root tablet and, behind it, the tablets of the
    /// metadata table in the order of their rows; or none where each is on a live server. Over an image that is read so, and a memory
    /// that is the root tablet's if that is on a live server, these are the tablets of that reading. The records of the metadata table's
    /// tablets are read if they aren't there, as by `load`, and its stops come in the same way; but nothing is read where the root tablet
    /// is on no live server. Takes memory for copies of these records, and time with their number once they are there.
    pub fn levels_down<H: Host>(
        &mut self,
        alloc: Global,
        ground: &mut Ground<H>,
        memories: &HostedMemories,
        servers: &ServerList,
    ) -> Result<Option<(Row, Place)>, Stop>
        ensures acts { Acts H.state Stays Stays (stop_of result) ground.old ground.new }
        ensures same { (ground.new.nodes ≡ ground.old.nodes) × (ground.new.logs ≡ ground.old.logs) }
        ensures down { IsTrue (H.state ground.old.host).is_faithful → (reading : Reading) (known : Known) → ShowsLevels (H.state ground.old.host).files self.old reading known
            → (IsLive servers.now reading.root → HasRootMemory known reading (memories_of memories.now)) → IfOk result (AreLevelsDown servers.now reading) }
        ensures keeps { IsTrue (H.state ground.old.host).is_faithful → (reading : Reading) (known : Known) → ShowsLevels (H.state ground.old.host).files self.old reading known
            → (IsLive servers.now reading.root → HasRootMemory known reading (memories_of memories.now)) → ShowsLevels (H.state ground.new.host).files self.new reading known }
        ensures undamaged { ground.old.stopped ≡ None → IsTrue (H.state ground.old.host).is_faithful → (reading : Reading) (known : Known) → ShowsLevels (H.state ground.old.host).files self.old reading known
            → (IsLive servers.now reading.root → HasRootMemory known reading (memories_of memories.now)) → IfErr result IsNoDamage }
        ensures stops { ground.old.stopped ≡ None → IfErr result (λ stop. LevelsStop ground.old.nodes.nodes (memories_of memories.now) self.new stop (H.state ground.old.host) (H.state ground.new.host)) }
        ensures cached { IsSome self.old.metadata → (ground.new.host ≡ ground.old.host) × (self.new ≡ self.old) }
    {
        let roots = root_records(alloc, ground)?;
        match down_in(alloc, ground, servers, &roots)? {
            Some(down) => Ok(Some(down)),
            None => self.metadata_down(alloc, ground, memories, servers),
        }
    }
}
