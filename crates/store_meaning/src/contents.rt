// What a change of a tablet's record does to its cells. Each law is the contract of a call that does nothing.
ghost use Rattle.std.specs.Prelude.{◌≡◌, ℕ, [], List, Option, Some, Contains};
ghost use Rattle.metadata_schema.specs.declared.tablet.TabletRecord.{TabletRecord};
ghost use Rattle.cell_merge.specs.declared.cell.Cell.{Cell};
ghost use Rattle.cell_merge.specs.Newest.{clipped};
ghost use Rattle.level_rows.specs.Chain.{Rows};
ghost use Rattle.store_meaning.specs.Ground.{Ground};
ghost use Rattle.store_meaning.specs.Content.{both_told, logs_of, content_of, contents_of};
ghost use Rattle.store_meaning.specs.ChainWrites.{HasCovered};
ghost use Rattle.store_meaning.specs.Flushes.{memory_of, Flushes, FlushesNothing};
ghost use Rattle.store_meaning.specs.FileChanges.{ReplacesFiles};
ghost use Rattle.store_meaning.specs.Holders.{ChangesHolders, HasSameCells, SharesCells, IsNarrower, AreHalves};

/// A flush leaves each key of the tablet what it had, and nothing in memory: where a file of the newest cells in memory is named
/// and the bar raised past them, and also where nothing was in memory and logs are taken out.
pub fn a_flush_keeps_the_cells()
    ensures covered { (known : Ground) (low : Option (List ℕ)) (old new : TabletRecord) → Flushes known low old new → (was : List Cell) → content_of known low old ≡ Some was → HasCovered was (content_of known low new) }
    ensures empties { (known : Ground) (low : Option (List ℕ)) (old new : TabletRecord) → Flushes known low old new → (was : List Cell) → content_of known low old ≡ Some was → memory_of known low new ≡ Some [] }
    ensures nothing_covered { (known : Ground) (low : Option (List ℕ)) (old new : TabletRecord) → FlushesNothing known low old new → (was : List Cell) → content_of known low old ≡ Some was → HasCovered was (content_of known low new) }
    ensures nothing_empties { (known : Ground) (low : Option (List ℕ)) (old new : TabletRecord) → FlushesNothing known low old new → (was : List Cell) → content_of known low old ≡ Some was → memory_of known low new ≡ Some [] }
{}

/// Files may be replaced by others whose cells leave each key what it had, as by a compaction or a chop, where no removal in a
/// file is later than what is in memory.
pub fn replaced_files_keep_the_cells()
    ensures { (known : Ground) (low : Option (List ℕ)) (old new : TabletRecord) → ReplacesFiles known low old new → (was : List Cell) → content_of known low old ≡ Some was → HasCovered was (content_of known low new) }
{}

/// A record of which holders and logs alone change has the same cells, where each log that comes or goes holds nothing for the
/// tablet; and the same cells leave each key what it had.
pub fn holders_change_no_cells()
    ensures same { (known : Ground) (low : Option (List ℕ)) (old new : TabletRecord) → ChangesHolders known low old new → (was : List Cell) → content_of known low old ≡ Some was → HasSameCells was (content_of known low new) }
    ensures covered { (was : List Cell) (told : Option (List Cell)) → HasSameCells was told → HasCovered was told }
{}

/// A tablet that shares the files and logs of another one and has a narrower extent has just the cells of its rows. Two that
/// share those of a tablet and part its extent have the same cells between them, as the halves of a split.
pub fn a_narrower_extent_has_its_part_of_the_cells()
    ensures narrower { (known : Ground) (low within_low : Option (List ℕ)) (whole part : TabletRecord) → SharesCells whole part → IsNarrower low whole.end within_low part.end
        → (cells : List Cell) → content_of known low whole ≡ Some cells → content_of known within_low part ≡ Some (clipped within_low part.end cells) }
    ensures halves { (known : Ground) (low : Option (List ℕ)) (at : List ℕ) (whole high lower : TabletRecord) → AreHalves low at whole high lower
        → (was : List Cell) → content_of known low whole ≡ Some was → HasSameCells was (both_told (content_of known (Some at) high) (content_of known low lower)) }
{}

/// Tablets without files, logs and a holder have no cells, as those of a new table.
pub fn tablets_that_name_nothing_have_no_cells()
    ensures tablet { (known : Ground) (low : Option (List ℕ)) (tablet : TabletRecord) → tablet.files ≡ [] → logs_of tablet ≡ [] → content_of known low tablet ≡ Some [] }
    ensures chain { (known : Ground) (rows : Rows) (chain : List TabletRecord) → ((tablet : TabletRecord) → Contains chain tablet → (tablet.files ≡ []) × (logs_of tablet ≡ [])) → contents_of known rows chain ≡ Some [] }
{}
