// What holds of operations, histories and plain states.
ghost use Rattle.std.specs.Prelude.{ℕ, List};
ghost use Rattle.row_keys.specs.Keys.{key_cmp};
ghost use Rattle.row_keys.specs.RowOrder.{bytes_cmp};
ghost use Rattle.plain_model.specs.State.{Table, PairMap, nothing};
ghost use Rattle.plain_model.specs.Apart.{ApartCommute};
ghost use Rattle.plain_model.specs.Laws.{HistoriesJoin, RefusedIsInNoHistory, AreNamedApart, NamesStayApart, HistoriesNameApart, KeysRise, MergeAbsorbs, DeleteRowsAbsorbs, ClonesStandApart};

/// A history goes on where its beginning ends.
pub fn histories_join()
    ensures { HistoriesJoin }
{}

/// A refused operation is in no history.
pub fn refused_is_in_no_history()
    ensures { RefusedIsInNoHistory }
{}

/// Where no two tables have the same name, no operation gives two the same, and no history does. So no two have the same
/// behind a history that begins with nothing.
pub fn names_stay_apart()
    ensures operation { NamesStayApart }
    ensures history { HistoriesNameApart }
    ensures nothing { AreNamedApart nothing }
{}

/// The split points of a table strictly rise, and so do its pairs by key, the tables by id and the staged files by name.
pub fn lists_rise()
    ensures points { KeysRise bytes_cmp (Unit {0}) }
    ensures pairs { KeysRise key_cmp (List ℕ) }
    ensures tables { KeysRise bytes_cmp Table }
    ensures staged { KeysRise bytes_cmp PairMap }
{}

/// Operations that don't meet give the same state in both orders, or are refused in both: they are of different tables, neither
/// gives a name that the other gives or takes away, and neither stages a file that the other asks for.
pub fn operations_apart_commute()
    ensures { ApartCommute }
{}

/// A merge of a range in a range makes no difference, before the merge of the outer one and behind it.
pub fn merge_absorbs_merges_within()
    ensures { MergeAbsorbs }
{}

/// Rows deleted in a range in a range make no difference, before those of the outer one and behind them.
pub fn delete_rows_absorbs_those_within()
    ensures { DeleteRowsAbsorbs }
{}

/// A clone has the pairs of its original, and what is inserted into the one isn't in the other.
pub fn clones_stand_apart()
    ensures { ClonesStandApart }
{}
