// What holds of the values of nodes. Each law is the contract of a call that does nothing.
ghost use Rattle.std.specs.Prelude.{◌≡◌, ◌<◌, ◌^◌, ℕ, List, [], ◌∷◌, ◌++◌, codes, length, Option, Some, None};
ghost use Rattle.log_files.specs.Mutations.{AreUpdates};
ghost use Rattle.metadata_schema.specs.declared.tablet.TabletRecord.{TabletRecord};
ghost use Rattle.metadata_schema.specs.Columns.{columns_of};
ghost use Rattle.metadata_schema.specs.Records.{IsWellFormed};
ghost use Rattle.node_store.specs.Nodes.{Nodes};
ghost use Rattle.store_layout.specs.declared.tables.TableNode.{TableNode};
ghost use Rattle.store_layout.specs.declared.tables.TableState.TheVariants.{Online};
ghost use Rattle.store_layout.specs.declared.tables.Phase.TheVariants.{Chop};
ghost use Rattle.store_layout.specs.declared.tables.Mark.TheVariants.{Free, Merge, Import};
ghost use Rattle.store_layout.specs.Nodes.{root_value};
ghost use Rattle.store_layout.specs.Words.{word_of, bound_word};
ghost use Rattle.store_layout.specs.Tables.{table_value, IsTableForm, IsStagedPath, Catalog, IsCatalogOf};

/// The columns of a well-formed record can be spelled as updates, where there are fewer than 2^32.
pub fn columns_of_records_are_updates()
    ensures { (tablet : TabletRecord) → IsWellFormed tablet → length (columns_of tablet) < 2 ^ 32 → AreUpdates (columns_of tablet) }
{}

/// A value of `/root` spells one record at most.
pub fn a_root_value_has_one_record()
    ensures { (one other : TabletRecord) → one.table ≡ other.table → one.end ≡ other.end → IsWellFormed one → IsWellFormed other → root_value one ≡ root_value other → one ≡ other }
{}

/// A word is that of one text, and a bound's of one bound.
pub fn words_are_one_to_one()
    ensures texts { (one other : List ℕ) → word_of one ≡ word_of other → one ≡ other }
    ensures bounds { (one other : Option (List ℕ)) → bound_word one ≡ bound_word other → one ≡ other }
{}

/// The value of a table's node is that of one table, and the nodes tell of the same tables and staged files whoever reads them.
pub fn tables_are_one_to_one()
    ensures values { (one other : TableNode) → IsTableForm one → IsTableForm other → one.id ≡ other.id → table_value one ≡ table_value other → one ≡ other }
    ensures catalogs { (nodes : Nodes) (one other : Catalog) → IsCatalogOf nodes one → IsCatalogOf nodes other → one ≡ other }
{}

/// Words, values and paths are these, row by row.
pub fn tables_are_spelled_so()
    ensures empty_text { word_of [] ≡ 92 ∷ codes "e" }
    ensures lone_dash { word_of (codes "-") ≡ 92 ∷ codes "x2d" }
    ensures with_space { word_of (codes "a b-~") ≡ codes "a" ++ 92 ∷ codes "x20b-~" }
    ensures online { table_value (record { id = codes "1"; name = codes "t"; state = Online; mark = Free }) ≡ codes "ONLINE t -" }
    ensures merging { table_value (record { id = codes "1"; name = codes "t"; state = Online; mark = Merge 5 Chop (Some (codes "a")) None }) ≡ codes "ONLINE t merge 5 chop a -" }
    ensures importing { table_value (record { id = codes "1"; name = codes "t"; state = Online; mark = Import 7 (codes "1/default_tablet/I0000003.rf" ∷ codes "1/default_tablet/I0000004.rf" ∷ []) })
        ≡ codes "ONLINE t import 7 1/default_tablet/I0000003.rf 1/default_tablet/I0000004.rf" }
    ensures staged { IsStagedPath (codes "stage/default_tablet/I0000002.rf") }
{}
