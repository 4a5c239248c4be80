// What holds of tables, names and the changes of them. Each law is the contract of a call that does nothing.
ghost use Rattle.std.specs.Prelude.{◌≡◌, ◌<◌, ◌^◌, ℕ, List, Ok, IsTrue};
ghost use Rattle.std.specs.List.{Contains};
ghost use Rattle.row_keys.specs.Forms.{IsWordName};
ghost use Rattle.node_store.specs.Nodes.{Nodes, applied};
ghost use Rattle.store_layout.specs.Numbers.{base36_number};
ghost use Rattle.store_layout.specs.Tables.{IsTableForm, IsTableAt, IsStagedPath, Catalog, IsCatalogOf};
ghost use Rattle.store_layout.specs.declared.tables.TableNode.{TableNode};
ghost use Rattle.table_names.specs.Changes.{set_table, make_table, stage, unstage, WritesTable, StagesFile, UnstagesFile};
ghost use Rattle.table_names.specs.Draws.{base36};
ghost use Rattle.table_names.specs.Names.{AreNamesApart, IsNameFree, with_table};
ghost use Rattle.table_names.specs.Tables.{AreTables, is_online_named};

/// Each table of which the nodes tell is among all that are listed.
pub fn a_told_table_is_among_all()
    ensures { (nodes : Nodes) (tables : List TableNode) (id : List ℕ) (table : TableNode) → AreTables nodes tables → IsTableAt nodes id table → Contains tables table }
{}

/// A change that writes a table, over another or anew, makes the nodes tell this table, and changes nothing else.
pub fn a_set_table_changes_that_table_alone()
    ensures set { (table : TableNode) (before after : Nodes) → IsTableForm table → applied (set_table table) before ≡ Ok after → WritesTable table before after }
    ensures made { (table : TableNode) (before after : Nodes) → IsTableForm table → applied (make_table table) before ≡ Ok after → WritesTable table before after }
{}

/// A file that is staged is told so, one that is taken out isn't any more, and nothing else changes.
pub fn a_staged_file_is_told()
    ensures staged { (name path : List ℕ) (before after : Nodes) → IsWordName name → IsStagedPath path → applied (stage name path) before ≡ Ok after → StagesFile name path before after }
    ensures unstaged { (name : List ℕ) (before after : Nodes) → applied (unstage name) before ≡ Ok after → UnstagesFile name before after }
{}

/// A drawn id spells its number, so two numbers have two ids.
pub fn drawn_ids_differ()
    ensures spells { (number : ℕ) → 0 < number → number < 2 ^ 64 → base36_number (base36 number) ≡ number }
    ensures differ { (number other : ℕ) → 0 < number → 0 < other → number < 2 ^ 64 → other < 2 ^ 64 → base36 number ≡ base36 other → number ≡ other }
{}

/// Where names are apart, one ONLINE table at most has a name.
pub fn names_stand_apart()
    ensures { (nodes : Nodes) (catalog : Catalog) (tables : List TableNode) (name : List ℕ) (one other : TableNode) → IsCatalogOf nodes catalog → AreNamesApart catalog → AreTables nodes tables
        → Contains tables one → Contains tables other → IsTrue (is_online_named name one) → IsTrue (is_online_named name other) → one ≡ other }
{}

/// Names stay apart where a table is written that isn't ONLINE, or whose name no other ONLINE table has.
pub fn names_stay_apart()
    ensures { (catalog : Catalog) (table : TableNode) → AreNamesApart catalog → IsNameFree catalog table → AreNamesApart (with_table catalog table) }
{}
