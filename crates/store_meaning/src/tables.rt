// What the state for which an image stands has of tables and tablets. Each law is the contract of a call that does nothing.
ghost use Rattle.std.specs.Prelude.{◌≡◌, ◌↔◌, ◌++◌, [], ◌∷◌, ℕ, true, false, List, Option, Some, None, Contains};
ghost use Rattle.std.specs.FinMap as map;
ghost use Rattle.row_keys.specs.declared.key.Key.{Key};
ghost use Rattle.plain_model.specs.State.{Table as PlainTable, PlainState};
ghost use Rattle.metadata_schema.specs.declared.tablet.TabletRecord.{TabletRecord};
ghost use Rattle.cell_merge.specs.declared.cell.Cell.{Cell};
ghost use Rattle.cell_merge.specs.Newest.{latest, newest_at};
ghost use Rattle.level_rows.specs.Chain.{Rows, IsChain};
ghost use Rattle.level_rows.specs.Extents.{holds_row};
ghost use Rattle.store_layout.specs.declared.tables.Mark.{Mark};
ghost use Rattle.store_layout.specs.declared.tables.Mark.TheVariants.{Import};
ghost use Rattle.store_layout.specs.declared.tables.TableNode.{TableNode};
ghost use Rattle.store_layout.specs.declared.tables.TableState.TheVariants.{Online};
ghost use Rattle.store_layout.specs.Tables.{Catalog};
ghost use Rattle.store_meaning.specs.Ground.{Ground};
ghost use Rattle.store_meaning.specs.Content.{all_told, tablet_content, contents_of};
ghost use Rattle.store_meaning.specs.Levels.{Reading};
ghost use Rattle.store_meaning.specs.Marked.{mark_paths, is_lacking, whole_layer, layers_of, layered};
ghost use Rattle.store_meaning.specs.Stands.{TableStands, IsTableOf, StandsAs};

use level_rows::each_row_lies_in_one_extent;

/// The state has the tables whose nodes are ONLINE, and no others.
pub fn the_state_has_the_online_tables()
    ensures online { (reading : Reading) (catalog : Catalog) (known : Ground) (state : PlainState) (id : List ℕ) (node : TableNode) → StandsAs reading catalog known state → catalog.tables id ≡ Some node
        → node.state ≡ Online → IsTableOf known (reading.users.records id) node (map.get state.tables id) }
    ensures others { (reading : Reading) (catalog : Catalog) (known : Ground) (state : PlainState) (id : List ℕ) (node : TableNode) → StandsAs reading catalog known state → catalog.tables id ≡ Some node
        → (node.state ≡ Online → ⊥) → map.get state.tables id ≡ None }
    ensures none { (reading : Reading) (catalog : Catalog) (known : Ground) (state : PlainState) (id : List ℕ) → StandsAs reading catalog known state → catalog.tables id ≡ None
        → map.get state.tables id ≡ None }
{}

/// A table has, at each key, what the tablet of its row has: the newest of the tablet's content, and where the tablet lacks
/// an import mark the mark's files over it.
pub fn a_table_has_what_its_tablets_have()
    ensures loaded { (known : Ground) (rows : Rows) (node : TableNode) (table : PlainTable) (is : TableStands known rows node table) (tablet : TabletRecord) (content : List Cell) (key : Key) → Contains is.chain tablet
        → holds_row rows tablet key.row ≡ true → tablet_content known rows tablet ≡ Some content → is_lacking node.mark tablet ≡ false → map.get table.pairs key ≡ newest_at content key }
    ensures lacking { (known : Ground) (rows : Rows) (node : TableNode) (table : PlainTable) (is : TableStands known rows node table) (tablet : TabletRecord) (content : List Cell) (key : Key) → Contains is.chain tablet
        → holds_row rows tablet key.row ≡ true → tablet_content known rows tablet ≡ Some content → is_lacking node.mark tablet ≡ true → (files : List (List Cell)) → all_told (whole_layer known) (mark_paths node.mark) ≡ Some files
        → map.get table.pairs key ≡ layered files key (newest_at content key) }
{
    each_row_lies_in_one_extent();
}

/// A tablet lacks an import mark until it has a `loaded` column of the mark's transaction for each of its paths.
pub fn a_tablet_lacks_a_mark_until_all_is_loaded()
    ensures { (tid : ℕ) (paths : List (List ℕ)) (tablet : TabletRecord)
        → (is_lacking (Import tid paths) tablet ≡ false) ↔ ((path : List ℕ) → Contains paths path → Contains tablet.loaded (record { path = path; tid = tid })) }
{}

/// Of layers the last one counts where it has a cell of the key, also where that takes the value away, and else those before it.
pub fn the_last_layer_counts()
    ensures last { (layers : List (List Cell)) (cells : List Cell) (cell : Cell) (key : Key) (below : Option (List ℕ)) → latest cells key ≡ Some cell → layered (layers ++ cells ∷ []) key below ≡ cell.value }
    ensures others { (layers : List (List Cell)) (cells : List Cell) (key : Key) (below : Option (List ℕ)) → latest cells key ≡ None → layered (layers ++ cells ∷ []) key below ≡ layered layers key below }
{}

/// A key of a table has, of all cells of its chain, what the tablet of its row has.
pub fn a_key_has_what_its_tablet_has()
    ensures { (known : Ground) (rows : Rows) (chain : List TabletRecord) (cells content : List Cell) (tablet : TabletRecord) (key : Key) → IsChain rows chain → contents_of known rows chain ≡ Some cells
        → Contains chain tablet → holds_row rows tablet key.row ≡ true → tablet_content known rows tablet ≡ Some content → newest_at cells key ≡ newest_at content key }
{
    each_row_lies_in_one_extent();
}

/// The files of an import mark count in the tablets of a chain that lack it, over whatever is there, a later file over an
/// earlier one; in any other tablet they don't count.
pub fn an_import_mark_counts_where_it_is_lacking()
    ensures outside { (known : Ground) (rows : Rows) (chain : List TabletRecord) (mark : Mark) (layers : List (List Cell)) (key : Key) (below : Option (List ℕ)) → layers_of known rows chain mark ≡ Some layers
        → ((tablet : TabletRecord) → Contains chain tablet → is_lacking mark tablet ≡ true → holds_row rows tablet key.row ≡ true → ⊥) → layered layers key below ≡ below }
    ensures inside { (known : Ground) (rows : Rows) (chain : List TabletRecord) (mark : Mark) (layers : List (List Cell)) (key : Key) (below : Option (List ℕ)) → layers_of known rows chain mark ≡ Some layers
        → (tablet : TabletRecord) (files : List (List Cell)) → Contains chain tablet → is_lacking mark tablet ≡ true → holds_row rows tablet key.row ≡ true
        → all_told (whole_layer known) (mark_paths mark) ≡ Some files → layered layers key below ≡ layered files key below }
{}
