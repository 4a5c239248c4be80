// What cells that are put in a user table do to the state. Each law is the contract of a call that does nothing.
ghost use Rattle.std.specs.Prelude.{◌≡◌, ◌∷◌, [], ℕ, List, Option, Some, None, Ok};
ghost use Rattle.std.specs.FinMap as map;
ghost use Rattle.row_keys.specs.declared.key.Key.{Key};
ghost use Rattle.plain_model.specs.State.{PairMap, Table, PlainState};
ghost use Rattle.plain_model.specs.declared.operation.Op.TheVariants.{Insert, Remove};
ghost use Rattle.plain_model.specs.Apply.{apply};
ghost use Rattle.metadata_schema.specs.declared.mutation.Mutation.{Mutation};
ghost use Rattle.metadata_schema.specs.declared.mutation.Update.{Update};
ghost use Rattle.metadata_schema.specs.declared.tablet.TabletRecord.{TabletRecord};
ghost use Rattle.cell_merge.specs.Newest.{latest};
ghost use Rattle.cell_merge.specs.Changes.{overlaid};
ghost use Rattle.store_layout.specs.Tables.{Catalog};
ghost use Rattle.store_meaning.specs.Ground.{Ground};
ghost use Rattle.store_meaning.specs.Content.{cells_of_mutation};
ghost use Rattle.store_meaning.specs.Levels.{Reading};
ghost use Rattle.store_meaning.specs.Writes.{appended};
ghost use Rattle.store_meaning.specs.Stands.{StandsAs};
ghost use Rattle.store_meaning.specs.Kept.{IsKeptAs};
ghost use Rattle.kept_meaning.specs.Puts.{with_cells, state_with, PutsPairs};

/// A mutation's cells in the state: each key of a cell has its value, or nothing after a removal, and other keys have what they
/// had. One update is an insert or a removal of the plain map.
pub fn cells_put_change_the_state()
    ensures pairs { (mutation : Mutation) (pairs : PairMap) (key : Key) → map.get (with_cells (cells_of_mutation mutation) pairs) key ≡ overlaid (latest (cells_of_mutation mutation) key) (map.get pairs key) }
    ensures insert { (state : PlainState) (mutation : Mutation) (table : Table) (update : Update) (value : List ℕ) → map.get state.tables mutation.table ≡ Some table → mutation.updates ≡ update ∷ [] → update.value ≡ Some value
        → apply (Insert mutation.table (record { key = record { row = mutation.row; family = update.family; qualifier = update.qualifier }; value = value })) state ≡ Ok (state_with mutation.table (cells_of_mutation mutation) state) }
    ensures removal { (state : PlainState) (mutation : Mutation) (table : Table) (update : Update) → map.get state.tables mutation.table ≡ Some table → mutation.updates ≡ update ∷ [] → update.value ≡ None
        → apply (Remove mutation.table (record { row = mutation.row; family = update.family; qualifier = update.qualifier })) state ≡ Ok (state_with mutation.table (cells_of_mutation mutation) state) }
{}

/// Cells that are put in a row of a user table change the pairs of that table alone, and what is kept stays so. Nothing is asked of
/// numbers: the record of the tablet says that the table's id was drawn, and names the log.
pub fn cells_put_keep_the_rest()
    ensures stands { (reading : Reading) (catalog : Catalog) (known : Ground) (state : PlainState) → StandsAs reading catalog known state → (log : List ℕ) (mutation : Mutation) (chain : List TabletRecord)
        → PutsPairs known reading catalog log mutation chain → StandsAs reading catalog (appended known log mutation) (state_with mutation.table (cells_of_mutation mutation) state) }
    ensures kept { (reading : Reading) (catalog : Catalog) (known : Ground) (state : PlainState) → IsKeptAs reading catalog known state → (log : List ℕ) (mutation : Mutation) (chain : List TabletRecord)
        → PutsPairs known reading catalog log mutation chain → IsKeptAs reading catalog (appended known log mutation) (state_with mutation.table (cells_of_mutation mutation) state) }
{}
