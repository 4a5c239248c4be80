// What the counters of kept nodes say. Each law is the contract of a call that does nothing.
ghost use Rattle.std.specs.Prelude.{◌≡◌, ℕ, ◌≤◌, List, Option, None};
ghost use Rattle.std.specs.FinMap as map;
ghost use Rattle.row_keys.specs.Forms.{IsUserTableId, IsSessionId};
ghost use Rattle.plain_model.specs.State.{PlainState};
ghost use Rattle.store_layout.specs.Nodes.{IsNext, next_name_path, next_table_path, next_session_path};
ghost use Rattle.store_layout.specs.Numbers.{base36_number, base16_number};
ghost use Rattle.store_layout.specs.Tables.{Catalog};
ghost use Rattle.store_meaning.specs.Ground.{Ground};
ghost use Rattle.store_meaning.specs.Levels.{Reading};
ghost use Rattle.store_meaning.specs.Kept.{IsKeptAs};
ghost use Rattle.kept_meaning.specs.Drawn.{IsNewName, IsNewId, IsNewSession};

/// The number that the counter of names says, or a later one, is that of no file that counts, of no candidate, and of no record's
/// directory.
pub fn a_drawn_name_is_new()
    ensures { (reading : Reading) (catalog : Catalog) (known : Ground) (state : PlainState) → IsKeptAs reading catalog known state → (next number : ℕ) → IsNext known.nodes next_name_path next → next ≤ number
        → IsNewName reading catalog known.nodes number }
{}

/// An id of the number that the counter of tables says, or of a later one, is no table's. No record is of it, so its rows are
/// empty; no mutation in a log is of it, so what the table will hold is empty; and the state has no table of it.
pub fn a_drawn_id_is_new()
    ensures new { (reading : Reading) (catalog : Catalog) (known : Ground) (state : PlainState) → IsKeptAs reading catalog known state → (next : ℕ) (id : List ℕ) → IsNext known.nodes next_table_path next → IsUserTableId id → next ≤ base36_number id
        → IsNewId reading catalog known id }
    ensures rows { (reading : Reading) (catalog : Catalog) (known : Ground) (state : PlainState) → IsKeptAs reading catalog known state → (id : List ℕ) → IsNewId reading catalog known id → (end : Option (List ℕ)) → reading.users.records id end ≡ None }
    ensures state { (reading : Reading) (catalog : Catalog) (known : Ground) (state : PlainState) → IsKeptAs reading catalog known state → (id : List ℕ) → IsNewId reading catalog known id → map.get state.tables id ≡ None }
{}

/// A session of the number that the counter of sessions says, or of a later one, is no server's, no holder's and no log's, and its
/// log isn't in use.
pub fn a_drawn_session_is_new()
    ensures { (reading : Reading) (catalog : Catalog) (known : Ground) (state : PlainState) → IsKeptAs reading catalog known state → (next : ℕ) (session : List ℕ) → IsNext known.nodes next_session_path next → IsSessionId session
        → next ≤ base16_number session → IsNewSession reading known.nodes session }
{}
