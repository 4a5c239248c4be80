// What starts of servers mean. Each law is the contract of a call that does nothing.
ghost use Rattle.std.specs.Prelude.{◌≡◌, ℕ, List, [], ◌∷◌};
ghost use Rattle.host_model.specs.Picture.{Image};
ghost use Rattle.plain_model.specs.State.{PlainState};
ghost use Rattle.node_store.specs.Image.{IsStored};
ghost use Rattle.node_store.specs.Value.{StoreValue};
ghost use Rattle.store_layout.specs.Names.{nodes_name};
ghost use Rattle.store_layout.specs.Tables.{Catalog};
ghost use Rattle.store_meaning.specs.Ground.{Ground, IsGroundOf};
ghost use Rattle.store_meaning.specs.Levels.{Reading};
ghost use Rattle.store_meaning.specs.Kept.{IsKept, IsKeptAs};
ghost use Rattle.node_store.specs.Steps.{MayGive, Gives};
ghost use Rattle.server_nodes.specs.Sessions.{server_path};
ghost use Rattle.server_nodes.specs.Starting.{MayStart, Starts};
ghost use Rattle.server_nodes.specs.Ending.{clear_ops, delete_op, servers_in, GivesAny, MayGiveAny};
ghost use Rattle.server_nodes.specs.Grounds.{IsStartedGround, IsGroundWithout};

/// A server may start: a kept image stays kept with the same state, and so does whatever a crash on the way leaves of it. Afterwards
/// the ground is read as before, with a new session and its log.
pub fn a_server_may_start()
    ensures ground { (old new : Image) (reading : Reading) (catalog : Catalog) (known : Ground) (state : PlainState) → IsGroundOf old known → IsKeptAs reading catalog known state
        → (name : List ℕ) (store : StoreValue) → store.name ≡ nodes_name → IsStored store old → Starts name store old new → IsStartedGround name reading catalog known state new }
    ensures done { (old new : Image) (state : PlainState) → IsKept old state → (name : List ℕ) (store : StoreValue) → store.name ≡ nodes_name → IsStored store old → Starts name store old new → IsKept new state }
    ensures inside { (old new : Image) (state : PlainState) → IsKept old state → (name : List ℕ) (store : StoreValue) → store.name ≡ nodes_name → IsStored store old → MayStart name store old new → IsKept new state }
{}

/// Servers may be taken out, one or all: a kept image stays kept with the same state, and so does whatever a crash on the way leaves
/// of it. Afterwards the ground is read as before, and differs in these nodes alone.
pub fn servers_may_be_taken_out()
    ensures ground { (old new : Image) (reading : Reading) (catalog : Catalog) (known : Ground) (state : PlainState) → IsGroundOf old known → IsKeptAs reading catalog known state
        → (name : List ℕ) (store : StoreValue) → store.name ≡ nodes_name → IsStored store old → Gives (delete_op (server_path name) ∷ []) store old new → IsGroundWithout (server_path name ∷ []) reading catalog known state new }
    ensures grounds { (old new : Image) (reading : Reading) (catalog : Catalog) (known : Ground) (state : PlainState) → IsGroundOf old known → IsKeptAs reading catalog known state
        → (store : StoreValue) → store.name ≡ nodes_name → IsStored store old → GivesAny (clear_ops store.nodes) store old new → IsGroundWithout (servers_in store.nodes) reading catalog known state new }
    ensures one { (old new : Image) (state : PlainState) → IsKept old state → (name : List ℕ) (store : StoreValue) → store.name ≡ nodes_name → IsStored store old → Gives (delete_op (server_path name) ∷ []) store old new → IsKept new state }
    ensures one_inside { (old new : Image) (state : PlainState) → IsKept old state → (name : List ℕ) (store : StoreValue) → store.name ≡ nodes_name → IsStored store old → MayGive (delete_op (server_path name) ∷ []) store old new → IsKept new state }
    ensures all { (old new : Image) (state : PlainState) → IsKept old state → (store : StoreValue) → store.name ≡ nodes_name → IsStored store old → GivesAny (clear_ops store.nodes) store old new → IsKept new state }
    ensures all_inside { (old new : Image) (state : PlainState) → IsKept old state → (store : StoreValue) → store.name ≡ nodes_name → IsStored store old → MayGiveAny (clear_ops store.nodes) store old new → IsKept new state }
{}
