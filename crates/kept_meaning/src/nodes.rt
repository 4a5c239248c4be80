// Which nodes may change, and what the state becomes. Each law is the contract of a call that does nothing.
ghost use Rattle.std.specs.Prelude.{◌≡◌, ℕ, List, Ok};
ghost use Rattle.plain_model.specs.State.{Table, PlainState};
ghost use Rattle.plain_model.specs.declared.operation.Op.TheVariants.{Create};
ghost use Rattle.plain_model.specs.Apply.{put_table, apply};
ghost use Rattle.node_store.specs.Nodes.{Nodes};
ghost use Rattle.store_layout.specs.declared.tables.TableNode.{TableNode};
ghost use Rattle.store_layout.specs.Tables.{Catalog};
ghost use Rattle.store_meaning.specs.Ground.{Ground, with_nodes};
ghost use Rattle.store_meaning.specs.Levels.{Reading};
ghost use Rattle.store_meaning.specs.Stands.{StandsAs};
ghost use Rattle.store_meaning.specs.Kept.{IsKeptAs};
ghost use Rattle.kept_meaning.specs.Nodes.{DrawsNumber, RaisesCounter, catalog_with, MakesOnline, new_table, CreatesTable};
ghost use Rattle.kept_meaning.specs.Servers.{ChangesServers};

/// A number may be drawn, where no counter falls: the state stays, and what is kept stays so.
pub fn a_number_may_be_drawn()
    ensures stands { (reading : Reading) (catalog : Catalog) (known : Ground) (state : PlainState) → StandsAs reading catalog known state → (nodes : Nodes) → DrawsNumber known.nodes nodes
        → StandsAs reading catalog (with_nodes known nodes) state }
    ensures kept { (reading : Reading) (catalog : Catalog) (known : Ground) (state : PlainState) → IsKeptAs reading catalog known state → (nodes : Nodes) → DrawsNumber known.nodes nodes
        → IsKeptAs reading catalog (with_nodes known nodes) state }
{}

/// Where one counter rises and no other node changes, a number is drawn.
pub fn a_counter_may_rise()
    ensures { (old new : Nodes) (path : List ℕ) → RaisesCounter old new path → DrawsNumber old new }
{}

/// Nodes of servers and of logs may come and go, as where a server starts or has expired, where each log that comes has no mutation
/// yet and what comes was drawn: the state stays, and what is kept stays so.
pub fn servers_may_come_and_go()
    ensures stands { (reading : Reading) (catalog : Catalog) (known : Ground) (state : PlainState) → StandsAs reading catalog known state → (nodes : Nodes) → ChangesServers known reading nodes
        → StandsAs reading catalog (with_nodes known nodes) state }
    ensures kept { (reading : Reading) (catalog : Catalog) (known : Ground) (state : PlainState) → IsKeptAs reading catalog known state → (nodes : Nodes) → ChangesServers known reading nodes
        → IsKeptAs reading catalog (with_nodes known nodes) state }
{}

/// A NEW table may come ONLINE, where no table has its name: the state gains the table for which its rows stand, and what is kept
/// stays so.
pub fn a_table_comes_online()
    ensures stands { (reading : Reading) (catalog : Catalog) (known : Ground) (state : PlainState) → StandsAs reading catalog known state → (nodes : Nodes) (id : List ℕ) (node : TableNode) (table : Table)
        → MakesOnline known reading catalog state nodes id node table → StandsAs reading (catalog_with catalog id node) (with_nodes known nodes) (put_table id table state) }
    ensures kept { (reading : Reading) (catalog : Catalog) (known : Ground) (state : PlainState) → IsKeptAs reading catalog known state → (nodes : Nodes) (id : List ℕ) (node : TableNode) (table : Table)
        → MakesOnline known reading catalog state nodes id node table → IsKeptAs reading (catalog_with catalog id node) (with_nodes known nodes) (put_table id table state) }
{}

/// A NEW and empty table comes ONLINE: the state becomes that of the plain map's `Create`, with the end rows of the chain as its
/// split points, and what is kept stays so.
pub fn a_new_table_is_created()
    ensures create { (reading : Reading) (catalog : Catalog) (known : Ground) (state : PlainState) (nodes : Nodes) (id : List ℕ) (node : TableNode) (splits : List (List ℕ))
        → CreatesTable known reading catalog state nodes id node splits → apply (Create id node.name splits) state ≡ Ok (put_table id (new_table node.name splits) state) }
    ensures kept { (reading : Reading) (catalog : Catalog) (known : Ground) (state : PlainState) → IsKeptAs reading catalog known state → (nodes : Nodes) (id : List ℕ) (node : TableNode) (splits : List (List ℕ))
        → CreatesTable known reading catalog state nodes id node splits → IsKeptAs reading (catalog_with catalog id node) (with_nodes known nodes) (put_table id (new_table node.name splits) state) }
{}
