// How a run comes to its store.
ghost use Rattle.std.specs.Prelude.{true, false};
ghost use Rattle.shell.specs.Opening.{OpensStore};

use ground_store::{GroundStop, init_nodes, open_nodes};
use host_model::Host;
use std::alloc::Global;
use table_store::{TableStore, a_new_store_is_kept};

/// Opens the store that is there.
fn open_store<H: Host>(alloc: Global, host: &mut H) -> Result<TableStore, GroundStop>
    ensures { OpensStore false result (H.state host.old) (H.state host.new) }
{
    let nodes = open_nodes(alloc, host)?;
    let store = TableStore::over(alloc, nodes)?;
    Ok(store)
}

/// Makes a new store.
fn make_store<H: Host>(alloc: Global, host: &mut H) -> Result<TableStore, GroundStop>
    ensures { OpensStore true result (H.state host.old) (H.state host.new) }
{
    a_new_store_is_kept();
    let nodes = init_nodes(alloc, host)?;
    let store = TableStore::over(alloc, nodes)?;
    Ok(store)
}

/// Opens the store that is there, or makes a new one.
pub fn open_or_make<H: Host>(
    alloc: Global,
    init: bool,
    host: &mut H,
) -> Result<TableStore, GroundStop>
    ensures { OpensStore init result (H.state host.old) (H.state host.new) }
{
    if init {
        make_store(alloc, host)
    } else {
        open_store(alloc, host)
    }
}
