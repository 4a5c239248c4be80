// The store of tables.
ghost use Rattle.std.specs.Prelude.{◌≡◌, IfOk, IfErr};
ghost use Rattle.std.specs.Option.{option_to_list};
ghost use Rattle.store_layout.specs.Names.{nodes_name};
ghost use Rattle.table_store.specs.Tables.{table_texts};
ghost use Rattle.table_store.specs.Reading.{IsReading};
ghost use Rattle.table_store.specs.StoreValue.{IsFresh, ReadStops};

use crate::index::TableIndex;
use crate::reading::read_tables;
use host_model::Stop;
use node_store::NodeStore;
use plain_model::{Entries, Entry};
use row_keys::{ListOf, Texts};
use std::alloc::{AllocError, Global};
use std::marker::Model;
use store_layout::nodes_name;

/// The tables of a store, in its nodes and in memory, and what was committed in this run.
#[derive(Drop)]
pub struct TableStore {
    pub(crate) alloc: Global,
    pub(crate) nodes: NodeStore,
    pub(crate) by_name: TableIndex,
    pub(crate) next: u64,
    /// The committed entries, and then the one that is offered.
    pub(crate) entries: Vec<Entry>,
    pub(crate) committed: usize,
    /// What it has answered, and answers from then on. It never names a file, so that answering it again takes no memory.
    pub(crate) stop: Option<Stop>,
}

impl Model for TableStore {
    ghost use Rattle.table_store.specs.StoreValue.{StoreValue};
    ghost use Rattle.table_store.specs.StoreCode.{store_code};

    ghost Value = { StoreValue };

    ghost coded = { store_code };

    ghost use Rattle.table_store.specs.Inside.{view_of, IsSound};

    ghost view = { view_of };

    ghost invariant = { IsSound };
}

impl TableStore {
    /// The store whose nodes these are, with nothing done with it yet. The host is asked nothing.
    ///
    /// `Damaged` names the file of the nodes, exactly where some node isn't of its form. Each other stop is want of memory.
    /// Time goes with the number of nodes times its logarithm, memory with the number of tables. This project's own.
    pub fn over(alloc: Global, nodes: NodeStore) -> Result<TableStore, Stop>
        requires { nodes.name ≡ nodes_name }
        ensures fresh { IfOk result IsFresh }
        ensures nodes { IfOk result (λ store. store.nodes ≡ nodes) }
        ensures reading { IfOk result (λ store. IsReading nodes.nodes store.tables) }
        ensures stops { IfErr result (λ stop. ReadStops stop nodes.nodes) }
    {
        let Some((by_name, next)) = read_tables(alloc, &nodes)? else {
            return Err(Stop::Damaged(nodes_name(alloc)?));
        };
        Ok(TableStore {
            alloc,
            nodes,
            by_name,
            next,
            entries: Vec::new(alloc),
            committed: 0,
            stop: None,
        })
    }

    /// The tables, a text `NAME ID` for each, in byte order of the names. Time goes with their number.
    pub fn table_texts(&self) -> Result<Texts, AllocError>
        ensures { IfOk result (λ texts. texts ≡ table_texts self.now.tables) }
    {
        self.by_name.texts(self.alloc)
    }

    /// Hands back the history, and the entry whose commit a fault fell into. Takes no memory.
    pub fn finish(self) -> (Entries, Option<Entry>)
        ensures history { result.0 ≡ self.history }
        ensures doubt { option_to_list result.1 ≡ self.doubt }
    {
        let mut entries = self.entries;
        let doubt = if self.committed < entries.len() {
            entries.pop()
        } else {
            None
        };
        (ListOf::from_vec(entries), doubt)
    }
}
