// The ids of tables by their names.
ghost use Rattle.std.specs.Prelude.{◌≡◌, ◌∷◌, ◌++◌, IfOk, OnOk, OnErr, map as mapped};
ghost use Rattle.std.specs.FinMap as map;
ghost use Rattle.table_store.specs.Tables.{text_of, texts_of};

use row_keys::{Octets, TableId, TableName, Texts};
use std::alloc::{AllocError, Global};
use std::collections::BTreeMap;
use std::marker::Model;

/// The id of each table, by its name. Contracts see it as a finite map.
#[derive(Debug, Drop)]
pub struct TableIndex {
    entries: BTreeMap<TableName, TableId>,
}

impl Model for TableIndex {
    ghost use Rattle.std.specs.Coded.{coded_ℕ, coded_list};
    ghost use Rattle.std.specs.FinMap as map;
    ghost use Rattle.table_store.specs.Tables.{ByName};

    ghost Value = { ByName };

    ghost coded = { map.code (coded_list coded_ℕ) (coded_list coded_ℕ) };

    ghost view = { λ index. map.from_entries index.entries.entries };
}

impl TableIndex {
    /// No tables. Takes no memory.
    pub fn new(alloc: Global) -> Self
        ensures { result ≡ map.empty }
    {
        TableIndex {
            entries: BTreeMap::new(alloc),
        }
    }

    /// Whether a table has this name. Time goes with the logarithm of the number of tables.
    pub fn contains(&self, name: &TableName) -> bool
        ensures { result ≡ map.contains_key self.now name.now }
    {
        self.entries.contains_key(name)
    }

    /// Adds a table. At want of memory the index is as it was. Time goes with the logarithm of the number of tables.
    pub fn insert(&mut self, name: TableName, id: TableId) -> Result<(), AllocError>
        ensures ok { OnOk result (self.new ≡ map.insert self.old name id) }
        ensures err { OnErr result (self.new ≡ self.old) }
    {
        self.entries.insert(name, id)?;
        Ok(())
    }

    /// A text `NAME ID` for each table, in byte order of the names. Time goes with the number of tables.
    pub fn texts(&self, alloc: Global) -> Result<Texts, AllocError>
        ensures { IfOk result (λ texts. texts ≡ texts_of (map.entries self.now)) }
    {
        let mut texts = Texts::new(alloc);
        for (name, id) in &self.entries {
            texts.push(text_of(alloc, name.as_bytes(), id.as_bytes())?)?;
        }
        Ok(texts)
    }
}

fn text_of(alloc: Global, name: &[u8], id: &[u8]) -> Result<Octets, AllocError>
    ensures { IfOk result (λ text. text ≡ text_of name.now id.now) }
{
    let mut text = name.to_vec(alloc)?;
    text.push(b' ')?;
    text.extend_from_slice(id)?;
    Ok(Octets::from_vec(text))
}
