// The plain store.
ghost use Rattle.std.specs.Prelude.{◌≡◌, None, MatchResult};
ghost use Rattle.std.specs.FinMap as map;
ghost use Rattle.plain_model.specs.declared.stop.PlainStop.TheVariants.{NoTable};
ghost use Rattle.plain_model.specs.State.{nothing};
ghost use Rattle.plain_model.specs.Apply.{apply, has_name};
ghost use Rattle.plain_model.specs.Applies.{Applies};
ghost use Rattle.plain_model.specs.Listed.{listed, table_item, staged_item};
ghost use Rattle.plain_model.specs.Places.{IsFound};

use crate::edits;
use crate::index::last_pairs;
use crate::operation::{Op, Pair, Pairs};
use crate::points::points_in_order;
use crate::stop::PlainStop;
use crate::tables::{
    PlainStaged, PlainTable, copy_table, insert_staged, is_name_used, place_of_staged,
    place_of_table, put_table,
};
use row_keys::{Key, Row, Rows, StagedName, StagedNames, TableId, TableName};
use std::alloc::Global;
use std::marker::Model;

/// The plain state, kept in order in memory. Contracts see it as a plain state.
#[derive(Debug, Drop)]
pub struct PlainStore {
    alloc: Global,
    tables: Vec<PlainTable>,
    staged: Vec<PlainStaged>,
}

impl Model for PlainStore {
    ghost use Rattle.plain_model.specs.State.{PlainState, state_code};

    ghost Value = { PlainState };

    ghost coded = { state_code };

    ghost use Rattle.plain_model.specs.Inside.{view_of, IsInOrder};

    ghost view = { view_of };

    ghost invariant = { IsInOrder };
}

impl PlainStore {
    /// No tables and no staged files. Takes no memory.
    pub fn new(alloc: Global) -> PlainStore
        ensures { result ≡ nothing }
    {
        PlainStore {
            alloc,
            tables: Vec::new(alloc),
            staged: Vec::new(alloc),
        }
    }

    /// Does the operation, or refuses it and changes nothing: the outcome is `apply`'s by definition. `NoMemory` comes at want of
    /// memory alone, never where the operation is refused, and changes nothing.
    ///
    /// Takes memory for what the operation adds, for the pairs of the table and of the files at `Import`, and for the whole table
    /// at `Clone`. Takes time with the logarithm of the number of tables, files and pairs, and beside it: with the number of
    /// tables where a name is new; with the number of points and pairs that it adds, reads through (`Merge`, `DeleteRows`) or
    /// copies, where it sorts times the logarithm; and one move of each item that stands behind a new or removed one.
    pub fn apply(&mut self, op: &Op) -> Result<(), PlainStop>
        ensures { Applies (apply op.now self.old) self.old result self.new }
    {
        match op {
            Op::Create { id, name, splits } => self.create(id, name, splits),
            Op::Delete { id } => self.delete(id),
            Op::Rename { id, name } => self.rename(id, name),
            Op::Split { id, at } => self.split(id, at),
            Op::Merge { id, from, to } => self.merge(id, from, to),
            Op::DeleteRows { id, from, to } => self.delete_rows(id, from, to),
            Op::Import { id, names } => self.import(id, names),
            Op::Clone { id, new_id, name } => self.clone_table(id, new_id, name),
            Op::Insert { id, pair } => self.insert(id, pair),
            Op::Remove { id, key } => self.remove(id, key),
            Op::Stage { name, pairs } => self.stage(name, pairs),
        }
    }

    /// The tables, in byte order of their ids. Takes no memory.
    pub fn tables(&self) -> &[PlainTable]
        ensures { result.now ≡ listed table_item self.now.tables }
    {
        &self.tables
    }

    /// The staged files, in byte order of their names. Takes no memory.
    pub fn staged(&self) -> &[PlainStaged]
        ensures { result.now ≡ listed staged_item self.now.staged }
    {
        &self.staged
    }

    /// Where the table of this id stands.
    fn place(&self, id: &TableId) -> Result<usize, PlainStop>
        ensures { MatchResult result (IsFound table_item self.now.tables id.now) (λ stop. (stop ≡ NoTable) × (map.get self.now.tables id.now ≡ None)) }
    {
        match place_of_table(&self.tables, id) {
            Ok(place) => Ok(place),
            Err(_) => Err(PlainStop::NoTable),
        }
    }

    fn has_name(&self, name: &TableName) -> bool
        ensures { result ≡ has_name name.now self.now }
    {
        is_name_used(&self.tables, name)
    }

    fn create(&mut self, id: &TableId, name: &TableName, splits: &Rows) -> Result<(), PlainStop>
        ensures { Applies (apply (Op.Create id.now name.now splits.now) self.old) self.old result self.new }
    {
        if self.has_name(name) {
            return Err(PlainStop::Exists);
        }
        let table = PlainTable {
            id: id.copy(self.alloc)?,
            name: name.copy(self.alloc)?,
            splits: points_in_order(self.alloc, splits.as_slice())?,
            pairs: Pairs::new(self.alloc),
        };
        Ok(put_table(&mut self.tables, table)?)
    }

    fn delete(&mut self, id: &TableId) -> Result<(), PlainStop>
        ensures { Applies (apply (Op.Delete id.now) self.old) self.old result self.new }
    {
        let place = self.place(id)?;
        self.tables.remove(place);
        Ok(())
    }

    fn rename(&mut self, id: &TableId, name: &TableName) -> Result<(), PlainStop>
        ensures { Applies (apply (Op.Rename id.now name.now) self.old) self.old result self.new }
    {
        let place = self.place(id)?;
        if self.has_name(name) {
            return Err(PlainStop::Exists);
        }
        edits::rename(self.alloc, &mut self.tables[place], name)
    }

    fn split(&mut self, id: &TableId, at: &Row) -> Result<(), PlainStop>
        ensures { Applies (apply (Op.Split id.now at.now) self.old) self.old result self.new }
    {
        let place = self.place(id)?;
        edits::split(self.alloc, &mut self.tables[place], at)
    }

    fn merge(&mut self, id: &TableId, from: &Option<Row>, to: &Option<Row>) -> Result<(), PlainStop>
        ensures { Applies (apply (Op.Merge id.now from.now to.now) self.old) self.old result self.new }
    {
        let place = self.place(id)?;
        edits::merge(
            self.alloc,
            &mut self.tables[place],
            from.as_ref(),
            to.as_ref(),
        )
    }

    fn delete_rows(
        &mut self,
        id: &TableId,
        from: &Option<Row>,
        to: &Option<Row>,
    ) -> Result<(), PlainStop>
        ensures { Applies (apply (Op.DeleteRows id.now from.now to.now) self.old) self.old result self.new }
    {
        let place = self.place(id)?;
        edits::delete_rows(
            self.alloc,
            &mut self.tables[place],
            from.as_ref(),
            to.as_ref(),
        )
    }

    fn import(&mut self, id: &TableId, names: &StagedNames) -> Result<(), PlainStop>
        ensures { Applies (apply (Op.Import id.now names.now) self.old) self.old result self.new }
    {
        let place = self.place(id)?;
        edits::import(
            self.alloc,
            &mut self.tables[place],
            &self.staged,
            names.as_slice(),
        )
    }

    fn clone_table(
        &mut self,
        id: &TableId,
        new_id: &TableId,
        name: &TableName,
    ) -> Result<(), PlainStop>
        ensures { Applies (apply (Op.Clone id.now new_id.now name.now) self.old) self.old result self.new }
    {
        let place = self.place(id)?;
        if self.has_name(name) {
            return Err(PlainStop::Exists);
        }
        let copy = copy_table(self.alloc, &self.tables[place], new_id, name)?;
        Ok(put_table(&mut self.tables, copy)?)
    }

    fn insert(&mut self, id: &TableId, pair: &Pair) -> Result<(), PlainStop>
        ensures { Applies (apply (Op.Insert id.now pair.now) self.old) self.old result self.new }
    {
        let place = self.place(id)?;
        edits::insert(self.alloc, &mut self.tables[place], pair)
    }

    fn remove(&mut self, id: &TableId, key: &Key) -> Result<(), PlainStop>
        ensures { Applies (apply (Op.Remove id.now key.now) self.old) self.old result self.new }
    {
        let place = self.place(id)?;
        edits::remove(self.alloc, &mut self.tables[place], key)
    }

    fn stage(&mut self, name: &StagedName, pairs: &Pairs) -> Result<(), PlainStop>
        ensures { Applies (apply (Op.Stage name.now pairs.now) self.old) self.old result self.new }
    {
        match place_of_staged(&self.staged, name) {
            Ok(_) => Err(PlainStop::Exists),
            Err(place) => {
                let file = PlainStaged {
                    name: name.copy(self.alloc)?,
                    pairs: last_pairs(self.alloc, pairs.as_slice())?,
                };
                Ok(insert_staged(&mut self.staged, place, file)?)
            }
        }
    }
}
