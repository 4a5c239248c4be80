// Maps from names of one form.
ghost use Rattle.std.specs.Prelude.{◌≡◌, OnOk, OnErr};
ghost use Rattle.std.specs.FinMap as map;
ghost use Rattle.std.specs.Option.{option_copied};

use row_keys::{Form, Spelled};
use std::alloc::{AllocError, Global};
use std::collections::BTreeMap;
use std::marker::Model;

/// A map from names of one form, as paths or the names of logs. Contracts see it as a finite map from their bytes.
#[derive(Debug, Drop)]
pub struct NameMap<F: Form, V> {
    entries: BTreeMap<Spelled<F>, V>,
}

impl<F: Form, V> Model for NameMap<F, V> {
    ghost use Rattle.std.specs.Ordering.{nat_cmp};
    ghost use Rattle.std.specs.Cmp.Lexicographic.{slice_cmp};
    ghost use Rattle.std.specs.FinMap as map;
    ghost use Rattle.std.specs.Coded.{coded_ℕ, coded_list};

    ghost Value = { map.FinMap (slice_cmp nat_cmp) V };

    ghost coded = { map.code (coded_list coded_ℕ) V.code };

    ghost view = { λ m. map.from_entries m.entries.entries };
}

impl<F: Form, V: Drop> NameMap<F, V> {
    /// No entries. Takes no memory.
    pub fn new(alloc: Global) -> Self
        ensures { result ≡ map.empty }
    {
        NameMap {
            entries: BTreeMap::new(alloc),
        }
    }

    /// What the name has, if anything. Takes time with the logarithm of the entries.
    pub fn get(&self, name: &Spelled<F>) -> Option<&V>
        ensures { option_copied result ≡ map.get self.now name.now }
    {
        self.entries.get(name)
    }

    /// What the name of these bytes has, if anything; nothing where they are no name. Takes time with the entries.
    pub fn get_bytes(&self, name: &[u8]) -> Option<&V>
        ensures { option_copied result ≡ map.get self.now name.now }
    {
        for (key, value) in self.entries.iter() {
            if key.as_bytes() == name {
                return Some(value);
            }
        }
        None
    }

    /// Gives the name this value. At want of memory the map is as it was.
    pub fn insert(&mut self, name: Spelled<F>, value: V) -> Result<(), AllocError>
        ensures ok { OnOk result (self.new ≡ map.insert self.old name value) }
        ensures err { OnErr result (self.new ≡ self.old) }
    {
        self.entries.insert(name, value)?;
        Ok(())
    }
}
