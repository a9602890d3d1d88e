//! Ordered maps: a `BTreeMap`, seen by contracts as what stands under which name.
//! Wrong bodies: `must-fail-more/`.
ghost use Rattle.std.specs.Prelude.{◌≡◌, OnOk, OnErr};
ghost use Rattle.std.specs.Option.{option_copied};
ghost use Rattle.std.specs.FinMap as map;
ghost use Rattle.std.specs.Coded.{coded_list, coded_ℕ};
ghost use Rattle.values.specs.Name.{name_cmp, named_rows, changed_at};

use crate::edit::Edit;
use crate::memory_fault::MemoryFault;
use crate::ord_key::OrdKey;
use crate::try_clone::TryClone;
use std::alloc::Global;
use std::collections::BTreeMap;
use std::collections::btree_map::Iter;
use std::marker::Model;

/// Values under keys, in the keys' order, seen by contracts as the map of the values under the
/// keys' names.
#[derive(Drop)]
pub struct OrdMap<K: OrdKey, V> {
    rows: BTreeMap<K, V>,
}

impl<K: OrdKey, V> Model for OrdMap<K, V> {
    ghost Value = { map.FinMap name_cmp V };

    ghost coded = { map.code (coded_list coded_ℕ) V.code };

    ghost view = { λ table. map.from_entries (named_rows K.name table.rows.entries) };
}

impl<K: OrdKey, V> OrdMap<K, V> {
    /// Makes an empty map.
    pub fn new(alloc: Global) -> OrdMap<K, V>
        ensures { result ≡ map.empty }
    {
        OrdMap {
            rows: BTreeMap::new(alloc),
        }
    }

    /// Counts the keys.
    #[tactic(auto, using(crate::proofs::Rows::len_row))]
    pub fn len(&self) -> usize
        ensures { result ≡ map.len self.now }
    {
        self.rows.len()
    }

    /// Finds the value of a key.
    #[tactic(auto, using(crate::proofs::Rows::get_row))]
    pub fn get(&self, key: &K) -> Option<&V>
        ensures { option_copied result ≡ map.get self.now (K.name key.now) }
    {
        self.rows.get(key)
    }

    /// Returns whether a key is there.
    #[tactic(auto, using(crate::proofs::Rows::get_row))]
    pub fn contains(&self, key: &K) -> bool
        ensures { result ≡ map.contains_key self.now (K.name key.now) }
    {
        self.rows.contains_key(key)
    }

    /// Returns the keys with their values, in the keys' order.
    #[tactic(auto, using(crate::proofs::Rows::entries_row))]
    pub fn iter(&self) -> Iter<'_, K, V>
        ensures { named_rows K.name result ≡ map.entries self.now }
    {
        self.rows.iter()
    }

    /// Changes the value of a key in its place, if the key is there.
    #[tactic(auto, using(crate::proofs::Rows::changed_row, crate::proofs::Rows::unchanged_row))]
    pub fn edit<E: Edit<V>>(&mut self, key: &K, edit: E)
        ensures { self.new ≡ changed_at self.old (K.name key.now) (E.edited edit) }
    {
        if let Some(value) = self.rows.get_mut(key) {
            edit.edit(value);
        }
    }
}

impl<K: OrdKey + Drop, V: Drop> OrdMap<K, V> {
    /// Gives a key this value, whether the key is there or new.
    #[tactic(auto, using(crate::proofs::Rows::put_row))]
    pub fn insert(&mut self, key: K, value: V) -> Result<(), MemoryFault>
        ensures ok { OnOk result (self.new ≡ map.insert self.old (K.name key) value) }
        ensures err { OnErr result (self.new ≡ self.old) }
    {
        let _before = self.rows.insert(key, value)?;
        Ok(())
    }

    /// Takes a key out, with its value.
    #[tactic(auto, using(crate::proofs::Rows::drop_row))]
    pub fn remove(&mut self, key: &K)
        ensures { self.new ≡ map.remove self.old (K.name key.now) }
    {
        let _before = self.rows.remove(key);
    }
}

impl<K: OrdKey + TryClone, V: TryClone> TryClone for OrdMap<K, V> {
    #[tactic(auto, using(crate::proofs::Rows::all_entries))]
    fn try_clone(&self, alloc: Global) -> Result<OrdMap<K, V>, MemoryFault> {
        let mut copy = OrdMap::new(alloc);
        for (key, value) in self.iter() {
            copy.insert(key.try_clone(alloc)?, value.try_clone(alloc)?)?;
        }
        Ok(copy)
    }
}
