//! Lists of numbers, each found by its key.
ghost use Rattle.std.specs.Prelude.{◌≡◌, [], OnOk};
ghost use Rattle.net_base.specs.Lists.{AddsItem, list_at};

use ops_base::memory::OutOfMemory;
use std::alloc::Global;
use std::collections::HashMap;
use std::hash::Hash;

/// A list under each key, empty where nothing was added to it.
#[derive(Drop)]
pub(crate) struct Lists<K: Eq + Hash> {
    lists: HashMap<K, Vec<usize>>,
}

impl<K: Eq + Hash + Copy + Drop> Lists<K> {
    /// No lists. Takes no memory.
    pub(crate) fn new(alloc: Global) -> Lists<K>
        ensures { (key : K) → list_at K.eq result key ≡ [] }
    {
        Lists {
            lists: HashMap::new(alloc),
        }
    }

    /// The list under this key. It makes one lookup.
    pub(crate) fn at(&self, key: K) -> &[usize]
        ensures { result.now ≡ list_at K.eq self.now key }
    {
        match self.lists.get(&key) {
            Some(list) => list.as_slice(),
            None => &[],
        }
    }

    /// Appends a number to the list under this key.
    pub(crate) fn add(&mut self, alloc: Global, key: K, item: usize) -> Result<(), OutOfMemory>
        ensures { OnOk result (AddsItem K.eq self.old self.new key item) }
    {
        let mut list = match self.lists.remove(&key) {
            Some(list) => list,
            None => Vec::new(alloc),
        };
        list.push(item)?;
        self.lists.insert(key, list)?;
        Ok(())
    }
}
