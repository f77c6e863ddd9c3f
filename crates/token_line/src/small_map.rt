//! Key-value pairs with unique keys: a list while they are few, a map when they are many.
ghost use Rattle.std.specs.Prelude.{◌≡◌, ◌<◌, ◌≤◌, ◌==◌, ◌++◌, ◌∷◌, ◌↔◌, [], IfSome, IsTrue, None, OnErr, OnOk, Some, if◌then◌else◌, length, position, slice_get};
ghost use Rattle.std.specs.Borrow.{sem};
ghost use Rattle.std.specs.List.{IsDistinct, swap_remove};
ghost use Rattle.std.specs.Map.{keys_of, lookup, values_of};
ghost use Rattle.std.specs.Option.{option_copied};
ghost use Rattle.indexmap.specs.IndexMap.{set_value_at, spare};

use indexmap::IndexMap;
use ops_base::memory::OutOfMemory;
use std::alloc::Global;
use std::hash::Hash;
use std::marker::Model;
use std::mem;

/// At most this many pairs are kept as a list, if the caller gives no other number.
const FEW_PAIRS: usize = 8;

// The map is boxed, since most maps stay small and never need one.
#[derive(Drop)]
enum Room<K: Eq + Hash, V> {
    Few(Vec<(K, V)>),
    Many(Box<IndexMap<K, V>>),
}

/// Key-value pairs. Contracts see them as the list of these pairs.
#[derive(Drop)]
pub(crate) struct SmallMap<K: Eq + Hash, V> {
    room: Room<K, V>,
}

impl<K: Eq + Hash, V> Model for SmallMap<K, V> {
    ghost use Rattle.std.specs.Prelude.{List};

    ghost Value = { List (K × V) };

    ghost use Rattle.std.specs.List.{IsDistinct};
    ghost use Rattle.std.specs.Map.{keys_of};
    ghost use Rattle.token_line.specs.inner.SmallMap.{pairs_in};

    ghost view = { λ c. pairs_in c.room };

    ghost invariant = { λ c. IsDistinct K.eq (keys_of (pairs_in c.room)) };
}

/// The place of a key in a list.
fn place_in<K: Eq, V>(list: &[(K, V)], key: &K) -> Option<usize>
    ensures { result ≡ position (λ e. K.eq key.now e.0) list.now }
{
    list.iter().position(|pair| *key == pair.0)
}

/// Moves the pairs of a list into a map that has room for them.
fn fill<K: Eq + Hash + Drop, V: Drop>(map: &mut IndexMap<K, V>, list: Vec<(K, V)>)
    requires empty { map.old.entries ≡ [] }
    requires room { length list.items ≤ spare map.old }
    requires apart { IsDistinct K.eq (keys_of list.items) }
    ensures { map.new.entries ≡ list.items }
{
    let mut rest = list.into_iter();
    while let Some((key, value)) = rest.next() {
        let _none = map.insert(key, value);
    }
}

impl<K: Eq + Hash, V> Room<K, V> {
    ghost use Rattle.token_line.specs.inner.SmallMap.{pairs_in};
    ghost use Rattle.token_line.specs.inner.SmallMapLends.{room_lends};

    fn len(&self) -> usize
        ensures { result ≡ length (pairs_in self.now) }
    {
        match self {
            Room::Few(list) => list.len(),
            Room::Many(map) => map.len(),
        }
    }

    fn pair(&self, place: usize) -> (&K, &V)
        requires { place < length (pairs_in self.now) }
        ensures { slice_get (pairs_in self.now) place ≡ Some (result.0.now, result.1.now) }
    {
        match self {
            Room::Few(list) => {
                let pair = &list[place];
                (&pair.0, &pair.1)
            }
            Room::Many(map) => map.get_index(place).unwrap(),
        }
    }

    #[inline(always)]
    fn find(&self, key: &K) -> Option<usize>
        ensures { result ≡ position (K.eq key.now) (keys_of (pairs_in self.now)) }
    {
        match self {
            Room::Few(list) => place_in(list.as_slice(), key),
            Room::Many(map) => map.get_index_of(key),
        }
    }

    fn value_mut(&mut self, place: usize) -> &mut V
        requires { place < length (pairs_in self.old) }
        ensures* writes_back { sem 𝓛 (room_lends K.row V.row K.Hash self.entry place result) }
        ensures value { slice_get (values_of (pairs_in self.old)) place ≡ Some result.now }
    {
        match self {
            Room::Few(list) => {
                let pair = &mut list[place];
                &mut pair.1
            }
            Room::Many(map) => &mut map[place],
        }
    }
}

impl<K: Eq + Hash + Drop, V: Drop> Room<K, V> {
    ghost use Rattle.token_line.specs.inner.SmallMap.{pairs_in};

    /// Removes the pair at a place; the last pair moves there.
    fn remove(&mut self, place: usize)
        requires { place < length (pairs_in self.old) }
        ensures { IfSome (slice_get (pairs_in self.old) place) (λ e. pairs_in self.new ≡ swap_remove (pairs_in self.old) place e) }
    {
        match self {
            Room::Few(list) => {
                list.swap_remove(place);
            }
            Room::Many(map) => {
                map.swap_remove_index(place);
                if map.is_empty() {
                    let alloc = *map.allocator();
                    *self = Room::Few(Vec::new(alloc));
                }
            }
        }
    }

    /// Turns a list of at least `few` pairs into a map. If memory runs out, nothing has changed.
    fn widen(&mut self, alloc: Global, few: usize) -> Result<(), OutOfMemory>
        requires { IsDistinct K.eq (keys_of (pairs_in self.old)) }
        ensures { pairs_in self.new ≡ pairs_in self.old }
    {
        if let Room::Few(list) = self
            && list.len() >= few
        {
            let map = IndexMap::with_capacity(alloc, 2 * list.len())?;
            let mut map = Box::new(alloc, map)?;
            fill(&mut map, mem::replace(list, Vec::new(alloc)));
            *self = Room::Many(map);
        }
        Ok(())
    }

    /// Reserves room in a list for this many more pairs.
    fn reserve(&mut self, more: usize) -> Result<(), OutOfMemory>
        ensures { pairs_in self.new ≡ pairs_in self.old }
    {
        if let Room::Few(list) = self {
            list.reserve_exact(more)?;
        }
        Ok(())
    }

    /// Appends a new pair. For the first pair it takes room for one: most maps never have another.
    fn push(&mut self, key: K, value: V) -> Result<(), OutOfMemory>
        requires { lookup (K.eq key) (pairs_in self.old) ≡ None }
        ensures ok { OnOk result (pairs_in self.new ≡ pairs_in self.old ++ (key, value) ∷ []) }
        ensures err { OnErr result (pairs_in self.new ≡ pairs_in self.old) }
    {
        match self {
            Room::Few(list) => {
                if list.is_empty() {
                    list.reserve_exact(1)?;
                }
                list.push((key, value))?;
            }
            Room::Many(map) => {
                map.insert(key, value)?;
            }
        }
        Ok(())
    }
}

impl<K: Eq + Hash, V> SmallMap<K, V> {
    ghost use Rattle.token_line.specs.inner.SmallMapLends.{map_lends};

    /// No pairs. Takes no memory.
    pub(crate) fn new(alloc: Global) -> SmallMap<K, V>
        ensures { result ≡ [] }
    {
        SmallMap {
            room: Room::Few(Vec::new(alloc)),
        }
    }

    /// How many pairs there are. Takes no memory.
    pub(crate) fn len(&self) -> usize
        ensures len { result ≡ length self.now }
        ensures apart { IsDistinct K.eq (keys_of self.now) }
    {
        self.room.len()
    }

    /// Whether there are none. Takes no memory.
    pub(crate) fn is_empty(&self) -> bool
        ensures { IsTrue result ↔ (self.now ≡ []) }
    {
        self.len() == 0
    }

    /// The pair at a place. Takes no memory.
    pub(crate) fn pair(&self, place: usize) -> (&K, &V)
        requires { place < length self.now }
        ensures { slice_get self.now place ≡ Some (result.0.now, result.1.now) }
    {
        self.room.pair(place)
    }

    /// The place of a key. It scans the keys if they are few, and hashes the key if they are many. Takes no memory.
    #[inline(always)]
    pub(crate) fn find(&self, key: &K) -> Option<usize>
        ensures { result ≡ position (K.eq key.now) (keys_of self.now) }
    {
        self.room.find(key)
    }

    /// The value of a key, or none if it is not there, at the cost of `find`. Takes no memory.
    pub(crate) fn get(&self, key: &K) -> Option<&V>
        ensures { option_copied result ≡ lookup (K.eq key.now) self.now }
    {
        match self.find(key) {
            Some(place) => Some(self.pair(place).1),
            None => None,
        }
    }

    /// The value at a place, to be changed. Takes no memory.
    pub(crate) fn value_mut(&mut self, place: usize) -> &mut V
        requires { place < length self.old }
        ensures* writes_back { sem 𝓛 (map_lends K.row V.row K.Hash self.entry place result) }
        ensures value { slice_get (values_of self.old) place ≡ Some result.now }
    {
        self.room.value_mut(place)
    }
}

impl<K: Eq + Hash + Drop, V: Drop> SmallMap<K, V> {
    /// Removes the pair at a place; the last pair moves there. Takes no memory.
    pub(crate) fn remove(&mut self, place: usize)
        requires { place < length self.old }
        ensures pairs { IfSome (slice_get self.old place) (λ e. self.new ≡ swap_remove self.old place e) }
        ensures values { IfSome (slice_get self.old place) (λ e. (k : K) → lookup (K.eq k) self.new ≡ (if K.eq k e.0 then None else lookup (K.eq k) self.old)) }
    {
        self.room.remove(place);
    }

    /// Reserves room for this many more pairs, if the pairs are few. If memory runs out, nothing has changed.
    pub(crate) fn reserve(&mut self, more: usize) -> Result<(), OutOfMemory>
        ensures { self.new ≡ self.old }
    {
        self.room.reserve(more)
    }

    /// Appends a new pair. The ninth turns the list into a map. If memory runs out, nothing has changed.
    pub(crate) fn push(&mut self, alloc: Global, key: K, value: V) -> Result<(), OutOfMemory>
        requires { lookup (K.eq key) self.old ≡ None }
        ensures ok { OnOk result (self.new ≡ self.old ++ (key, value) ∷ []) }
        ensures err { OnErr result (self.new ≡ self.old) }
    {
        self.push_within(alloc, FEW_PAIRS, key, value)
    }

    /// The same, except that at most `few` pairs are kept as a list.
    pub(crate) fn push_within(
        &mut self,
        alloc: Global,
        few: usize,
        key: K,
        value: V,
    ) -> Result<(), OutOfMemory>
        requires { lookup (K.eq key) self.old ≡ None }
        ensures ok { OnOk result (self.new ≡ self.old ++ (key, value) ∷ []) }
        ensures err { OnErr result (self.new ≡ self.old) }
    {
        self.room.widen(alloc, few)?;
        self.room.push(key, value)
    }
}
