//! Rolls: items in order, each of them found by its key.

ghost use Rattle.std.specs.Prelude.{◌≡◌, ◌≤◌, false, List, [], ◌∷◌, ◌++◌, length, insert, map, position, IsTrue, OnOk, OnErr, OnSome, IfErr, IfNone};
ghost use Rattle.std.specs.List.{find, list_any};
ghost use Rattle.std.specs.Option.{option_copied};
ghost use Rattle.rail_track.specs.Lists.{without};

use indexmap::IndexSet;
use std::alloc::{AllocError, AllocFailed, Global};
use std::hash::Hash;
use std::marker::Model;

/// An item that is found by a key of its own.
pub trait Keyed<K> {
    ghost key_of: { Self → K };

    /// The key of the item.
    fn key(&self) -> K
        ensures { result ≡ key_of self.now };
}

/// Items in order, each found by its key, of which no two are equal. Contracts see it as the list of
/// the items.
pub struct Roll<K: Eq + Hash, T: Keyed<K>> {
    items: Vec<T>,
    keys: IndexSet<K>,
}

/// Written out, so that it is proved once, and not at each place where a roll is let go.
impl<K: Eq + Hash + Drop, T: Keyed<K> + Drop> Drop for Roll<K, T> {
    fn drop(self) {
        let Roll { items: _, keys: _ } = self;
    }
}

impl<K: Eq + Hash, T: Keyed<K>> Model for Roll<K, T> {
    ghost use Rattle.std.specs.Prelude.{◌≡◌, List, map};

    ghost Value = { List T };

    ghost view = { λ roll. roll.items.items };

    ghost invariant = { λ roll. roll.keys.keys ≡ map T.key_of roll.items.items };
}

impl<K: Eq + Hash + Drop, T: Keyed<K> + Drop> Roll<K, T> {
    /// A roll without items, which takes no memory.
    pub fn new(alloc: Global) -> Roll<K, T>
        ensures { result ≡ [] }
    {
        Roll {
            items: Vec::new(alloc),
            keys: IndexSet::new(alloc),
        }
    }

    /// The items in order.
    pub fn as_slice(&self) -> &[T]
        ensures { result.now ≡ self.now }
    {
        self.items.as_slice()
    }

    /// The items in order. It takes no memory.
    pub fn into_vec(self) -> Vec<T>
        ensures { result.items ≡ self }
    {
        let Roll { items, keys: _ } = self;
        items
    }

    /// Whether an item has the key.
    pub fn contains(&self, key: &K) -> bool
        ensures { result ≡ list_any (λ item. K.eq key.now (T.key_of item)) self.now }
    {
        self.keys.contains(key)
    }

    /// The item with the key.
    pub fn get(&self, key: &K) -> Option<&T>
        ensures { option_copied result ≡ find (λ item. K.eq key.now (T.key_of item)) self.now }
    {
        // Where there is no item, the key is not hashed.
        if self.items.is_empty() {
            return None;
        }
        let index = self.keys.get_index_of(key)?;
        Some(&self.items[index])
    }

    /// The index of the item with the key, from 0.
    pub fn index_of(&self, key: &K) -> Option<usize>
        ensures { result ≡ position (λ item. K.eq key.now (T.key_of item)) self.now }
    {
        self.keys.get_index_of(key)
    }

    /// Makes room for so many more items at once. It fails only for want of memory.
    pub fn reserve(&mut self, additional: usize) -> Result<(), AllocError>
        ensures { self.new ≡ self.old }
    {
        self.items.reserve(additional)?;
        self.keys.reserve(additional)
    }

    /// Adds an item last. It fails only for want of memory, and then drops the item.
    pub fn push(&mut self, item: T) -> Result<(), AllocError>
        requires { list_any (λ other. K.eq (T.key_of item) (T.key_of other)) self.old ≡ false }
        ensures ok { OnOk result (self.new ≡ self.old ++ item ∷ []) }
        ensures err { OnErr result (self.new ≡ self.old) }
    {
        self.items.reserve(1)?;
        self.keys.insert(item.key())?;
        self.items.push_reserved(item);
        Ok(())
    }

    /// Puts an item in at the index, from 0. It fails only for want of memory, and then gives the item back.
    pub fn insert(&mut self, index: usize, item: T) -> Result<(), AllocFailed<T>>
        requires within { index ≤ length self.old }
        requires fresh { list_any (λ other. K.eq (T.key_of item) (T.key_of other)) self.old ≡ false }
        ensures ok { OnOk result (self.new ≡ insert self.old index item) }
        ensures err { OnErr result (self.new ≡ self.old) }
        ensures returned { IfErr result (λ refused. refused.value ≡ item) }
    {
        if self.items.reserve(1).is_err() {
            return Err(AllocFailed { value: item });
        }
        if self.keys.shift_insert(index, item.key()).is_err() {
            return Err(AllocFailed { value: item });
        }
        self.items.insert(index, item)
    }

    /// Takes the item with the key out. The others keep their order. It takes no memory.
    pub fn remove(&mut self, key: &K) -> Option<T>
        ensures item { result ≡ find (λ item. K.eq key.now (T.key_of item)) self.old }
        ensures rest { self.new ≡ without (λ item. K.eq key.now (T.key_of item)) self.old }
    {
        let (index, _) = self.keys.shift_remove_full(key)?;
        Some(self.items.remove(index))
    }
}
