//! Tallies: how often each key is counted.

ghost use Rattle.std.specs.Prelude.{◌≡◌, ◌+◌, ◌<◌, ◌≤◌, ◌^◌, [], ◌∷◌, length, map, count_by};
ghost use Rattle.indexmap.specs.IndexMap.{spare};
ghost use Rattle.rail_track.specs.KeyCounts.{times};

use crate::roll::Keyed;
use indexmap::IndexMap;
use std::hash::Hash;

/// How often each key was counted. A key that was discounted as often has no entry.
pub type Tally<K> = IndexMap<K, u32>;

/// How often the key is counted.
pub fn times<K: Eq + Hash>(tally: &Tally<K>, key: &K) -> u32
    ensures { result ≡ times K.eq tally.now key.now }
{
    tally.get(key).copied().unwrap_or(0)
}

/// Counts the key of each of the items once more. There is room for them, so it takes no memory.
pub fn count_each<K: Eq + Hash + Drop, T: Keyed<K>>(tally: &mut Tally<K>, items: &[T])
    requires room { length items.now ≤ spare tally.old }
    requires fits { (key : K) → times K.eq tally.old key + count_by (K.eq key) (map T.key_of items.now) < 2 ^ 32 }
    ensures counted { (key : K) →
        times K.eq tally.new key ≡ times K.eq tally.old key + count_by (K.eq key) (map T.key_of items.now) }
    ensures spare { spare tally.old ≤ spare tally.new + length items.now }
{
    for item in items {
        count(tally, item.key());
    }
}

/// Counts the key of each of the items once less.
pub fn discount_each<K: Eq + Hash + Drop, T: Keyed<K>>(tally: &mut Tally<K>, items: &[T])
    requires counted { (key : K) → count_by (K.eq key) (map T.key_of items.now) ≤ times K.eq tally.old key }
    ensures discounted { (key : K) →
        times K.eq tally.new key + count_by (K.eq key) (map T.key_of items.now) ≡ times K.eq tally.old key }
{
    for item in items {
        discount(tally, item.key());
    }
}

/// Counts the key once more. There is room for it, so it takes no memory.
pub fn count<K: Eq + Hash + Drop>(tally: &mut Tally<K>, key: K)
    requires room { 0 < spare tally.old }
    requires fits { times K.eq tally.old key + 1 < 2 ^ 32 }
    ensures counted { (other : K) → times K.eq tally.new other ≡ times K.eq tally.old other + count_by (K.eq other) (key ∷ []) }
    ensures spare { spare tally.old ≤ spare tally.new + 1 }
{
    match tally.get_mut(&key) {
        Some(times) => *times += 1,
        None => {
            tally.insert(key, 1).unwrap();
        }
    }
}

/// Counts the key once less.
pub fn discount<K: Eq + Hash + Drop>(tally: &mut Tally<K>, key: K)
    requires counted { 0 < times K.eq tally.old key }
    ensures discounted { (other : K) → times K.eq tally.new other + count_by (K.eq other) (key ∷ []) ≡ times K.eq tally.old other }
{
    match times(tally, &key) {
        1 => {
            tally.swap_remove(&key);
        }
        now => {
            tally.insert(key, now - 1).unwrap();
        }
    }
}
