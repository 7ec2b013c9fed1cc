//! The values of a table by its keys, found in one walk over its members.
ghost use Rattle.std.specs.Prelude.{◌≡◌, ◌≤◌, IsTrue, length, map, option_map, position, take};
ghost use Rattle.toml.specs.Data.{table as as_data};
ghost use Rattle.toml.specs.View.{table_view, view};
ghost use Rattle.rail_base.specs.Lists.{are_distinct};
ghost use Rattle.rail_base.specs.NameForms.{same_name};
ghost use Rattle.rail_scene.specs.declared.keys.Key.{Key};
ghost use Rattle.rail_scene.specs.declared.members.TheConstants.{ITEM_KEYS};
ghost use Rattle.rail_scene.specs.Fields.{value_at};
ghost use Rattle.rail_scene.specs.Forms.{have_one_text};
ghost use Rattle.rail_scene.specs.Keys.{text_of};

use crate::keys::Key;
use toml::{Table, Value};

/// The most keys of an item.
pub(crate) const ITEM_KEYS: usize = 6;

/// The values of the keys, in the order of the keys. `order` has the indices of the keys as their texts are ordered, as
/// members stand in a table: so each member is compared with one key, as a rule.
pub(crate) fn values_of<'a>(
    table: &'a Value,
    keys: &[Key],
    order: &[usize],
) -> [Option<&'a Value>; ITEM_KEYS]
    requires few { length keys.now ≤ ITEM_KEYS }
    requires distinct { IsTrue (are_distinct have_one_text keys.now) }
    ensures { take (length keys.now) (map (option_map (λ v. view v.now)) result) ≡ map (λ key. value_at key (view table.now)) keys.now }
{
    match table.as_table() {
        Some(table) => values_in(table, keys, order),
        None => [None; ITEM_KEYS],
    }
}

/// The values of the keys in the members of a table.
fn values_in<'a>(table: &'a Table, keys: &[Key], order: &[usize]) -> [Option<&'a Value>; ITEM_KEYS]
    requires few { length keys.now ≤ ITEM_KEYS }
    requires distinct { IsTrue (are_distinct have_one_text keys.now) }
    ensures { take (length keys.now) (map (option_map (λ v. view v.now)) result)
        ≡ map (λ key. value_at key (as_data (table_view table.now))) keys.now }
{
    let mut values = [None; ITEM_KEYS];
    for (place, (text, value)) in table.iter().enumerate() {
        let Some(index) = key_index(keys, order, place, text.as_str()) else {
            continue;
        };
        if values[index].is_none() {
            values[index] = Some(value);
        }
    }
    values
}

/// The index of the key that the text is. The key that the order has at the place is looked at first.
#[inline(always)]
pub(crate) fn key_index(keys: &[Key], order: &[usize], place: usize, text: &str) -> Option<usize>
    requires distinct { IsTrue (are_distinct have_one_text keys.now) }
    ensures { result ≡ position (λ (key : Key). same_name (text_of key.name) text.now) keys.now }
{
    if place < order.len() {
        let index = order[place];
        if index < keys.len() && keys[index].name.text() == text {
            return Some(index);
        }
    }
    searched_index(keys, text)
}

/// The index of the key that the text is, sought from the first key on.
#[inline(never)]
fn searched_index(keys: &[Key], text: &str) -> Option<usize>
    ensures { result ≡ position (λ (key : Key). same_name (text_of key.name) text.now) keys.now }
{
    keys.iter().position(|key| key.name.text() == text)
}
