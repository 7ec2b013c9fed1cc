//! The names of the items of a scene file, whatever else is wrong in it.
ghost use Rattle.std.specs.Prelude.{◌≡◌, ◌∷◌, [], IfErr, IfOk, map, option_map};
ghost use Rattle.toml.specs.View.{view};
ghost use Rattle.rail_base.specs.FirstRefusals.{first_failing};
ghost use Rattle.rail_base.specs.Refusals.{AnswersFirst};
ghost use Rattle.rail_scene.specs.ItemNames.{item_at, item_name, item_table};
ghost use Rattle.rail_scene.specs.Order.{toml_test};
ghost use Rattle.rail_scene.specs.SpelledScenes.{root_of};

use crate::fields::{elements_at, name_at};
use crate::keys::{NAME, list_in};
use crate::reading::read_root;
use rail_base::{Fault, Name, Part};
use std::alloc::Global;
use toml::Value;

/// The name that an item of a part gives, by the number of the item, which counts from 1. `None` where the file has no
/// such item, or it gives no name. Bytes that are no TOML are refused.
pub fn item_name(alloc: Global, bytes: &[u8], part: Part, item: u32) -> Result<Option<Name>, Fault>
    ensures name { IfOk result (λ name. name ≡ item_name part item (root_of bytes.now)) }
    ensures refused { IfErr result (AnswersFirst (first_failing (toml_test bytes.now ∷ []))) }
{
    let root = read_root(alloc, bytes)?;
    Ok(name_in_root(&root, part, item))
}

/// The name that an item of a root gives.
fn name_in_root(root: &Value, part: Part, item: u32) -> Option<Name>
    ensures { result ≡ item_name part item (view root.now) }
{
    name_at(item_table(root, part, item)?, NAME)
}

/// The table of an item of a root, by the number of the item, which counts from 1. `None` where the part is none of items,
/// or has fewer.
pub fn item_table(root: &Value, part: Part, item: u32) -> Option<&Value>
    ensures { option_map (λ v. view v.now) result ≡ item_table part item (view root.now) }
{
    let list = list_in(part)?;
    item_at(elements_at(root, list.key()), item)
}

/// The value of this number, counted from 1.
fn item_at(values: &[Value], item: u32) -> Option<&Value>
    ensures { option_map (λ v. view v.now) result ≡ item_at item (map view values.now) }
{
    if item == 0 {
        return None;
    }
    values.get(item as usize - 1)
}
