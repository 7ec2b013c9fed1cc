//! Laws of what a scene file spells.

ghost use Rattle.std.specs.Prelude.{◌≡◌, ◌≤◌, ◌*◌, ◌+◌, ℕ, List, length};
ghost use Rattle.rail_base.specs.Limits.{most, FileBytes};
ghost use Rattle.rail_scene.specs.declared.keys.ListPart.{ListPart};
ghost use Rattle.rail_scene.specs.Fields.{elements_at};
ghost use Rattle.rail_scene.specs.Keys.{list_key};
ghost use Rattle.rail_scene.specs.Order.{item_number};
ghost use Rattle.rail_scene.specs.SpelledScenes.{root_of};

/// A refusal tells the number of an item as it is: in a file within the limit of a file's size no list has as many
/// tables as a number of 32 bits can count.
pub fn the_number_of_an_item_is_told_as_it_is()
    ensures { (bytes : List ℕ) → length bytes ≤ most FileBytes → (part : ListPart) → (n : ℕ)
        → n ≤ length (elements_at (list_key part) (root_of bytes)) → item_number n ≡ n }
{}
