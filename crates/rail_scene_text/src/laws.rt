//! The law of the scenes that are written.

ghost use Rattle.std.specs.Prelude.{◌≡◌, ℕ, List, Some, None};
ghost use Rattle.std.specs.Str.{IsUtf8};
ghost use Rattle.toml.specs.Parse.{parse_document};
ghost use Rattle.rail_routes.specs.SoundNetworks.{IsSoundNetwork};
ghost use Rattle.rail_scene.specs.Order.{scene_refusal};
ghost use Rattle.rail_scene.specs.Scenes.{IsScene};
ghost use Rattle.rail_scene.specs.SpelledScenes.{spelled_scene};
ghost use Rattle.rail_scene.specs.declared.scene.Scene.{Scene};
ghost use Rattle.rail_scene_text.specs.Tables.{scene_members};
ghost use Rattle.rail_scene_text.specs.FieldTypes.{IsTyped};

use rail_base::a_text_stands_for_one_time;

/// Every scene has a text: whatever TOML text has the table of a scene is accepted, and spells the scene. So a scene that was
/// read, written and read again is the same, and so is one that an editor put together.
pub fn a_text_with_the_table_of_a_scene_is_read_as_the_scene()
    ensures accepted { (scene : Scene) (text : List ℕ) → IsScene scene → IsTyped scene → IsSoundNetwork scene.network
        → IsUtf8 text → parse_document text ≡ Some (scene_members scene) → scene_refusal text ≡ None }
    ensures same { (scene : Scene) (text : List ℕ) → IsScene scene → IsTyped scene → IsSoundNetwork scene.network
        → IsUtf8 text → parse_document text ≡ Some (scene_members scene) → spelled_scene text ≡ scene }
{
    a_text_stands_for_one_time();
}
