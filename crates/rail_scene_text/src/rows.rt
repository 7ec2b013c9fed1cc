//! The tables of a worked scene, on which the definitions are evaluated.

ghost use Rattle.std.specs.Prelude.{◌≡◌, [], Some};
ghost use Rattle.rail_scene.specs.declared.keys.KeyName.TheVariants as word;
ghost use Rattle.rail_scene.specs.Entries.{route_of, signal_of, train_of};
ghost use Rattle.rail_scene.specs.Keys.{text_of};
ghost use Rattle.rail_scene.specs.declared.versions.Version.TheVariants.{Two};
ghost use Rattle.rail_scene.specs.SpelledScenes.{scene_of};
ghost use Rattle.rail_scene_text.specs.Rows.{root, route, scene, signal, train, without};
ghost use Rattle.rail_scene_text.specs.Tables.{post_data, route_data, train_data};

/// The table of a scene spells the scene. Without its depth or its overlap time it spells another one, which has the default.
/// So does the table of a train without its priority, that of a route without its overlap, and that of a signal without the
/// section ahead of it.
pub fn a_table_without_a_key_spells_something_else()
    ensures whole { scene_of Two root ≡ scene }
    ensures overlap_time { scene_of Two (without (text_of word.OverlapTime) root) ≡ record scene { overlap_time = 0 } }
    ensures depth { scene_of Two (without (text_of word.Depth) root) ≡ record scene { depth = 1 } }
    ensures priority { (train_of (train_data train)).priority ≡ 3 }
    ensures no_priority { (train_of (without (text_of word.Priority) (train_data train))).priority ≡ 0 }
    ensures overlap { route_of Two (route_data route) ≡ route }
    ensures no_overlap { route_of Two (without (text_of word.Overlap) (route_data route)) ≡ record route { overlap = [] } }
    ensures ahead { signal_of (post_data signal) ≡ signal }
    ensures no_ahead { signal_of (without (text_of word.Ahead) (post_data signal)) ≡ record signal { ahead = Some [] } }
{}
