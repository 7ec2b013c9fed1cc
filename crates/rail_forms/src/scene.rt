//! `scene NUMBER`: the made-up scene of the number, as a text.

ghost use Rattle.std.specs.Prelude.{◌≡◌, None, true};
ghost use Rattle.rail_io.specs.Writes.{Adds, AddsPrefix};
ghost use Rattle.rail_scene.specs.Scenes.{IsScene};
ghost use Rattle.rail_forms.specs.Answers.{IsAnswer};
ghost use Rattle.rail_forms.specs.Promises.{WritesAnswer, ended, is_of_bytes};
ghost use Rattle.rail_forms.specs.SceneTexts.{AnswersScene, WritesScene};

use crate::status::Status;
use rail_gen::scene_of;
use rail_io::{Sink, write_whole};
use rail_scene::Scene;
use rail_scene_text::write_scene;
use std::alloc::Global;

/// Writes a text that is read as the made-up scene of the number.
pub fn answer<O: Sink>(alloc: Global, number: u64, out: &mut O) -> Result<(), Status>
    ensures answer { AnswersScene number (O.written out.old) (O.written out.new) (ended result) }
    ensures writes { WritesAnswer O.Sink out.old out.new (ended result) }
    ensures of_bytes { is_of_bytes (ended result) ≡ true }
{
    let scene = scene_of(alloc, number)?;
    write_text(alloc, &scene, out)
}

/// Writes a text that is read as the scene. All memory is taken before the first byte.
pub(crate) fn write_text<O: Sink>(alloc: Global, scene: &Scene, out: &mut O) -> Result<(), Status>
    requires { IsScene scene.now }
    ensures answer { IsAnswer None (WritesScene scene.now (Adds (O.written out.old) (O.written out.new)))
        (WritesScene scene.now (AddsPrefix (O.written out.old) (O.written out.new))) (ended result) }
    ensures writes { WritesAnswer O.Sink out.old out.new (ended result) }
    ensures of_bytes { is_of_bytes (ended result) ≡ true }
{
    let text = write_scene(alloc, scene)?;
    write_whole(out, &text)?;
    Ok(())
}
