//! `edit SCENE EDITS`: the scene after the edits, as a text.

ghost use Rattle.std.specs.Prelude.{◌≡◌, ◌-◌, ◌<◌, ◌^◌, ◌∷◌, [], Some, length, true};
ghost use Rattle.rail_io.specs.Writes.{Adds, AddsPrefix};
ghost use Rattle.rail_edit_file.specs.EditedScenes.{edited_scene, edited_scene_refusal};
ghost use Rattle.rail_command_line.specs.Files.{file_as};
ghost use Rattle.rail_command_line.specs.declared.files.FileRole.TheVariants as role;
ghost use Rattle.rail_forms.specs.Answers.{IsAnswer};
ghost use Rattle.rail_forms.specs.Edits.{AnswersEdit};
ghost use Rattle.rail_forms.specs.Promises.{KeepsPromise, WritesAnswer, ended, is_of_bytes};
ghost use Rattle.rail_forms.specs.SceneTexts.{WritesScene};

use crate::files::read_file;
use crate::scene::write_text;
use crate::status::Status;
use rail_command_line::FileRole;
use rail_edit_file::edit_scene;
use rail_io::{Shelf, Sink};
use std::alloc::Global;

/// Writes a text that is read as the scene after the edits, in the files of these names.
pub fn answer<S: Shelf, O: Sink>(
    alloc: Global,
    scene: &str,
    edits: &str,
    shelf: &mut S,
    out: &mut O,
) -> Result<(), Status>
    ensures kept { KeepsPromise S.Shelf O.Sink
        (file_as role.Scene (Some scene.now) ∷ file_as role.Edits (Some edits.now) ∷ [])
        shelf.old shelf.new out.old out.new (ended result) }
    ensures answer { AnswersEdit scene.now edits.now (S.told shelf.old) (O.written out.old) (O.written out.new) (ended result) }
{
    let scene = read_file(alloc, shelf, scene, FileRole::Scene)?;
    let edits = read_file(alloc, shelf, edits, FileRole::Edits)?;
    write_edited(alloc, &scene, &edits, out)
}

/// Writes a text that is read as the scene that the bytes spell, after the edits.
fn write_edited<O: Sink>(
    alloc: Global,
    scene: &[u8],
    edits: &[u8],
    out: &mut O,
) -> Result<(), Status>
    requires { length edits.now < 2 ^ 32 - 1 }
    ensures answer { IsAnswer (edited_scene_refusal scene.now edits.now)
        (WritesScene (edited_scene scene.now edits.now) (Adds (O.written out.old) (O.written out.new)))
        (WritesScene (edited_scene scene.now edits.now) (AddsPrefix (O.written out.old) (O.written out.new))) (ended result) }
    ensures writes { WritesAnswer O.Sink out.old out.new (ended result) }
    ensures of_bytes { is_of_bytes (ended result) ≡ true }
{
    let after = edit_scene(alloc, scene, edits)?;
    write_text(alloc, &after, out)
}
