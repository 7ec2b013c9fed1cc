//! `migrate SCENE`: the scene in the newest version of the format, as a text.

ghost use Rattle.std.specs.Prelude.{◌≡◌, ◌∷◌, [], Some, true};
ghost use Rattle.rail_io.specs.Writes.{Adds, AddsPrefix};
ghost use Rattle.rail_input.specs.Inputs.{plant_refusal};
ghost use Rattle.rail_command_line.specs.Files.{file_as};
ghost use Rattle.rail_command_line.specs.declared.files.FileRole.TheVariants as role;
ghost use Rattle.rail_forms.specs.Answers.{IsAnswer};
ghost use Rattle.rail_forms.specs.Migration.{AnswersMigrate, Migrates};
ghost use Rattle.rail_forms.specs.Promises.{KeepsPromise, WritesAnswer, ended, is_of_bytes};

use crate::files::read_file;
use crate::scene::write_text;
use crate::status::Status;
use rail_command_line::FileRole;
use rail_input::read_plant;
use rail_io::{Shelf, Sink};
use std::alloc::Global;

/// Writes a text that is read as the scene in the file of this name.
pub fn answer<S: Shelf, O: Sink>(
    alloc: Global,
    scene: &str,
    shelf: &mut S,
    out: &mut O,
) -> Result<(), Status>
    ensures kept { KeepsPromise S.Shelf O.Sink (file_as role.Scene (Some scene.now) ∷ []) shelf.old shelf.new out.old out.new (ended result) }
    ensures answer { AnswersMigrate scene.now (S.told shelf.old) (O.written out.old) (O.written out.new) (ended result) }
{
    let scene = read_file(alloc, shelf, scene, FileRole::Scene)?;
    write_migrated(alloc, &scene, out)
}

/// Writes a text that is read as the scene that the bytes spell.
fn write_migrated<O: Sink>(alloc: Global, bytes: &[u8], out: &mut O) -> Result<(), Status>
    ensures answer { IsAnswer (plant_refusal bytes.now)
        (Migrates bytes.now (Adds (O.written out.old) (O.written out.new)))
        (Migrates bytes.now (AddsPrefix (O.written out.old) (O.written out.new))) (ended result) }
    ensures writes { WritesAnswer O.Sink out.old out.new (ended result) }
    ensures of_bytes { is_of_bytes (ended result) ≡ true }
{
    let planned = read_plant(alloc, bytes)?;
    write_text(alloc, &planned.scene, out)
}
