//! A scene after the edits of a file.

ghost use Rattle.std.specs.Prelude.{◌≡◌, ◌-◌, ◌<◌, ◌^◌, false, length, None, IfOk, IfErr, OnOk};
ghost use Rattle.rail_base.specs.Refusals.{AnswersFirst};
ghost use Rattle.rail_input.specs.Inputs.{refuses_file};
ghost use Rattle.rail_scene.specs.Scenes.{IsScene};
ghost use Rattle.rail_edit_file.specs.EditFiles.{edits_refusal};
ghost use Rattle.rail_edit_file.specs.EditedScenes.{edited_scene, edited_scene_refusal, with_edits};

use crate::making::edit_network;
use rail_base::Fault;
use rail_compile::compile;
use rail_input::{Planned, read_plant};
use rail_routes::Network;
use rail_scene::Scene;
use std::alloc::Global;
use std::mem;

/// The scene that a scene file spells, after the edits of an edit file.
///
/// It is refused by the first of these that holds: as `read_plant` refuses the scene; as `edit_network`
/// refuses the edits of its network; as `compile` refuses the scene after them.
pub fn edit_scene(alloc: Global, scene: &[u8], edits: &[u8]) -> Result<Scene, Fault>
    requires short { length edits.now < 2 ^ 32 - 1 }
    ensures accepted { OnOk result (edited_scene_refusal scene.now edits.now ≡ None) }
    ensures edited { IfOk result (λ after. after ≡ edited_scene scene.now edits.now) }
    ensures kept { IfOk result IsScene }
    ensures refused { IfErr result (AnswersFirst (edited_scene_refusal scene.now edits.now)) }
    ensures of_bytes { IfErr result (λ fault. refuses_file fault ≡ false) }
{
    let Planned {
        scene,
        plant: _plant,
    } = read_plant(alloc, scene)?;
    let scene = edited(alloc, scene, edits)?;
    let _plant = compile(alloc, &scene)?;
    Ok(scene)
}

/// The scene with the network after the edits.
fn edited(alloc: Global, mut scene: Scene, edits: &[u8]) -> Result<Scene, Fault>
    requires short { length edits.now < 2 ^ 32 - 1 }
    requires kept { IsScene scene }
    ensures accepted { OnOk result (edits_refusal scene.network edits.now ≡ None) }
    ensures edited { IfOk result (λ after. after ≡ with_edits scene edits.now) }
    ensures kept { IfOk result IsScene }
    ensures refused { IfErr result (AnswersFirst (edits_refusal scene.network edits.now)) }
{
    // An empty network stands in for the one that is edited, which takes no memory.
    let network = mem::replace(&mut scene.network, Network::new(alloc));
    scene.network = edit_network(alloc, network, edits)?;
    Ok(scene)
}
