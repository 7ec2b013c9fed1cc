//! A scene and its plant.

ghost use Rattle.std.specs.Prelude.{◌≡◌, true, false, None, IfOk, IfErr, OnOk};
ghost use Rattle.rail_base.specs.Refusals.{AnswersFirst};
ghost use Rattle.rail_rules.specs.Accepted.{is_accepted};
ghost use Rattle.rail_scene.specs.Scenes.{IsScene};
ghost use Rattle.rail_scene.specs.SpelledScenes.{spelled_scene};
ghost use Rattle.rail_input.specs.Inputs.{plant_in, plant_refusal, refuses_file};

use rail_base::Fault;
use rail_compile::compile;
use rail_plan::Plant;
use rail_scene::{Scene, read_scene};
use std::alloc::Global;

/// The scene that the bytes spell, and its plant, which has no calls.
#[derive(Drop)]
pub struct Planned {
    pub scene: Scene,
    pub plant: Plant,
}

/// Reads a scene and compiles it.
///
/// It is refused as the scene is, and where the scene is not refused, as its plant is.
pub fn read_plant(alloc: Global, bytes: &[u8]) -> Result<Planned, Fault>
    ensures accepted { OnOk result (plant_refusal bytes.now ≡ None) }
    ensures scene { IfOk result (λ planned. planned.scene ≡ spelled_scene bytes.now) }
    ensures kept { IfOk result (λ planned. IsScene planned.scene) }
    ensures plant { IfOk result (λ planned. planned.plant ≡ plant_in bytes.now) }
    ensures valid { OnOk result (is_accepted (plant_in bytes.now) ≡ true) }
    ensures refused { IfErr result (AnswersFirst (plant_refusal bytes.now)) }
    ensures of_bytes { IfErr result (λ fault. refuses_file fault ≡ false) }
{
    let scene = read_scene(alloc, bytes)?;
    let plant = compile(alloc, &scene)?;
    Ok(Planned { scene, plant })
}
