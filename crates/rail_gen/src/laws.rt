//! Laws of made-up scenes.

ghost use Rattle.std.specs.Prelude.{◌≡◌, ℕ, None, IsTrue};
ghost use Rattle.rail_scene.specs.Scenes.{IsScene};
ghost use Rattle.rail_compile.specs.Refusals.{compile_refusal};
ghost use Rattle.rail_gen.specs.AcceptedNetworks.{is_accepted_in_order};
ghost use Rattle.rail_gen.specs.MadeScenes.{made_scene};

/// Whatever the number, its scene keeps the limits and ranges of a scene, its network is accepted item by item, and it is
/// accepted when it is compiled: each train is known, goes from portal to portal, is no longer than where it stands, and
/// never stands in its own way.
#[tactic(auto, using(crate::proofs::Made::made_is_scene, crate::proofs::Made::made_accepted, crate::proofs::Made::made_compiled))]
pub fn a_made_up_scene_is_accepted()
    ensures scene { (number : ℕ) → IsScene (made_scene number) }
    ensures network { (number : ℕ) → IsTrue (is_accepted_in_order (made_scene number).network) }
    ensures compiled { (number : ℕ) → compile_refusal (made_scene number) ≡ None }
{}
