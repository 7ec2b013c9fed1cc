//! The row of the analysis: without a free leg no list completes, and with one a list does.

ghost use Rattle.std.specs.Prelude.{◌≡◌, IsTrue, false};
ghost use Rattle.rail_rules.specs.Analysis.{finds};
ghost use Rattle.rail_rules.specs.Plant.{moves_of};
ghost use Rattle.rail_worked.specs.FreeLeg.{plant, state};

/// The only legal leg is free: without free legs no list of legs brings every train to its exit, with
/// one there is such a list.
pub fn a_free_leg_is_needed()
    ensures without { finds (moves_of plant) 0 state ≡ false }
    ensures with_one { IsTrue (finds (moves_of plant) 1 state) }
{}
