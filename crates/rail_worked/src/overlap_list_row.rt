//! The row of a list with a move that is not legal because of its overlap.

ghost use Rattle.std.specs.Prelude.{◌≡◌, ◌∷◌, [], IsTrue, false};
ghost use Rattle.rail_rules.specs.Places.{completes, is_legal};
ghost use Rattle.rail_rules.specs.Plant.{moves_of};
ghost use Rattle.rail_worked.specs.OverlapList.{plant, state};

/// A move is legal where nobody holds a section that it claims, also beyond the end of its route: the first train's next
/// route ends before the section on which the second one stands, and its overlap has it.
pub fn a_list_over_claims()
    ensures held { is_legal (moves_of plant) state 0 ≡ false }
    ensures first { completes (moves_of plant) state (0 ∷ 1 ∷ 0 ∷ 1 ∷ []) ≡ false }
    ensures second { IsTrue (completes (moves_of plant) state (1 ∷ 0 ∷ 1 ∷ 0 ∷ [])) }
{}
