//! How large the times of a history get.

ghost use Rattle.std.specs.Prelude.{◌<◌, ◌^◌, ◌∷◌, IsTrue};
ghost use Rattle.rail_rules.specs.Accepted.{is_accepted_input};
ghost use Rattle.rail_rules.specs.Fronts.{Front, Line};
ghost use Rattle.rail_rules.specs.Lawful.{is_lawful};
ghost use Rattle.rail_rules.specs.Orders.{Input};

/// Every time in a lawful front of an input that may be run is below 2^50 tenths of a second.
pub fn times_stay_below_a_limit()
    ensures { (input : Input) → IsTrue (is_accepted_input input) → (line : Line) (front : Front)
        → IsTrue (is_lawful input (line ∷ front)) → line.entry.at < 2 ^ 50 }
{}
