//! The four ways in which a line follows a front, and what the laws ask of a plant.

ghost use Rattle.std.specs.Prelude.{IsTrue};
ghost use Rattle.rail_rules.specs.Accepted.{is_accepted};
ghost use Rattle.rail_rules.specs.Fronts.{Front, Line};
ghost use Rattle.rail_rules.specs.Lawful.{may_follow};
ghost use Rattle.rail_rules.specs.Orders.{Input};
ghost use Rattle.rail_rules.specs.Plant.{Plant};
ghost use Rattle.rail_laws_front.specs.Premises.{IsWellFormed};
ghost use Rattle.rail_laws_front.specs.Views.{Follows};

/// A line that may follow a front does so as an event, an admission, a hold or the end, each with its
/// own facts.
pub fn a_line_follows_in_one_of_four_ways()
    ensures { (input : Input) (front : Front) (line : Line)
        → IsTrue (may_follow input front line) → Follows input front line }
{}

/// A plant that may be run has all that the laws of lawful histories ask of a plant.
pub fn an_accepted_plant_is_well_formed()
    ensures { (plant : Plant) → IsTrue (is_accepted plant) → IsWellFormed plant }
{}
