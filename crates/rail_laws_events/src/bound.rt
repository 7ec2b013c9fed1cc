//! How many lines a history has at most.

ghost use Rattle.std.specs.Prelude.{ℕ, ◌≤◌, IsTrue, length};
ghost use Rattle.rail_rules.specs.LineCounts.{holds_train, lines_that};
ghost use Rattle.rail_rules.specs.Fronts.{Front, lines_beside_holds};
ghost use Rattle.rail_rules.specs.Lawful.{is_lawful};
ghost use Rattle.rail_rules.specs.Orders.{Input};
ghost use Rattle.rail_rules.specs.Plant.{bound};
ghost use Rattle.rail_laws_front.specs.Premises.{IsWellFormed};

/// A lawful front has at most as many lines as the bound says, hold lines aside.
pub fn a_history_has_at_most_so_many_lines()
    ensures { (input : Input) → IsWellFormed input.plant → (front : Front)
        → IsTrue (is_lawful input front)
        → lines_beside_holds front ≤ bound input.plant (length input.commands) }
{}

/// A lawful front has at most so many hold lines for each train.
pub fn a_train_has_at_most_so_many_hold_lines()
    ensures { (input : Input) → IsWellFormed input.plant → (t : ℕ) → (front : Front)
        → IsTrue (is_lawful input front)
        → lines_that (holds_train t) front ≤ bound input.plant (length input.commands) }
{}
