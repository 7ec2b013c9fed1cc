//! Due lines are told apart by time, class and number.

ghost use Rattle.std.specs.Prelude.{ℕ, ◌≤◌, IsTrue, List};
ghost use Rattle.rail_laws_events.specs.Accounts.{tally};
ghost use Rattle.rail_rules.specs.Events.{due_lines};
ghost use Rattle.rail_rules.specs.Fronts.{Front, rank};
ghost use Rattle.rail_rules.specs.Lawful.{is_lawful};
ghost use Rattle.rail_rules.specs.Numbers.{same_numbers};
ghost use Rattle.rail_rules.specs.Orders.{Input};
ghost use Rattle.rail_laws_front.specs.Premises.{IsWellFormed};

/// Due lines are distinct: of the lines due in a lawful front, one at most has a given time, class and
/// number.
pub fn due_lines_are_distinct()
    ensures { (input : Input) → IsWellFormed input.plant → (front : Front)
        → IsTrue (is_lawful input front) → (given : List ℕ)
        → tally (λ d. same_numbers (rank d) given) (due_lines input front) ≤ 1 }
{}
