//! A law of the times that are carried, as the contract of a function without code.

ghost use Rattle.std.specs.Prelude.{◌≡◌, ℕ, ◌≤◌, ◌++◌, List, length};
ghost use Rattle.rail_rules.specs.Plant.{Plant};
ghost use Rattle.rail_block.specs.CarriedTimes.{times_at};

/// What is admitted later changes no times of a place that was reached before.
pub fn later_admissions_change_no_earlier_times()
    ensures { (plant : Plant) (t : ℕ) (adms more : List ℕ) (place : ℕ) → place ≤ length adms
        → times_at plant t (adms ++ more) place ≡ times_at plant t adms place }
{}
