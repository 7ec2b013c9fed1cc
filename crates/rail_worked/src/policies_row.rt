//! The row of policies that are exchanged and retired.

ghost use Rattle.std.specs.Prelude.{◌≡◌, ◌≤◌, IsTrue, false, length};
ghost use Rattle.rail_rules.specs.Fronts.{lines_beside_holds};
ghost use Rattle.rail_rules.specs.Lawful.{is_complete};
ghost use Rattle.rail_rules.specs.Plant.{bound};
ghost use Rattle.rail_rules.specs.RunHistories.{is_run, is_run_history};
ghost use Rattle.rail_rules.specs.Texts.{text};
ghost use Rattle.rail_worked.specs.Policies.{plant, seats, input, front, printed};

/// A policy is exchanged, and one that is in force is not retired.
pub fn policies_exchanged_and_retired()
    ensures run { IsTrue (is_run input seats front) }
    ensures text { text plant front ≡ printed }
{}
