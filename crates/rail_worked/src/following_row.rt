//! The row of a train that follows another one.

ghost use Rattle.std.specs.Prelude.{◌≡◌, ◌≤◌, IsTrue, false, length};
ghost use Rattle.rail_rules.specs.Fronts.{lines_beside_holds};
ghost use Rattle.rail_rules.specs.Lawful.{is_complete};
ghost use Rattle.rail_rules.specs.Plant.{bound};
ghost use Rattle.rail_rules.specs.RunHistories.{is_run, is_run_history};
ghost use Rattle.rail_rules.specs.Texts.{text};
ghost use Rattle.rail_worked.specs.Following.{plant, seats, input, front, printed, changed, dropped, doubled};

/// A train follows another one into each section as soon as that is free.
pub fn a_train_follows_another()
    ensures lawful { IsTrue (is_complete input front) }
    ensures run { IsTrue (is_run_history input seats front) }
    ensures bounded { lines_beside_holds front ≡ bound plant (length input.commands) }
    ensures text { text plant front ≡ printed }
    ensures changed { is_complete input changed ≡ false }
    ensures dropped { is_complete input dropped ≡ false }
    ensures doubled { is_complete input doubled ≡ false }
{}
