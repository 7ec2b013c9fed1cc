//! The row of two trains that pass at a loop.

ghost use Rattle.std.specs.Prelude.{◌≡◌, ◌≤◌, IsTrue, false, length};
ghost use Rattle.rail_rules.specs.Fronts.{lines_beside_holds};
ghost use Rattle.rail_rules.specs.Lawful.{is_complete};
ghost use Rattle.rail_rules.specs.Plant.{bound};
ghost use Rattle.rail_rules.specs.RunHistories.{is_run, is_run_history};
ghost use Rattle.rail_rules.specs.Texts.{text};
ghost use Rattle.rail_worked.specs.Loop.{plant, seats, input, front, printed, changed, dropped, doubled, with_fresh};

/// Two trains pass at a loop.
pub fn two_trains_pass_at_a_loop()
    ensures lawful { IsTrue (is_complete input front) }
    ensures run { IsTrue (is_run_history input seats front) }
    ensures bounded { lines_beside_holds front ≡ bound plant (length input.commands) }
    ensures text { text plant front ≡ printed }
    ensures changed { is_complete input changed ≡ false }
    ensures dropped { is_complete input dropped ≡ false }
    ensures doubled { is_complete input doubled ≡ false }
    ensures fresh_lawful { IsTrue (is_complete input with_fresh) }
    ensures fresh_no_run { is_run_history input seats with_fresh ≡ false }
{}
