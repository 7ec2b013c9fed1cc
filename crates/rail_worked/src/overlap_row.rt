//! The row of an overlap that the next move of its train takes over.

ghost use Rattle.std.specs.Prelude.{◌≡◌, ◌≤◌, ◌+◌, IsTrue, false, length};
ghost use Rattle.rail_rules.specs.Accepted.{is_accepted_input};
ghost use Rattle.rail_rules.specs.Fronts.{lines_beside_holds};
ghost use Rattle.rail_rules.specs.LineCounts.{taken_over};
ghost use Rattle.rail_rules.specs.Lawful.{is_complete};
ghost use Rattle.rail_rules.specs.Plant.{bound};
ghost use Rattle.rail_rules.specs.RunHistories.{is_run, is_run_history};
ghost use Rattle.rail_rules.specs.Texts.{text};
ghost use Rattle.rail_worked.specs.Overlap.{plant, seats, input, front, printed, changed, dropped, doubled};

/// A train takes over a section of its overlap, and another one waits for it.
pub fn an_overlap_taken_over()
    ensures accepted { IsTrue (is_accepted_input input) }
    ensures lawful { IsTrue (is_complete input front) }
    ensures run { IsTrue (is_run_history input seats front) }
    ensures bounded { lines_beside_holds front + taken_over plant front ≡ bound plant (length input.commands) }
    ensures text { text plant front ≡ printed }
    ensures changed { is_complete input changed ≡ false }
    ensures dropped { is_complete input dropped ≡ false }
    ensures doubled { is_complete input doubled ≡ false }
{}
