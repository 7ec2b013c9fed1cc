//! The order of the lines of commands.

ghost use Rattle.std.specs.Prelude.{IsTrue};
ghost use Rattle.rail_rules.specs.LineCounts.{is_command, lines_that};
ghost use Rattle.rail_laws_events.specs.CommandOrder.{AreFirst};
ghost use Rattle.rail_rules.specs.Accepted.{is_accepted_input};
ghost use Rattle.rail_rules.specs.Fronts.{Front};
ghost use Rattle.rail_rules.specs.Lawful.{is_lawful};
ghost use Rattle.rail_rules.specs.Orders.{Input};

/// The lines of commands come in the order of the commands: as many as stand are those of the first.
pub fn commands_come_in_order()
    ensures { (input : Input) → IsTrue (is_accepted_input input) → (front : Front) → IsTrue (is_lawful input front)
        → AreFirst input front (lines_that is_command front) }
{}
