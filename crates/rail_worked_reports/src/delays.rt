//! Reports of worked histories.

ghost use Rattle.std.specs.Prelude.{◌≡◌};
ghost use Rattle.rail_worked_reports.specs.Delays as printed;
ghost use Rattle.rail_delay.specs.Reports.{report_text};
ghost use Rattle.rail_worked.specs.Cancelled as cancelled;
ghost use Rattle.rail_worked.specs.ClosedSection as closed;
ghost use Rattle.rail_worked.specs.DeadlockAvoided as avoided;

/// A train is held for want of a list, and then by a blocked section.
pub fn a_report_of_a_deadlock_avoided()
    ensures { report_text avoided.plant avoided.input.commands avoided.front ≡ printed.deadlock_avoided }
{}

/// A train is held by a closed section to the end of the history.
pub fn a_report_of_a_closed_section()
    ensures { report_text closed.plant closed.input.commands closed.front ≡ printed.closed_section }
{}

/// A train is cancelled before it is ready.
pub fn a_report_of_a_cancelled_train()
    ensures { report_text cancelled.plant cancelled.input.commands cancelled.front ≡ printed.cancelled }
{}
