//! The lines of a history can be written, and their numbers are within the limits.

ghost use Rattle.std.specs.Prelude.{◌∷◌, ◌≤◌, IsTrue};
ghost use Rattle.rail_base.specs.Limits.{most, FreshLines};
ghost use Rattle.rail_laws_text.specs.LimitedLines.{is_limited_what};
ghost use Rattle.rail_rules.specs.Accepted.{is_accepted_input};
ghost use Rattle.rail_rules.specs.Fronts.{Front, Line, is_admission};
ghost use Rattle.rail_rules.specs.Lawful.{is_lawful};
ghost use Rattle.rail_rules.specs.LineCounts.{lines_that};
ghost use Rattle.rail_rules.specs.Orders.{Input};
ghost use Rattle.rail_rules.specs.WritableLines.{is_writable};

/// In a lawful front of an input that may be run each line can be written: the trains and sections that it
/// names, those of a fresh list and of an end line too, are those of the plant, and its numbers fit a 64-bit
/// counter.
pub fn a_line_of_a_history_can_be_written()
    ensures { (input : Input) → IsTrue (is_accepted_input input) → (line : Line) (front : Front)
        → IsTrue (is_lawful input (line ∷ front)) → IsTrue (is_writable input.plant line) }
{}

/// In a lawful front of an input that may be run the numbers of each line are within the limits: no move has a greater
/// number than an itinerary has routes, no command a greater one than there may be commands, and a fresh list has one
/// train or more, and no more than a plant has moves.
pub fn a_line_of_a_history_is_within_the_limits()
    ensures { (input : Input) → IsTrue (is_accepted_input input) → (line : Line) (front : Front)
        → IsTrue (is_lawful input (line ∷ front)) → IsTrue (is_limited_what line.entry.what line.trains) }
{}

/// A lawful front of an input that may be run has no more admissions than a plant has moves.
pub fn a_history_has_at_most_so_many_admissions()
    ensures { (input : Input) → IsTrue (is_accepted_input input) → (front : Front) → IsTrue (is_lawful input front)
        → lines_that is_admission front ≤ most FreshLines }
{}
