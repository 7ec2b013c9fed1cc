//! What holds of histories that are checked.

ghost use Rattle.std.specs.Prelude.{◌≡◌, IsTrue, List, reverse};
ghost use Rattle.rail_history.specs.HistoryLines.{IsHistory};
ghost use Rattle.rail_laws_verdict.specs.Verdicts.{verdict};
ghost use Rattle.rail_laws_verdict.specs.Verdicts.Verdict.{yes};
ghost use Rattle.rail_rules.specs.Accepted.{is_accepted_input};
ghost use Rattle.rail_rules.specs.Fronts.{Front};
ghost use Rattle.rail_rules.specs.Orders.{Input};
ghost use Rattle.rail_rules.specs.RunHistories.{Seat, is_run_history};
ghost use Rattle.rail_rules.specs.Texts.{text};

/// The text of a run history of an input that may be run is the text of a history file, and the verdict on its lines is
/// yes, whatever the policies chose. Only the size of the file is another matter.
pub fn a_printed_run_is_answered_yes()
    ensures { (input : Input) → IsTrue (is_accepted_input input) → (seats : List Seat) (front : Front)
        → IsTrue (is_run_history input seats front)
        → IsHistory input.plant (text input.plant front) (reverse front) × (verdict input (reverse front) ≡ yes) }
{}
