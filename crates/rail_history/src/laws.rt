//! What holds of history files.

ghost use Rattle.std.specs.Prelude.{◌≡◌, ℕ, IsTrue, List, reverse};
ghost use Rattle.rail_history.specs.HistoryLines.{AreHistoryLines, IsFirstWrong, IsHistory};
ghost use Rattle.rail_rules.specs.Accepted.{is_accepted_input};
ghost use Rattle.rail_rules.specs.Fronts.{Front, Line};
ghost use Rattle.rail_rules.specs.Lawful.{is_lawful};
ghost use Rattle.rail_rules.specs.Orders.{Input};
ghost use Rattle.rail_rules.specs.Plant.{Plant};
ghost use Rattle.rail_rules.specs.WritableLines.{IsNamed};

/// A history file has one history: two lists of lines of which the bytes are the text are one.
pub fn a_history_file_has_one_history()
    ensures { (plant : Plant) → IsNamed plant → (bytes : List ℕ) (lines others : List Line)
        → IsHistory plant bytes lines → IsHistory plant bytes others → lines ≡ others }
{}

/// A file with a first wrong line is no history: no lines have its bytes as their text.
pub fn a_file_with_a_wrong_line_is_no_history()
    ensures { (plant : Plant) → IsNamed plant → (bytes : List ℕ) (number : ℕ) (lines : List Line)
        → IsFirstWrong plant bytes number → IsHistory plant bytes lines → ⊥ }
{}

/// A file has one first wrong line at most: two numbers of lines that are the first wrong one of the same bytes are equal.
pub fn a_file_has_one_first_wrong_line()
    ensures { (plant : Plant) → IsNamed plant → (bytes : List ℕ) (number other : ℕ)
        → IsFirstWrong plant bytes number → IsFirstWrong plant bytes other → number ≡ other }
{}

/// Every file is a history or has a first wrong line: there are no bytes that are the text of no lines and have no such
/// line, whatever the plant.
pub fn a_file_is_a_history_or_has_a_first_wrong_line()
    ensures { (plant : Plant) (bytes : List ℕ)
        → ((lines : List Line) → IsHistory plant bytes lines → ⊥)
        → ((number : ℕ) → IsFirstWrong plant bytes number → ⊥)
        → ⊥ }
{}

/// The lines of every lawful history of an input that may be run are lines of a history file: their names are those of
/// the plant, their numbers and lists are within the limits, and no more of them have a fresh list than such a file may
/// have. Only the size of the file is another matter.
pub fn a_lawful_history_may_stand_in_a_file()
    ensures { (input : Input) → IsTrue (is_accepted_input input) → (front : Front) → IsTrue (is_lawful input front)
        → AreHistoryLines input.plant (reverse front) }
{}
