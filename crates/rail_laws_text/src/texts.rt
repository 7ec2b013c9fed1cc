//! The text of a history determines the history.

ghost use Rattle.std.specs.Prelude.{◌≡◌, IsTrue};
ghost use Rattle.std.specs.List.{list_all};
ghost use Rattle.rail_rules.specs.Accepted.{is_accepted};
ghost use Rattle.rail_rules.specs.Fronts.{Front, Line};
ghost use Rattle.rail_rules.specs.Plant.{Plant};
ghost use Rattle.rail_rules.specs.Texts.{line_text, text};
ghost use Rattle.rail_rules.specs.WritableLines.{IsNamed, is_writable};

/// In a plant that may be run each train and each section has a name of its own.
pub fn names_tell_trains_and_sections()
    ensures { (plant : Plant) → IsTrue (is_accepted plant) → IsNamed plant }
{}

/// The text of a line determines the line: two lines with one text are one.
pub fn the_text_of_a_line_determines_it()
    ensures { (plant : Plant) → IsNamed plant → (a b : Line)
        → IsTrue (is_writable plant a) → IsTrue (is_writable plant b)
        → line_text plant a ≡ line_text plant b → a ≡ b }
{}

/// The text of a history determines the history: two histories with one text are one.
pub fn the_text_of_a_history_determines_it()
    ensures { (plant : Plant) → IsNamed plant → (first second : Front)
        → IsTrue (list_all (is_writable plant) first) → IsTrue (list_all (is_writable plant) second)
        → text plant first ≡ text plant second → first ≡ second }
{}
