//! How far an input determines its run history, also where a run is cut and goes on.

ghost use Rattle.std.specs.Prelude.{◌≡◌, ◌⊎◌, ◌∷◌, ◌++◌, ℕ, IsTrue, List};
ghost use Rattle.rail_base.specs.declared.history.Note.TheVariants.{Fresh};
ghost use Rattle.rail_base.specs.declared.history.What.TheVariants.{Admit};
ghost use Rattle.rail_rules.specs.Accepted.{is_accepted};
ghost use Rattle.rail_rules.specs.Fronts.{Front, Line};
ghost use Rattle.rail_rules.specs.Orders.{Input};
ghost use Rattle.rail_rules.specs.RunHistories.{Seat, is_run_history};
ghost use Rattle.rail_rules.specs.Texts.{text};
ghost use Rattle.rail_laws_end.specs.Forks.{IsFork, are_marks, is_built_in_throughout};

/// Two run histories of one plant, command list and deck, where a built-in kind is in force at each
/// admission of the first, are the same, or the first line in which they differ is in both a fresh
/// admission of the same train, with different lists.
pub fn one_history()
    ensures { (input : Input) → IsTrue (is_accepted input.plant) → (seats : List Seat) → IsTrue (are_marks seats)
        → (first second : Front)
        → IsTrue (is_run_history input seats first) → IsTrue (is_run_history input seats second)
        → IsTrue (is_built_in_throughout input seats first)
        → (first ≡ second) ⊎ IsFork first second }
{}

/// A run that is cut behind some of its lines and goes on from them has, put together, the text of the run that
/// was not cut, where that one has no fresh list and a built-in kind is in force at each of its admissions.
pub fn a_run_that_goes_on_has_the_text_of_the_whole()
    ensures { (input : Input) → IsTrue (is_accepted input.plant) → (seats : List Seat) → IsTrue (are_marks seats)
        → (whole front more : Front)
        → IsTrue (is_run_history input seats whole) → IsTrue (is_run_history input seats (more ++ front))
        → IsTrue (is_built_in_throughout input seats whole)
        → ((later before : Front) (line : Line) (t m : ℕ) → whole ≡ later ++ line ∷ before → line.entry.what ≡ Admit t m Fresh → ⊥)
        → text input.plant front ++ text input.plant more ≡ text input.plant whole }
{}
