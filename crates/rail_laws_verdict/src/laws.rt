//! Laws of the verdict on a history: what may follow a front, and which law a wrong line breaks.

ghost use Rattle.std.specs.Prelude.{◌≡◌, ◌↔◌, not, ℕ, List, [], IsTrue, true, false};
ghost use Rattle.rail_rules.specs.Causes.{could_go, is_deciding};
ghost use Rattle.rail_rules.specs.Fronts.{Front, Line, has_ended, is_admission, is_hold};
ghost use Rattle.rail_laws_verdict.specs.Laws.{brings_its_own, does_break, least_law};
ghost use Rattle.rail_rules.specs.Lawful.{is_complete, is_lawful, may_follow};
ghost use Rattle.rail_rules.specs.Orders.{Input};
ghost use Rattle.rail_rules.specs.Accepted.{is_accepted};
ghost use Rattle.rail_laws_verdict.specs.Verdicts.{IsBrokenAt, behind, broken_law, is_undecided, verdict};
ghost use Rattle.rail_laws_verdict.specs.Verdicts.Verdict.{yes, no};

/// Beside admissions one line at most may follow a lawful front.
pub fn one_line_beside_admissions_may_follow()
    ensures { (input : Input) → IsTrue (is_accepted input.plant) → (front : Front) → IsTrue (is_lawful input front)
        → (a b : Line) → IsTrue (may_follow input front a) → IsTrue (may_follow input front b)
        → is_admission a.entry.what ≡ false → is_admission b.entry.what ≡ false → a ≡ b }
{}

/// Where nothing is due at the instant and a train could be admitted, only admissions may follow.
pub fn where_a_train_could_go_only_admissions_follow()
    ensures { (input : Input) → IsTrue (is_accepted input.plant) → (front : Front)
        → IsTrue (is_lawful input front) → (line : Line) (t : ℕ)
        → is_deciding input front ≡ true → could_go input front t ≡ true
        → is_admission line.entry.what ≡ false → may_follow input front line ≡ false }
{}

/// The verdict is yes exactly where the history is lawful to its end.
pub fn a_yes_is_a_lawful_history()
    ensures { (input : Input) (lines : List Line) → (verdict input lines ≡ yes) ↔ IsTrue (is_complete input (behind [] lines)) }
{}

/// A no names the first line that may not follow the lines before it, or the end line that is missing, and the law.
pub fn a_history_is_judged()
    ensures { (input : Input) (lines : List Line) (at law : ℕ) → verdict input lines ≡ no at law → IsBrokenAt input lines at law }
{}

/// An event line or the end line may follow only where nothing is left to decide.
pub fn where_another_line_follows_nothing_is_left_to_decide()
    ensures { (input : Input) → IsTrue (is_accepted input.plant) → (front : Front) → IsTrue (is_lawful input front) → (line : Line)
        → IsTrue (may_follow input front line) → is_admission line.entry.what ≡ false
        → is_hold line.entry.what ≡ false → is_undecided input front ≡ false }
{}

/// A line may follow a lawful front that has not ended exactly where no law applies to it.
pub fn a_line_may_follow_where_no_law_applies()
    ensures { (input : Input) → IsTrue (is_accepted input.plant) → (front : Front)
        → IsTrue (is_lawful input front) → has_ended front ≡ false
        → (line : Line) → IsTrue (brings_its_own line line.entry.what)
        → may_follow input front line ≡ not (does_break input front line line.entry.what) }
{}

/// The law that is named is the least that applies, but the sixth before the first.
pub fn the_law_that_is_named_is_the_least()
    ensures { (input : Input) (front : Front) → has_ended front ≡ false → (line : Line)
        → IsTrue (does_break input front line line.entry.what)
        → broken_law input front line ≡ least_law input front line line.entry.what }
{}
