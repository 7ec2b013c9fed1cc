//! Every lawful front can be continued to an end.

ghost use Rattle.std.specs.Prelude.{◌≡◌, ◌++◌, IsTrue, false, List};
ghost use Rattle.rail_rules.specs.Fronts.{Front, Line, has_ended};
ghost use Rattle.rail_rules.specs.Lawful.{is_complete, is_lawful, may_follow};
ghost use Rattle.rail_rules.specs.Orders.{Input};
ghost use Rattle.rail_laws_front.specs.Premises.{IsWellFormed};

/// A lawful front that has not ended has a next line: a due line, an admission, a hold line or the end
/// line may follow.
pub fn a_front_that_has_not_ended_has_a_next_line()
    ensures { (input : Input) → IsWellFormed input.plant → (front : Front)
        → IsTrue (is_lawful input front) → has_ended front ≡ false
        → (line : Line) × IsTrue (may_follow input front line) }
{}

/// Every lawful front can be continued by further lines to a history that is lawful to the end.
pub fn every_lawful_front_can_be_continued()
    ensures { (input : Input) → IsWellFormed input.plant → (front : Front)
        → IsTrue (is_lawful input front)
        → (lines : List Line) × IsTrue (is_complete input (lines ++ front)) }
{}
