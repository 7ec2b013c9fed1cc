//! What holds of the waits of every lawful history.

ghost use Rattle.std.specs.Prelude.{◌≡◌, ℕ, ◌<◌, Bool, List, IsTrue};
ghost use Rattle.rail_base.specs.declared.history.Cause.{Cause};
ghost use Rattle.rail_base.specs.declared.orders.Command.{Command};
ghost use Rattle.rail_delay.specs.HeldTimes.{hold_spans, move_waits};
ghost use Rattle.rail_delay.specs.Waits.{held, held_by_kinds, held_for, is_in_order};
ghost use Rattle.rail_rules.specs.Accepted.{is_accepted};
ghost use Rattle.rail_rules.specs.Fronts.{Front};
ghost use Rattle.rail_rules.specs.Lawful.{is_complete, is_lawful};
ghost use Rattle.rail_rules.specs.Orders.{Input};
ghost use Rattle.rail_rules.specs.Plant.{trains};

/// In a history that is lawful to its end a train is held in all as long as by the four kinds of cause together: a
/// train that is ready is admitted, or told why not, at the same instant.
pub fn held_is_the_sum_of_the_four_kinds()
    ensures { (input : Input) → IsTrue (is_accepted input.plant) → (front : Front) → IsTrue (is_complete input front)
        → (t : ℕ) → held input.commands front t ≡ held_by_kinds input.commands front t }
{}

/// In every lawful front a train was held as long as it waited for its moves: for each admitted one from its ready time,
/// which follows from the admissions alone, to its admission, and for the one after them from its ready time to the
/// train's told cancel, or else the end line. A wait that goes on at the end of the front is not counted.
pub fn held_is_the_sum_of_the_waits_for_moves()
    ensures { (input : Input) → IsTrue (is_accepted input.plant) → (front : Front) → IsTrue (is_lawful input front)
        → (t : ℕ) → t < trains input.plant
        → held input.commands front t ≡ move_waits input.plant input.commands front t }
{}

/// The time for which a train was held by causes of a kind is the sum over its hold lines by such a cause, each from
/// its time to the first line behind it that is the train's next hold line, its admission, its told cancel, or the end
/// line. This holds of every front; a hold that is not over yet is not counted.
pub fn held_for_a_kind_is_the_sum_of_the_spans_of_its_hold_lines()
    ensures { (kind : Cause → Bool) (commands : List Command) (front : Front) (t : ℕ)
        → held_for kind commands front t ≡ hold_spans kind commands front t }
{}

/// The times of a lawful front do not fall, so its lines can be noted.
pub fn a_lawful_front_is_in_order()
    ensures { (input : Input) → IsTrue (is_accepted input.plant) → (front : Front) → IsTrue (is_lawful input front)
        → IsTrue (is_in_order front) }
{}
