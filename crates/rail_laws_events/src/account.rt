//! The account of event lines: those that stand in a front, and those to come.

ghost use Rattle.std.specs.Prelude.{◌≡◌, ℕ, ◌+◌, ◌≤◌, ◌∷◌, [], IsTrue, Bool, false};
ghost use Rattle.std.specs.List.{list_any};
ghost use Rattle.rail_laws_events.specs.Accounts.{all_events, is_train_event, tally, to_come, written};
ghost use Rattle.rail_laws_events.specs.Changes.{taken_back, gained};
ghost use Rattle.rail_base.specs.declared.history.Entry.{Entry};
ghost use Rattle.rail_base.specs.declared.history.Note.{Note};
ghost use Rattle.rail_rules.specs.Causes.{place};
ghost use Rattle.rail_rules.specs.Fronts.{Front, Line, admissions, is_admission, same_entry, stands};
ghost use Rattle.rail_rules.specs.Lawful.{is_lawful};
ghost use Rattle.rail_rules.specs.Orders.{Input};
ghost use Rattle.rail_laws_front.specs.Premises.{IsWellFormed};
ghost use Rattle.rail_laws_front.specs.Views.{Admits};

/// For every test, the event lines of trains that stand in a lawful front and those to come that pass
/// it are together as many as all event lines of the admissions that pass it.
pub fn the_account_of_event_lines()
    ensures { (input : Input) → IsWellFormed input.plant → (front : Front)
        → IsTrue (is_lawful input front) → (p : Entry → Bool)
        → tally p (written front) + tally p (to_come input.plant front) ≡ tally p (all_events input.plant front) }
{}

/// No event line occurs twice among the event lines of a lawful front.
pub fn no_event_line_occurs_twice()
    ensures { (input : Input) → IsWellFormed input.plant → (front : Front)
        → IsTrue (is_lawful input front) → (e : Entry)
        → tally (same_entry e) (all_events input.plant front) ≤ 1 }
{}

/// An event line of a train that stands in a lawful front is one of the event lines of its admissions,
/// also of those that came after it.
pub fn what_stands_is_an_event_line()
    ensures { (input : Input) → IsWellFormed input.plant → (front : Front)
        → IsTrue (is_lawful input front) → (e : Entry)
        → IsTrue (stands front e) → IsTrue (is_train_event e.what)
        → IsTrue (list_any (same_entry e) (all_events input.plant front)) }
{}

/// An event line of a train takes itself out of the lines to come, and nothing else changes.
pub fn an_event_line_is_no_longer_to_come()
    ensures { (input : Input) → IsWellFormed input.plant → (line : Line) (front : Front)
        → IsTrue (is_lawful input (line ∷ front)) → IsTrue (is_train_event line.entry.what)
        → (p : Entry → Bool)
        → tally p (to_come input.plant (line ∷ front)) + tally p (line.entry ∷ []) ≡ tally p (to_come input.plant front) }
{}

/// An admission takes the arrival before it and the free lines of the overlap before it out of the lines to
/// come and adds what comes with its move: both as they now are, without the sections that it takes over, the
/// free lines of the sections on which the train stood, the lines of the move, and the next ready line.
pub fn an_admission_adds_the_lines_of_its_move()
    ensures { (input : Input) → IsWellFormed input.plant → (line : Line) (front : Front)
        → IsTrue (is_lawful input (line ∷ front)) → (t m : ℕ) (note : Note)
        → Admits input front line t m note → (p : Entry → Bool)
        → tally p (to_come input.plant (line ∷ front)) + tally p (taken_back input.plant t (admissions front t) (place front t))
        ≡ tally p (to_come input.plant front) + tally p (gained input.plant t (admissions (line ∷ front) t) (place front t)) }
{}

/// The line of a command, a hold line and the end line leave the lines to come as they are.
pub fn other_lines_leave_what_is_to_come()
    ensures { (input : Input) → IsWellFormed input.plant → (line : Line) (front : Front)
        → IsTrue (is_lawful input (line ∷ front))
        → is_train_event line.entry.what ≡ false → is_admission line.entry.what ≡ false
        → (p : Entry → Bool)
        → tally p (to_come input.plant (line ∷ front)) ≡ tally p (to_come input.plant front) }
{}
