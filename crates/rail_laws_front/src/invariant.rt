//! What every lawful front keeps: its times, places, kept list, due lines and blocking intervals.

ghost use Rattle.std.specs.Prelude.{◌≡◌, ℕ, ◌<◌, ◌≤◌, ◌⊎◌, ◌∷◌, ◌&&◌, ◌==◌, IsTrue, Bool, false, not};
ghost use Rattle.std.specs.List.{list_any};
ghost use Rattle.rail_base.specs.declared.history.What.TheVariants.{Free};
ghost use Rattle.rail_base.specs.declared.history.Note.{Note};
ghost use Rattle.rail_laws_front.specs.Invariant.{AreStanding, IsTimely};
ghost use Rattle.rail_rules.specs.Causes.{place};
ghost use Rattle.rail_rules.specs.Events.{due_lines, ready_line};
ghost use Rattle.rail_rules.specs.Fronts.{Front, Line, admissions, at_time, instant, kept, places, same_entry, stands};
ghost use Rattle.rail_rules.specs.Intervals.{end_time, is_open};
ghost use Rattle.rail_rules.specs.Lawful.{is_lawful};
ghost use Rattle.rail_rules.specs.Orders.{Input, is_cancelled, told};
ghost use Rattle.rail_rules.specs.Places.{completes, is_valid_state};
ghost use Rattle.rail_rules.specs.Plant.{moves, moves_of, step_section, trains};
ghost use Rattle.rail_laws_front.specs.Premises.{IsWellFormed};
ghost use Rattle.rail_laws_front.specs.Views.{Admits};
ghost use Rattle.rail_rules.specs.Apart.{IsStep, NeverOverlap};

/// Times do not fall: no line of a lawful history is earlier than the line before it.
pub fn times_do_not_fall()
    ensures { (input : Input) → IsWellFormed input.plant → (line : Line) (front : Front)
        → IsTrue (is_lawful input (line ∷ front)) → instant front ≤ line.entry.at }
{}

/// No line is ever late: what stands in a lawful front is past, and an event line or a command that
/// does not stand is still to come.
pub fn no_line_is_ever_late()
    ensures { (input : Input) → IsWellFormed input.plant → (front : Front)
        → IsTrue (is_lawful input front) → IsTimely input front }
{}

/// In every lawful front the places are valid: no two trains stand on one section.
pub fn the_places_are_valid()
    ensures { (input : Input) → IsWellFormed input.plant → (front : Front)
        → IsTrue (is_lawful input front)
        → IsTrue (is_valid_state (moves_of input.plant) (places input.plant front)) }
{}

/// In every lawful front the kept list brings every train inside to its exit.
pub fn the_kept_list_completes()
    ensures { (input : Input) → IsWellFormed input.plant → (front : Front)
        → IsTrue (is_lawful input front)
        → IsTrue (completes (moves_of input.plant) (places input.plant front) (kept input.plant front)) }
{}

/// The intervals without an end are exactly one for each section of each train's standing set.
pub fn open_intervals_are_the_standing_sets()
    ensures { (input : Input) → IsWellFormed input.plant → (front : Front) → AreStanding input.plant front }
{}

/// An interval that ends after the instant of a lawful front has its free line among the due lines.
pub fn a_section_is_freed_after_its_interval()
    ensures { (input : Input) → IsWellFormed input.plant → (front : Front) (t m j : ℕ)
        → IsTrue (is_lawful input front) → IsStep input.plant front t m j
        → is_open input.plant t (admissions front t) m j ≡ false
        → instant front < end_time input.plant t (admissions front t) m j
        → IsTrue (list_any
        (same_entry (at_time (end_time input.plant t (admissions front t) m j) (Free (step_section input.plant t m j) t)))
        (due_lines input front)) }
{}

/// Blocking intervals of one section never overlap: of two of them, of one train or of two, one ended
/// before the other began.
pub fn blocking_intervals_never_overlap()
    ensures { (input : Input) → IsWellFormed input.plant → (front : Front)
        → IsTrue (is_lawful input front) → NeverOverlap input.plant front }
{}

/// The ready line of the next move of a train that is not cancelled stands in the front or is due.
pub fn ready_lines_stand_or_are_due()
    ensures { (input : Input) (front : Front) (t : ℕ)
        → t < trains input.plant → place front t < moves input.plant t
        → is_cancelled t (told input.commands front) ≡ false
        → (IsTrue (stands front (ready_line input.plant t (admissions front t) (place front t))))
        ⊎ (IsTrue (list_any (same_entry (ready_line input.plant t (admissions front t) (place front t))) (due_lines input front))) }
{}

/// An admission makes no line due at its own instant but the ready line of its train's next move.
pub fn an_admission_adds_only_its_next_ready_line_at_once()
    ensures { (input : Input) → IsWellFormed input.plant → (line : Line) (front : Front) (t m : ℕ) (note : Note)
        → Admits input front line t m note
        → list_any
        (λ d. (d.at == line.entry.at)
        && not (same_entry d (ready_line input.plant t (admissions (line ∷ front) t) (place (line ∷ front) t))))
        (due_lines input (line ∷ front)) ≡ false }
{}
