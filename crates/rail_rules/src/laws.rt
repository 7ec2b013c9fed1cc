//! Laws about the definitions: legal moves, lists that complete, the search, blocking intervals and overlaps.

ghost use Rattle.std.specs.Prelude.{◌≡◌, ℕ, ◌+◌, ◌*◌, ◌-◌, ◌<◌, ◌↔◌, ◌∷◌, List, IsTrue, false, ◌==◌, count_by, if◌then◌else◌};
ghost use Rattle.rail_rules.specs.Analysis.{Finds, finds};
ghost use Rattle.rail_rules.specs.Events.{moved_lines};
ghost use Rattle.rail_rules.specs.Fronts.{Front, Line, is_admission};
ghost use Rattle.rail_rules.specs.Intervals.{IsInOrder, bars, blocks, clear_end, end_time, is_open, is_taken_over, parts_of, parts_sum};
ghost use Rattle.rail_rules.specs.Moves.{Moves, is_valid};
ghost use Rattle.rail_rules.specs.Places.{after, completes, is_inside, is_legal, is_valid_state, place_of};
ghost use Rattle.rail_rules.specs.Plant.{HasNoOverlaps, Plant, claimed, claims, move_lines, needed, steps};
ghost use Rattle.rail_rules.specs.Times.{admitted};

/// In a valid plant a legal move leads from a valid state to a valid state: no two trains ever hold
/// one section.
pub fn a_legal_move_keeps_a_valid_state()
    ensures { (plan : Moves) (s : List ℕ) (t : ℕ)
        → IsTrue (is_valid plan) → IsTrue (is_valid_state plan s) → IsTrue (is_legal plan s t)
        → IsTrue (is_valid_state plan (after s t)) }
{}

/// A list that completes names each train inside exactly as often as it has moves left, and no other
/// train.
pub fn a_completing_list_counts_the_moves_left()
    ensures { (plan : Moves) (s list : List ℕ) (t : ℕ)
        → IsTrue (completes plan s list)
        → count_by (λ u. u == t) list
        ≡ (if is_inside plan s t then plan.moves t - place_of s t else 0) }
{}

/// There is a list of legs with at most `k` free ones that brings every train inside to its exit
/// exactly where trying every list of at most as many legs as there are moves left finds one.
pub fn the_computed_search_is_exact()
    ensures { (plan : Moves) (k : ℕ) (s : List ℕ) → IsTrue (finds plan k s) ↔ Finds plan k s }
{}

/// Of a blocking interval, the signal is clear before the move begins, the head enters the section
/// after that and leaves it after it entered, and the train begins to clear the section after its
/// head was to leave it: no part of an interval is cut off at 0.
pub fn the_parts_of_an_interval_are_in_order()
    ensures { (plant : Plant) (t : ℕ) (adms : List ℕ) (m j : ℕ)
        → j < steps plant t m → IsInOrder plant t adms m j }
{}

/// The nine parts of a closed blocking interval sum to its length.
pub fn the_parts_of_an_interval_sum_to_its_length()
    ensures { (plant : Plant) (t : ℕ) (adms : List ℕ) (m j : ℕ)
        → j < steps plant t m → is_open plant t adms m j ≡ false
        → admitted adms m + parts_sum (parts_of plant t adms m j) ≡ end_time plant t adms m j }
{}

/// A line that is no admission changes no event line of an admitted move: times and intervals come
/// from the admissions alone.
pub fn only_admissions_change_event_lines()
    ensures { (plant : Plant) (line : Line) (front : Front)
        → is_admission line.entry.what ≡ false
        → moved_lines plant (line ∷ front) ≡ moved_lines plant front }
{}

/// In a plant without overlaps a move claims what it needs, nothing is taken over, each interval ends as its section
/// is cleared and released, and an interval that contains the instant bars every train.
pub fn without_overlaps_nothing_is_taken_over()
    ensures claims { (plant : Plant) → HasNoOverlaps plant → (t m : ℕ) → claimed plant t m ≡ needed plant t m }
    ensures lines { (plant : Plant) → HasNoOverlaps plant → (t m : ℕ) → move_lines plant t m ≡ 2 * steps plant t m + 3 }
    ensures taken { (plant : Plant) → HasNoOverlaps plant → (t : ℕ) (adms : List ℕ) (m j : ℕ)
        → j < claims plant t m → is_taken_over plant t adms m j ≡ false }
    ensures ends { (plant : Plant) → HasNoOverlaps plant → (t : ℕ) (adms : List ℕ) (m j : ℕ)
        → j < claims plant t m → end_time plant t adms m j ≡ clear_end plant t adms m j }
    ensures bars { (plant : Plant) → HasNoOverlaps plant → (t u : ℕ) (adms : List ℕ) (x instant : ℕ)
        → bars plant t u adms x instant ≡ blocks plant u adms x instant }
{}
