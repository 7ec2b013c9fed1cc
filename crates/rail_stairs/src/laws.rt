//! Laws for those who note the lines of a run, and for those who compare its intervals or place trains between them.

ghost use Rattle.std.specs.Prelude.{◌≡◌, ◌⊎◌, ◌∷◌, ℕ, IsTrue, List, map, unwrap_or};
ghost use Rattle.rail_capacity.specs.BlockingTimes.{are_conflict_free, block_of};
ghost use Rattle.rail_insert.specs.TimeBounds.{are_timely};
ghost use Rattle.rail_rules.specs.Accepted.{is_accepted_input};
ghost use Rattle.rail_rules.specs.Fronts.{Front, Line, admissions};
ghost use Rattle.rail_rules.specs.Intervals.{has_interval, interval_of, is_over};
ghost use Rattle.rail_rules.specs.Lawful.{is_complete, is_lawful};
ghost use Rattle.rail_rules.specs.Orders.{Input};
ghost use Rattle.rail_rules.specs.Apart.{IsStep};
ghost use Rattle.rail_rules.specs.Plant.{Plant, step_section};
ghost use Rattle.rail_stairs.specs.EndedIntervals.{AreDisjoint, IsPositive, interval_in};
ghost use Rattle.rail_stairs.specs.NotedHistories.{AreNoted, has_room};
ghost use Rattle.rail_stairs.specs.Stairways.{ended_at, ended_by, stairway};
ghost use Rattle.rail_stairs.specs.StairsTexts.{is_of_overlap};
ghost use Rattle.rail_stairs.specs.declared.stairs.Stairs.{Stairs};

/// Where the lines so far were noted, there is room to note each line that lawfully follows them.
pub fn a_lawful_line_finds_room()
    ensures { (input : Input) → IsTrue (is_accepted_input input) → (line : Line) (front : Front) (stairs : Stairs)
        → IsTrue (is_lawful input (line ∷ front)) → AreNoted input.plant front stairs → IsTrue (has_room stairs line.entry.what) }
{}

/// An interval is written as one of an overlap, without parts, exactly where its step is one of the overlap.
pub fn an_over_line_is_of_an_overlap()
    ensures { (plant : Plant) (t : ℕ) (adms : List ℕ) (m j : ℕ) → is_of_overlap (interval_of plant t adms m j) ≡ is_over plant t m j }
{}

/// At the end of a lawful history of an input that may be run each blocking interval, an open one ended at the end
/// line, is not empty, and its end is below 2^50 tenths of a second.
pub fn ended_intervals_are_positive()
    ensures { (input : Input) → IsTrue (is_accepted_input input) → (front : Front) → IsTrue (is_complete input front)
        → (t m j : ℕ) → IsStep input.plant front t m j → IsTrue (has_interval input.plant t (admissions front t) m j)
        → IsPositive front (interval_in input.plant front t m j) }
{}

/// In a lawful history two blocking intervals of one section are the same, or one ends before the other begins, where
/// open ones are ended at the end line.
pub fn ended_intervals_never_overlap()
    ensures { (input : Input) → IsTrue (is_accepted_input input) → (front : Front) → IsTrue (is_lawful input front)
        → (t m j u n i : ℕ) → IsStep input.plant front t m j → IsStep input.plant front u n i
        → step_section input.plant t m j ≡ step_section input.plant u n i
        → ((t ≡ u) × (m ≡ n) × (j ≡ i)) ⊎ AreDisjoint front (interval_in input.plant front t m j) (interval_in input.plant front u n i) }
{}

/// The intervals of a lawful history, open ones ended at the end line, are without conflict, so that they may be
/// compressed.
pub fn ended_intervals_are_without_conflict()
    ensures { (input : Input) → IsTrue (is_accepted_input input) → (front : Front) → IsTrue (is_complete input front)
        → IsTrue (are_conflict_free (map block_of (map (ended_by (unwrap_or (ended_at front) 0)) (stairway input.plant front)))) }
{}

/// In a lawful history of an input that may be run all blocking intervals begin, and those that are not open end, before
/// 2^50 tenths of a second, so that further trains may be placed between them.
pub fn intervals_are_timely()
    ensures { (input : Input) → IsTrue (is_accepted_input input) → (front : Front) → IsTrue (is_complete input front)
        → IsTrue (are_timely (stairway input.plant front)) }
{}
