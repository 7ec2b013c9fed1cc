//! Laws of lists that complete and of the search for one: no deadlock, and which depth suffices.

ghost use Rattle.std.specs.Prelude.{◌≡◌, ℕ, ◌≤◌, ◌↔◌, List, IsTrue, Bool, false};
ghost use Rattle.rail_laws_list.specs.Locked.{AreLocked, HasList};
ghost use Rattle.rail_rules.specs.Analysis.{Finds, moves_left};
ghost use Rattle.rail_rules.specs.Moves.{Moves};
ghost use Rattle.rail_rules.specs.Places.{completes};

/// Where a list completes there is no deadlock: a set of trains inside, each of which claims for its next move a section
/// that one of the set holds, another one or itself, is empty.
pub fn where_a_list_completes_no_trains_are_locked()
    ensures { (plan : Moves) (s list : List ℕ) → IsTrue (completes plan s list)
        → (among : ℕ → Bool) → AreLocked plan s among → (t : ℕ) → among t ≡ false }
{}

/// What a search finds with so many free legs at the most, it finds with more of them.
pub fn a_greater_depth_finds_no_less()
    ensures { (plan : Moves) (j k : ℕ) (s : List ℕ) → j ≤ k → Finds plan j s → Finds plan k s }
{}

/// Where as many free legs are allowed as the trains have moves left, a search finds a list of legs exactly where some
/// list of moves brings every train inside to its exit: only for its depth does a search miss a list.
pub fn a_depth_of_the_moves_left_finds_every_list()
    ensures { (plan : Moves) (k : ℕ) (s : List ℕ) → moves_left plan s ≤ k → Finds plan k s ↔ HasList plan s }
{}
