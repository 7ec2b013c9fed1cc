//! Laws of the kept list: when a repaired list completes, and how long none is known for a waiting train.

ghost use Rattle.std.specs.Prelude.{◌≡◌, ◌≢◌, ℕ, suc, ◌<◌, ◌≤◌, Bool, false, List, length, IsTrue};
ghost use Rattle.rail_rules.specs.Analysis.{is_safe};
ghost use Rattle.rail_rules.specs.Fronts.{without_first};
ghost use Rattle.rail_rules.specs.Moves.{Moves, is_valid, stand};
ghost use Rattle.rail_rules.specs.Numbers.{sum_below};
ghost use Rattle.rail_rules.specs.Places.{after, completes, is_inside, place_of};
ghost use Rattle.rail_consequence.specs.Cores.{IsCore};
ghost use Rattle.rail_list.specs.Failures.{is_core_kept};
ghost use Rattle.rail_list.specs.KeptLists.{is_free_before, with_moves_left};
ghost use Rattle.rail_list.specs.Repairs.{is_known, is_repairable_for};

/// A list that completes has no more entries than the trains have moves, so that it fits into each
/// kept list that was made for these moves.
pub fn a_completing_list_fits()
    ensures { (plan : Moves) (s list : List ℕ)
        → IsTrue (completes plan s list)
        → length list ≤ sum_below plan.moves (length s) }
{}

/// After the first move of an entering train, the list with its other moves at the end completes exactly where
/// that move ended safely: where no train inside needs later what the train then stands on.
pub fn an_appended_list_completes_exactly_where_the_train_entered_safely()
    ensures { (plan : Moves) (s list : List ℕ) (t : ℕ)
        → IsTrue (is_valid plan) → t < plan.trains → t < length s → 0 < plan.moves t
        → place_of s t ≡ 0 → IsTrue (completes plan s list)
        → completes plan (after s t) (with_moves_left plan t list) ≡ is_safe plan s (record { train = t; place = 1 }) }
{}

/// After a train's move, the list without its first entry completes exactly where no entry before that one needs,
/// for its move, what the train then stands on.
pub fn a_pulled_list_completes_exactly_where_no_earlier_entry_needs_what_the_train_stands_on()
    ensures { (plan : Moves) (s list : List ℕ) (t : ℕ)
        → IsTrue (is_inside plan s t) → IsTrue (completes plan s list)
        → completes plan (after s t) (without_first t list)
        ≡ is_free_before plan t (stand plan t (suc (place_of s t))) list }
{}

/// Where a search for a waiting train failed, no list is known for it after the move of another train that is none of
/// the core of that search, but where the repaired list completes.
pub fn no_list_is_known_until_one_of_the_core_moves()
    ensures { (plan : Moves) (depth : ℕ) (s list : List ℕ) (waiting moved : ℕ) (core : ℕ → Bool)
        → waiting < length s → moved ≢ waiting → core moved ≡ false
        → IsCore plan depth (after s waiting) core
        → is_repairable_for plan (after s moved) list waiting ≡ false
        → is_known plan depth (after s moved) list waiting ≡ false }
{}

/// Nor is one known after the move of a train of the core, where it is a safe leg before the next move of the waiting train,
/// and behind it.
pub fn no_list_is_known_behind_a_safe_move_of_one_of_the_core()
    ensures { (plan : Moves) (depth : ℕ) (s list : List ℕ) (waiting moved : ℕ) (core : ℕ → Bool)
        → moved ≢ waiting → IsTrue (is_core_kept plan s moved waiting)
        → IsCore plan depth (after s waiting) core
        → is_repairable_for plan (after s moved) list waiting ≡ false
        → is_known plan depth (after s moved) list waiting ≡ false }
{}
