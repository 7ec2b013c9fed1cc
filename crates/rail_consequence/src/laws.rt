//! Laws of the analysis: which legs lose nothing, and how long a search that failed is known to fail.

ghost use Rattle.std.specs.Prelude.{◌≡◌, ◌≢◌, ℕ, ◌<◌, Bool, List, false, length, set, IsTrue};
ghost use Rattle.rail_rules.specs.Analysis.{Finds, Leg, after_leg, is_leg, is_safe};
ghost use Rattle.rail_rules.specs.Moves.{Moves};
ghost use Rattle.rail_rules.specs.Places.{after, is_inside};
ghost use Rattle.rail_consequence.specs.Cores.{IsAhead, IsCore, StandAlike, after_legs, are_safe_legs};

/// What can be found from a state can be found from the state after a safe leg, with no more free legs.
/// So making safe legs, in any order, loses nothing, and free legs need to be tried only where no safe
/// leg is left.
pub fn a_safe_leg_keeps_what_can_be_found()
    ensures { (plan : Moves) (k : ℕ) (s : List ℕ) (leg : Leg)
        → IsTrue (is_leg plan s leg) → IsTrue (is_safe plan s leg)
        → Finds plan k s → Finds plan k (after_leg s leg) }
{}

/// What can be found can be found without a train that is inside, as if it had gone out where it stands,
/// with no more free legs. So where nothing is found without the train, none of its legs helps.
pub fn what_can_be_found_can_be_found_without_a_train()
    ensures { (plan : Moves) (k : ℕ) (s : List ℕ) (t : ℕ)
        → IsTrue (is_inside plan s t)
        → Finds plan k s → Finds plan k (set s t (plan.moves t)) }
{}

/// What can be found from a state can be found from each state ahead of it, with no more free legs: where each train
/// that is inside stands where it stood, or further on where no other train inside needs later what it stands on.
pub fn what_can_be_found_can_be_found_ahead()
    ensures { (plan : Moves) (k : ℕ) (s ahead : List ℕ)
        → IsAhead plan s ahead → Finds plan k s → Finds plan k ahead }
{}

/// The trains that safe legs leave inside are the core of a search that fails: as long as these trains stand where
/// they stood, nothing is found, wherever the others are.
pub fn the_trains_that_safe_legs_leave_inside_are_a_core()
    ensures { (plan : Moves) (k : ℕ) (s : List ℕ) (legs : List Leg) (core : ℕ → Bool)
        → IsTrue (are_safe_legs plan s legs)
        → ((t : ℕ) → IsTrue (is_inside plan (after_legs s legs) t) → IsTrue (core t))
        → (Finds plan k s → ⊥) → IsCore plan k s core }
{}

/// Where a core bars what a waiting train's move would lead to, it does so after the move of another train that is none of
/// the core. So the train has to be searched for again only when one of the core, or the train itself, has moved.
pub fn a_core_lasts_until_one_of_it_moves()
    ensures { (plan : Moves) (k : ℕ) (s : List ℕ) (waiting moved : ℕ) (core : ℕ → Bool)
        → waiting < length s → moved ≢ waiting → core moved ≡ false
        → IsCore plan k (after s waiting) core → IsCore plan k (after (after s moved) waiting) core }
{}

/// A core is one behind a safe leg, too, also where the train of the leg is one of the core.
pub fn a_core_lasts_behind_a_safe_leg()
    ensures { (plan : Moves) (k : ℕ) (s : List ℕ) (core : ℕ → Bool) (leg : Leg)
        → IsTrue (is_leg plan s leg) → IsTrue (is_safe plan s leg)
        → IsCore plan k s core → IsCore plan k (after_leg s leg) core }
{}
