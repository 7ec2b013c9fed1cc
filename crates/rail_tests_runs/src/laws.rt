//! Instances of the laws: two trains that pass at a loop, and a deadlock that is avoided.

ghost use Rattle.std.specs.Prelude.{◌≡◌, ◌+◌, ◌⊎◌, ℕ, ◌<◌, IsTrue, List, [], length};
ghost use Rattle.std.specs.List.{list_all};
ghost use Rattle.rail_laws_end.specs.Remaining.{NobodyIsCancelled, NothingIsBarred};
ghost use Rattle.rail_worked.specs.DeadlockAvoided as deadlock;
ghost use Rattle.rail_worked.specs.Loop as loop_row;
ghost use Rattle.rail_rules.specs.Accepted.{is_accepted, is_accepted_input};
ghost use Rattle.rail_rules.specs.Fronts.{Front, kept, lines_beside_holds, places};
ghost use Rattle.rail_rules.specs.Lawful.{is_complete, is_out};
ghost use Rattle.rail_rules.specs.LineCounts.{taken_over};
ghost use Rattle.rail_rules.specs.Orders.{is_cancelled, told};
ghost use Rattle.rail_rules.specs.Places.{completes};
ghost use Rattle.rail_rules.specs.Plant.{bound, moves_of, trains};
ghost use Rattle.rail_rules.specs.Texts.{text};
ghost use Rattle.rail_rules.specs.WritableLines.{IsNamed, is_writable};
ghost use Rattle.rail_laws_front.specs.Premises.{IsWellFormed};
ghost use Rattle.rail_rules.specs.Apart.{NeverOverlap};

/// Two trains pass at a loop: the premises of the laws hold there, and so do the laws.
pub fn the_loop_is_an_instance()
    ensures accepted { IsTrue (is_accepted loop_row.plant) }
    ensures input { IsTrue (is_accepted_input loop_row.input) }
    ensures complete { IsTrue (is_complete loop_row.input loop_row.front) }
    ensures well_formed { IsWellFormed loop_row.plant }
    ensures free { NothingIsBarred loop_row.input loop_row.front }
    ensures nobody_cancelled { NobodyIsCancelled loop_row.input loop_row.front }
    ensures apart { NeverOverlap loop_row.plant loop_row.front }
    ensures list { IsTrue (completes (moves_of loop_row.plant) (places loop_row.plant loop_row.front)
        (kept loop_row.plant loop_row.front)) }
    ensures all_out { (t : ℕ) → t < trains loop_row.plant
        → IsTrue (is_out loop_row.front t) ⊎ IsTrue (is_cancelled t (told loop_row.input.commands loop_row.front)) }
    ensures lines { lines_beside_holds loop_row.front + taken_over loop_row.plant loop_row.front ≡ bound loop_row.plant (length loop_row.input.commands) }
    ensures named { IsNamed loop_row.plant }
    ensures writable { IsTrue (list_all (is_writable loop_row.plant) loop_row.front) }
    ensures only_text { (other : Front) → IsTrue (list_all (is_writable loop_row.plant) other)
        → text loop_row.plant loop_row.front ≡ text loop_row.plant other → loop_row.front ≡ other }
{}

/// A train is held where its admission would lead into a deadlock: the premises of the laws hold there,
/// and so do the laws.
pub fn the_deadlock_avoided_is_an_instance()
    ensures accepted { IsTrue (is_accepted deadlock.plant) }
    ensures input { IsTrue (is_accepted_input deadlock.input) }
    ensures complete { IsTrue (is_complete deadlock.input deadlock.front) }
    ensures well_formed { IsWellFormed deadlock.plant }
    ensures free { NothingIsBarred deadlock.input deadlock.front }
    ensures nobody_cancelled { NobodyIsCancelled deadlock.input deadlock.front }
    ensures apart { NeverOverlap deadlock.plant deadlock.front }
    ensures list { IsTrue (completes (moves_of deadlock.plant) (places deadlock.plant deadlock.front)
        (kept deadlock.plant deadlock.front)) }
    ensures all_out { (t : ℕ) → t < trains deadlock.plant
        → IsTrue (is_out deadlock.front t) ⊎ IsTrue (is_cancelled t (told deadlock.input.commands deadlock.front)) }
    ensures lines { lines_beside_holds deadlock.front + taken_over deadlock.plant deadlock.front ≡ bound deadlock.plant (length deadlock.input.commands) }
    ensures named { IsNamed deadlock.plant }
    ensures writable { IsTrue (list_all (is_writable deadlock.plant) deadlock.front) }
    ensures only_text { (other : Front) → IsTrue (list_all (is_writable deadlock.plant) other)
        → text deadlock.plant deadlock.front ≡ text deadlock.plant other → deadlock.front ≡ other }
{}
