//! The rows of blocking intervals: their parts, a blocking time stairway, and the intervals of overlaps.

ghost use Rattle.std.specs.Prelude.{◌≡◌, ◌∷◌, []};
ghost use Rattle.rail_worked.specs.Loop as loop;
ghost use Rattle.rail_worked.specs.Overlap as overlap;
ghost use Rattle.rail_worked.specs.OverlapKept as overlap_kept;
ghost use Rattle.rail_worked.specs.Stairs.{stair};
ghost use Rattle.rail_worked.specs.Turn as turn;

// In each clause: train, move, section, begin, end, and the parts setting, watching, approach, waiting,
// earlier running, running, standing, clearing and release, in tenths of a second.

/// The train that turns stands on the loop track: its blocking interval there has all its nine parts.
pub fn the_parts_of_a_standing_interval()
    ensures { stair turn.plant turn.front 0 0 2
        ≡ 0 ∷ 1 ∷ 2 ∷ 1080 ∷ 2580 ∷ 10 ∷ 10 ∷ 100 ∷ 0 ∷ 420 ∷ 400 ∷ 140 ∷ 400 ∷ 20 ∷ [] }
{}

/// The first train at the loop: its blocking time stairway.
pub fn a_stairway()
    ensures over_west { stair loop.plant loop.front 0 0 0
        ≡ 0 ∷ 1 ∷ 0 ∷ 1080 ∷ 1656 ∷ 10 ∷ 10 ∷ 100 ∷ 0 ∷ 0 ∷ 400 ∷ 0 ∷ 36 ∷ 20 ∷ [] }
    ensures over_points { stair loop.plant loop.front 0 0 1
        ≡ 0 ∷ 1 ∷ 1 ∷ 1080 ∷ 1676 ∷ 10 ∷ 10 ∷ 100 ∷ 0 ∷ 400 ∷ 20 ∷ 0 ∷ 36 ∷ 20 ∷ [] }
    ensures over_track { stair loop.plant loop.front 0 0 2
        ≡ 0 ∷ 1 ∷ 2 ∷ 1080 ∷ 2076 ∷ 10 ∷ 10 ∷ 100 ∷ 0 ∷ 420 ∷ 400 ∷ 0 ∷ 36 ∷ 20 ∷ [] }
    ensures over_next_points { stair loop.plant loop.front 0 1 0
        ≡ 0 ∷ 2 ∷ 4 ∷ 1900 ∷ 2096 ∷ 10 ∷ 10 ∷ 100 ∷ 0 ∷ 0 ∷ 20 ∷ 0 ∷ 36 ∷ 20 ∷ [] }
    ensures over_east { stair loop.plant loop.front 0 1 1
        ≡ 0 ∷ 2 ∷ 5 ∷ 1900 ∷ 2496 ∷ 10 ∷ 10 ∷ 100 ∷ 0 ∷ 20 ∷ 400 ∷ 0 ∷ 36 ∷ 20 ∷ [] }
{}

/// An interval of an overlap has no parts: it ends where the next move takes its section over, or with its timer.
pub fn intervals_of_overlaps()
    ensures taken_over { stair overlap.plant overlap.front 0 0 3 ≡ 0 ∷ 1 ∷ 4 ∷ 1080 ∷ 1900 ∷ [] }
    ensures timed { stair overlap_kept.plant overlap_kept.front 0 0 3 ≡ 0 ∷ 1 ∷ 4 ∷ 1080 ∷ 2370 ∷ [] }
{}
