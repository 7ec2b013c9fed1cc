//! What the definitions of an insertion mean, as contracts of functions without code.

ghost use Rattle.std.specs.Prelude.{◌≡◌, ℕ, ◌<◌, ◌≤◌, false, [], List, map};
ghost use Rattle.std.specs.List.{All, AllPairs, Contains};
ghost use Rattle.rail_base.specs.declared.intervals.Interval.{Interval};
ghost use Rattle.rail_capacity.specs.declared.compression.Window.{Window};
ghost use Rattle.rail_insert.specs.declared.bars.Bar.{Bar};
ghost use Rattle.rail_insert.specs.declared.bars.Obstacle.{Obstacle};
ghost use Rattle.rail_insert.specs.declared.insertion.Placed.{Placed};
ghost use Rattle.rail_insert.specs.declared.stairway.Stair.{Stair};
ghost use Rattle.rail_insert.specs.Bars.{AreBars};
ghost use Rattle.rail_insert.specs.Certificates.{Cover, IsTrueBar};
ghost use Rattle.rail_insert.specs.Copies.{Fits, IsExcluded, is_met, obstacle_at, obstacle_of};
ghost use Rattle.rail_insert.specs.Insertions.{ArePlaced};

/// The bars of a copy cover the begins from that of the window to its own without a gap, and each of them is true.
pub fn bars_cover_all_earlier_begins()
    ensures { (stairs : List Stair) (inway : List Obstacle) (from begin : ℕ) (bars : List Bar) → AreBars stairs inway from bars begin
        → Cover from bars begin × ((bar : Bar) → Contains bars bar → IsTrueBar stairs inway bar) }
{}

/// From bars alone follows that no copy fits earlier: where they are true and leave no gap, one that begins at any
/// begin that they cover would run into an interval.
pub fn bars_are_a_certificate()
    ensures { (stairs : List Stair) (inway : List Obstacle) (from begin : ℕ) (bars : List Bar) → Cover from bars begin
        → ((bar : Bar) → Contains bars bar → IsTrueBar stairs inway bar)
        → (b : ℕ) → from ≤ b → b < begin → IsExcluded stairs inway b }
{}

/// The copies run into no interval of the run.
pub fn copies_run_into_no_train()
    ensures { (intervals : List Interval) (stairs : List Stair) (window : Window) (count : ℕ) (copies : List Placed)
        → ArePlaced intervals stairs window count [] copies
        → All (λ placed. Fits stairs (map obstacle_of intervals) placed.begin) copies }
{}

/// No two copies have an instant in common on a section.
pub fn copies_run_into_no_copy()
    ensures { (intervals : List Interval) (stairs : List Stair) (window : Window) (count number : ℕ) (copies : List Placed)
        → ArePlaced intervals stairs window count [] copies
        → AllPairs (λ earlier later. (stair other : Stair) → Contains stairs stair → Contains stairs other
        → is_met later.begin stair (obstacle_at number earlier.begin other) ≡ false) copies }
{}
