//! Worked stairways, on which the definitions are evaluated.

ghost use Rattle.std.specs.Prelude.{◌≡◌};
ghost use Rattle.rail_rules.specs.Fronts.{admissions};
ghost use Rattle.rail_rules.specs.Intervals.{interval_of};
ghost use Rattle.rail_worked_reports.specs.Stairways.{admitted_at_once, at_the_loop, left_standing, overlap_timed, standing_at_the_end, turning, with_an_overlap, without_the_overlap};
ghost use Rattle.rail_stairs.specs.StairsTexts.{stair_line, stairs_text};
ghost use Rattle.rail_worked.specs.Loop as loop;
ghost use Rattle.rail_worked.specs.Overlap as overlap;
ghost use Rattle.rail_worked.specs.OverlapKept as overlap_kept;
ghost use Rattle.rail_worked.specs.Turn as turn;

/// The printed stairways: of two trains that pass at a loop; of a train that stands there as the history ends; and
/// of the interval of a train that turns there, the one line.
pub fn worked_stairways()
    ensures passing { stairs_text loop.plant loop.front ≡ at_the_loop }
    ensures standing { stairs_text loop.plant left_standing ≡ standing_at_the_end }
    ensures turning { stair_line turn.plant (interval_of turn.plant 0 (admissions turn.front 0) 0 2) ≡ turning }
{}

/// The printed stairways with an overlap: of a train that takes it over, of the interval of an overlap that its timer
/// ends, the one line, and of a train whose two moves are admitted at one time.
pub fn worked_overlaps()
    ensures taken_over { stairs_text overlap.plant overlap.front ≡ with_an_overlap }
    ensures timed { stair_line overlap_kept.plant (interval_of overlap_kept.plant 0 (admissions overlap_kept.front 0) 0 3) ≡ overlap_timed }
    ensures at_once { stairs_text overlap.plant admitted_at_once ≡ without_the_overlap }
{}
