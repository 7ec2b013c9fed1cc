//! Where a train stands after a move, and what its next move claims.

ghost use Rattle.std.specs.Prelude.{◌≡◌, ◌≤◌, ◌++◌, IsTrue, length, drop};
ghost use Rattle.std.specs.List.{find};
ghost use Rattle.rail_rules.specs.Numbers.{is_in};
ghost use Rattle.rail_rules.specs.Plant.{shortest_end};
ghost use Rattle.rail_rules.specs.Accepted.{is_move_in_range};
ghost use Rattle.rail_plan.specs.PlanFaults.{IsPlannable, bare, metres_of, standing_of};

use crate::lent::LentMove;
use crate::rows::section_row;
use rail_base::{SectionNo, Tables};

/// The sections on which a train of so many metres stands after the move: the shortest end of its route
/// that is as long as the train and, where there is a turn, begins at the turn step or before.
pub fn standing<'a>(tables: &Tables, metres: u32, row: &LentMove<'a>) -> &'a [SectionNo]
    requires tables { IsPlannable tables.now }
    requires fine { IsTrue (is_move_in_range (length tables.now.sections) row.now) }
    ensures { result.now ≡ standing_of (bare tables.now) metres row.now }
{
    let last = shortest_end(tables, metres, row);
    let start = match row.turn() {
        Some(turn) => last.min(usize::from(turn.step) - 1),
        None => last,
    };
    &row.sections()[start..]
}

/// Where the shortest end of the move's route that is as long as the train begins, counted from 0.
fn shortest_end(tables: &Tables, metres: u32, row: &LentMove<'_>) -> usize
    requires tables { IsPlannable tables.now }
    requires fine { IsTrue (is_move_in_range (length tables.now.sections) row.now) }
    ensures within { result ≤ length row.now.sections }
    ensures sections { drop result row.now.sections ≡ shortest_end (bare tables.now) metres row.now.sections }
{
    let route = row.sections();
    let mut rest = route_length(tables, row);
    for (start, section) in route.iter().enumerate() {
        let length = section_row(tables, *section).length;
        if rest - length < metres {
            return start;
        }
        rest -= length;
    }
    route.len()
}

/// The metres of the sections of the move's route together.
pub fn route_length(tables: &Tables, row: &LentMove<'_>) -> u32
    requires tables { IsPlannable tables.now }
    requires fine { IsTrue (is_move_in_range (length tables.now.sections) row.now) }
    ensures { result ≡ metres_of (bare tables.now) row.now.sections }
{
    let mut metres = 0;
    for section in row.sections() {
        metres += section_row(tables, *section).length;
    }
    metres
}

/// The first section that the move claims and that stands in the list.
pub fn first_claimed(row: &LentMove<'_>, stand: &[SectionNo]) -> Option<SectionNo>
    ensures { result ≡ find (λ x. is_in x stand.now) (row.now.sections ++ row.now.overlap) }
{
    first_common(row.sections(), stand).or(first_common(row.overlap(), stand))
}

/// The first claimed section on which the train stands. Both lists have the sections of one route at
/// most, so each claimed section is looked for in the whole of the other list.
fn first_common(claim: &[SectionNo], stand: &[SectionNo]) -> Option<SectionNo>
    ensures { result ≡ find (λ x. is_in x stand.now) claim.now }
{
    claim
        .iter()
        .copied()
        .find(|section| stand.contains(section))
}
