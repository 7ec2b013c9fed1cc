//! The rows of tables by their numbers.

ghost use Rattle.std.specs.Prelude.{◌≡◌, ◌-◌, ◌<◌, ◌≤◌, length, IsTrue};
ghost use Rattle.rail_rules.specs.Accepted.{is_move_in_range};
ghost use Rattle.rail_rules.specs.Plant.{move_row, moves, section, train};
ghost use Rattle.rail_plan.specs.PlanFaults.{IsPlannable, bare};

use rail_base::limits::ITINERARY_ROUTES;
use rail_base::{MoveRow, SectionNo, SectionRow, Tables, TrainNo, TrainRow};

/// The section of this number.
pub fn section_row(tables: &Tables, number: SectionNo) -> &SectionRow
    requires { number < length tables.now.sections }
    ensures { result.now ≡ section (bare tables.now) number }
{
    &tables.sections.as_slice()[usize::from(number.0)]
}

/// The train of this number.
pub fn train_row(tables: &Tables, number: TrainNo) -> &TrainRow
    requires tables { IsPlannable tables.now }
    requires train { number < length tables.now.trains }
    ensures row { result.now ≡ train (bare tables.now) number }
    ensures few { length result.now.moves ≤ ITINERARY_ROUTES }
{
    &tables.trains.as_slice()[usize::from(number.0)]
}

/// The move of the train that leads to this place, which counts from 1.
pub fn move_row(tables: &Tables, number: TrainNo, place: u16) -> &MoveRow
    requires tables { IsPlannable tables.now }
    requires train { number < length tables.now.trains }
    requires first { 1 ≤ place }
    requires last { place ≤ moves (bare tables.now) number }
    ensures row { result.now ≡ move_row (bare tables.now) number (place - 1) }
    ensures fine { IsTrue (is_move_in_range (length tables.now.sections) result.now) }
{
    &train_row(tables, number).moves.as_slice()[usize::from(place) - 1]
}
