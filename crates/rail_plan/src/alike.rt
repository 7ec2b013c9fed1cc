//! Trains that are alike: they make the same moves and are as long, so they stand on the same sections behind each move.

ghost use Rattle.std.specs.Prelude.{◌≡◌, ◌<◌, get_or, length, IfSome, IsTrue};
ghost use Rattle.std.specs.Bool.{Decides};
ghost use Rattle.std.specs.List.{All};
ghost use Rattle.rail_rules.specs.Plant.{no_train};
ghost use Rattle.rail_plan.specs.Alike.{AreAlike};
ghost use Rattle.rail_plan.specs.PlanFaults.{IsPlannable};

use crate::rows::train_row;
use rail_base::{MoveRow, SectionNo, Tables, TrainNo, TrainRow, TurnRow};

/// The last of these trains, which stand before the train, that is like it. So it costs the moves of these trains at most.
pub fn train_like(tables: &Tables, kept: &[TrainNo], train: TrainNo) -> Option<TrainNo>
    requires tables { IsPlannable tables.now }
    requires train { train < length tables.now.trains }
    requires kept { All (λ k. k < train) kept.now }
    ensures before { IfSome result (λ first. first < train) }
    ensures alike { IfSome result (λ first. AreAlike (get_or tables.now.trains first no_train) (get_or tables.now.trains train no_train)) }
{
    let row = train_row(tables, train);
    for first in kept {
        if are_alike(train_row(tables, *first), row) {
            return Some(*first);
        }
    }
    None
}

/// Whether the trains make the same moves and are as long.
fn are_alike(row: &TrainRow, other: &TrainRow) -> bool
    ensures { IsTrue result → AreAlike row.now other.now }
{
    row.kind.length == other.kind.length && are_same(row.moves.as_slice(), other.moves.as_slice())
}

/// Whether the moves are the same, in the same order.
fn are_same(rows: &[MoveRow], others: &[MoveRow]) -> bool
    ensures { IsTrue result → rows.now ≡ others.now }
{
    if rows.len() != others.len() {
        return false;
    }
    for (index, row) in rows.iter().enumerate() {
        if !is_same(row, &others[index]) {
            return false;
        }
    }
    true
}

/// Whether the moves are the same.
fn is_same(row: &MoveRow, other: &MoveRow) -> bool
    ensures { IsTrue result → row.now ≡ other.now }
{
    have_same(row.sections.as_slice(), other.sections.as_slice())
        && have_same(row.overlap.as_slice(), other.overlap.as_slice())
        && row.setting == other.setting
        && row.watching == other.watching
        && row.approach == other.approach
        && are_one(row.turn, other.turn)
}

/// Whether the sections are the same, in the same order.
fn have_same(sections: &[SectionNo], others: &[SectionNo]) -> bool
    ensures { Decides result (sections.now ≡ others.now) }
{
    sections == others
}

/// Whether the turns are one, or both are none.
fn are_one(turn: Option<TurnRow>, other: Option<TurnRow>) -> bool
    ensures { Decides result (turn ≡ other) }
{
    turn == other
}
