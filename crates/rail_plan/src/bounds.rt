//! How many lines a history has at most.

ghost use Rattle.std.specs.Prelude.{◌≡◌, ◌<◌, ◌≤◌, length};
ghost use Rattle.rail_base.specs.declared.limits.TheConstants.{COMMANDS, TRAIN_LINES};
ghost use Rattle.rail_rules.specs.Plant.{bound, train};
ghost use Rattle.rail_plan.specs.PlanFaults.{IsPlannable, bare};
ghost use Rattle.rail_plan.specs.MoveLineCounts.{lines_of};

use crate::rows::train_row;
use rail_base::{Tables, TrainNo};

/// How many lines a history has at most, hold lines aside.
pub fn event_bound(tables: &Tables, commands: u64) -> u64
    requires tables { IsPlannable tables.now }
    requires few { commands ≤ COMMANDS }
    ensures { result ≡ bound (bare tables.now) commands }
{
    let trains = tables.trains.as_slice().len();
    let mut lines = 0;
    for index in 0..trains {
        lines += train_lines(tables, TrainNo(index as u16));
    }
    lines + trains as u64 + commands + 1
}

/// How many lines the moves of a train have: for each an admission, a ready line and an arrival, for each needed
/// section that it is entered, and for each that it claims that it is freed.
fn train_lines(tables: &Tables, number: TrainNo) -> u64
    requires tables { IsPlannable tables.now }
    requires train { number < length tables.now.trains }
    ensures lines { result ≡ lines_of (train (bare tables.now) number) }
    ensures few { result ≤ TRAIN_LINES }
{
    let mut lines = 0;
    for row in train_row(tables, number).moves.as_slice() {
        let needed = row.sections.as_slice().len() as u64;
        let claimed = needed + row.overlap.as_slice().len() as u64;
        lines += needed + claimed + 3;
    }
    lines
}
