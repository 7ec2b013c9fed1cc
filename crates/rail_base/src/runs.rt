//! Trains in a row.

ghost use Rattle.std.specs.Prelude.{◌≡◌, ℕ, ◌+◌, ◌<◌, ◌≤◌, get_or, length, nat_eq, IsTrue};
ghost use Rattle.std.specs.List.{prefix_len};
ghost use Rattle.rail_base.specs.declared.runs.TheConstants.{STRIDE};

use crate::numbers::TrainNo;

/// So many entries are compared at once.
const STRIDE: usize = 8;

/// How often the train stands at the front of the list without another between. Entries are compared some at once.
pub fn repeats(train: TrainNo, list: &[TrainNo]) -> usize
    ensures count { result ≡ prefix_len (nat_eq train) list.now }
    ensures few { result ≤ length list.now }
{
    let mut count = 0;
    while count + STRIDE <= list.len() && are_all(train, list, count) {
        count += STRIDE;
    }
    while count < list.len() && list[count] == train {
        count += 1;
    }
    count
}

/// Whether so many entries from this one on are the train.
fn are_all(train: TrainNo, list: &[TrainNo], from: usize) -> bool
    requires { from + STRIDE ≤ length list.now }
    ensures { IsTrue result → (k : ℕ) → from ≤ k → k < from + STRIDE → get_or list.now k 0 ≡ train }
{
    let mut same = true;
    for index in from..from + STRIDE {
        same &= list[index] == train;
    }
    same
}
