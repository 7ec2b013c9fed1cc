//! The runs of a kept list: entries of one train that stand side by side.

ghost use Rattle.std.specs.Prelude.{◌≡◌, ℕ, List, ◌∷◌, suc, ◌+◌, ◌<◌, ◌≤◌, ◌++◌, drop, length, slice_index, vec_len, vec_capacity};
ghost use Rattle.std.specs.List.{remove};
ghost use Rattle.rail_list.specs.KeptLists.{AreRuns, before_first, counts_of_run, entries_at_start};

use rail_base::{TrainNo, add_copies, repeats};

/// Adds the counts for a run of so many entries at the end.
pub fn add_run(runs: &mut Vec<u16>, count: u16)
    requires { vec_len runs.old + count ≤ vec_capacity runs.old }
    ensures rows { runs.new.items ≡ runs.old.items ++ counts_of_run count }
    ensures room { vec_capacity runs.new ≡ vec_capacity runs.old }
{
    if count > 0 {
        runs.push_reserved(count);
        add_copies(runs, 1, usize::from(count - 1));
    }
}

/// Counts the runs of the list: at the first entry of each how many entries it has, at most 2^16 - 1. All other counts are 1.
pub fn count_runs(list: &[TrainNo], runs: &mut [u16])
    requires { length runs.old ≡ length list.now }
    ensures runs { AreRuns list.now runs.new }
    ensures len { length runs.new ≡ length runs.old }
{
    runs.fill(1);
    let mut start = 0;
    while start < list.len() {
        let count = run_at_start(&list[start..]);
        runs[start] = count;
        start += usize::from(count);
    }
}

/// Of how many entries the list, which has one, begins with a run, at most 2^16 - 1.
fn run_at_start(list: &[TrainNo]) -> u16
    requires { 1 ≤ length list.now }
    ensures some { 1 ≤ result }
    ensures run { result ≤ entries_at_start (slice_index list.now 0) list.now }
    ensures within { result ≤ length list.now }
{
    let count = repeats(list[0], list).min(usize::from(u16::MAX));
    count as u16
}

/// There are then so many counts: those that there were are kept, and others are 1.
pub fn fit(runs: &mut Vec<u16>, count: usize)
    requires { count ≤ vec_capacity runs.old }
    ensures len { vec_len runs.new ≡ count }
    ensures room { vec_capacity runs.new ≡ vec_capacity runs.old }
{
    runs.truncate(count);
    let more = count - runs.len();
    add_copies(runs, 1, more);
}

/// The run of an entry is then told by the entry behind it, where it has one in the run. The list and its counts begin at
/// the front, and so many entries stand before that entry.
pub fn pass_on(list: &[TrainNo], runs: &mut Vec<u16>, front: usize, before: usize)
    requires within { front + before < length list.now }
    requires long { vec_len runs.old ≡ length list.now }
    requires runs { AreRuns (drop front list.now) (drop front runs.old.items) }
    ensures runs { AreRuns (drop front list.now) (drop front runs.new.items) }
    ensures len { vec_len runs.new ≡ vec_len runs.old }
    ensures room { vec_capacity runs.new ≡ vec_capacity runs.old }
{
    let count = runs[front + before];
    if count > 1 {
        runs[front + before + 1] = count - 1;
    }
}

/// Takes out the train's first entry, before which so many stand, of the list that begins at the front. The runs before it
/// are moved back by one place, so that the list begins one place later. Of a run only the ends change: one place behind its
/// last entry it has one more, and its first place is that of the run before.
pub fn close_gap(trains: &mut Vec<TrainNo>, runs: &mut Vec<u16>, front: usize, before: usize)
    requires within { front + before < vec_len trains.old }
    requires beside { vec_len runs.old ≡ vec_len trains.old }
    requires runs { AreRuns (drop front trains.old.items) (drop front runs.old.items) }
    requires first { let list = drop front trains.old.items in before ≡ length (before_first (slice_index list before) list) }
    ensures trains { drop (front + 1) trains.new.items ≡ remove (drop front trains.old.items) before }
    ensures runs { AreRuns (drop (front + 1) trains.new.items) (drop (front + 1) runs.new.items) }
    ensures len { vec_len trains.new ≡ vec_len trains.old }
    ensures beside { vec_len runs.new ≡ vec_len trains.old }
    ensures room { vec_capacity trains.new ≡ vec_capacity trains.old }
    ensures room_of_runs { vec_capacity runs.new ≡ vec_capacity runs.old }
{
    let mut index = front;
    let mut train = trains[front];
    let mut count = runs[front];
    while index < front + before {
        let next = index + usize::from(count);
        let next_train = trains[next];
        let next_count = runs[next];
        trains[next] = train;
        runs[next] = 1;
        runs[index + 1] = count;
        index = next;
        train = next_train;
        count = next_count;
    }
}
