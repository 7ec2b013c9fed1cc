//! The times that are carried from move to move.

ghost use Rattle.std.specs.Prelude.{◌≡◌, ◌==◌, ◌&&◌, not, ℕ, ◌+◌, ◌-◌, ◌<◌, ◌≤◌, ◌^◌, ◌∷◌, ◌++◌, [], List, length, max};
ghost use Rattle.rail_rules.specs.Plant.{is_forced, moves, trains};
ghost use Rattle.rail_block.specs.CarriedTimes.{AreBelow, ready_after, times_at};
ghost use Rattle.rail_block.specs.KnownMoves.{of_move};

use crate::moves::KnownMove;
use crate::running::may_be_run;
use rail_base::{Time, TrainNo};
use rail_plan::Plant;

/// The times of a train's move that later times depend on.
#[derive(Clone, Copy, Debug, PartialEq, Eq)]
pub struct MoveTimes {
    /// When the move was admitted; 0 at the entry.
    pub admitted: Time,
    /// The train passes the beginning of the move without a stop.
    pub passes: bool,
    /// When the move begins; 0 at the entry.
    pub go: Time,
    /// When the head reaches the end of the move if the train doesn't stop there.
    pub free_run: Time,
    /// When the train is ready for its next move; after the last move it is `free_run`.
    pub next_ready: Time,
}

/// The times of the train at place 0, before its first move.
pub fn entry_times(plant: &Plant, train: TrainNo) -> MoveTimes
    requires { train < trains plant.now }
    ensures times { (adms : List ℕ) → result ≡ times_at plant.now train adms 0 }
    ensures early { AreBelow (2 ^ 26) result }
{
    may_be_run(plant);
    let entry = plant.train(train).entry;
    let first = KnownMove::new(plant, train, 1);
    MoveTimes {
        admitted: Time(0),
        passes: false,
        go: Time(0),
        free_run: entry,
        next_ready: first.ready_time(Time(0), entry),
    }
}

/// The times of the train's move to this place, which is admitted at `admitted`. `before` is the times
/// of the place before: of the move before, or those of the entry.
#[inline(always)]
pub fn times_of(
    plant: &Plant,
    train: TrainNo,
    place: u16,
    admitted: Time,
    before: &MoveTimes,
) -> MoveTimes
    requires train { train < trains plant.now }
    requires first { 1 ≤ place }
    requires last { place ≤ moves plant.now train }
    requires admitted { admitted < 2 ^ 51 }
    requires times { AreBelow (2 ^ 51) before.now }
    requires ready { before.now.next_ready ≤ admitted }
    ensures times { (adms : List ℕ) → length adms ≡ place - 1
        → before.now ≡ times_at plant.now train adms (place - 1)
        → result ≡ times_at plant.now train (adms ++ admitted ∷ []) place }
    ensures soon { AreBelow (max admitted before.now.free_run + 2 ^ 28) result }
{
    let known = KnownMove::new(plant, train, place);
    let passes = known.does_pass(admitted, before.next_ready);
    let go = known.start_time(before.free_run, admitted, passes);
    let free_run = known.head_time(go, passes, known.steps());
    MoveTimes {
        admitted,
        passes,
        go,
        free_run,
        next_ready: known.next_ready(admitted, free_run),
    }
}

impl KnownMove<'_> {
    /// The train passes the beginning of the move, for which it is ready at `ready`, if the move is admitted
    /// at `admitted`.
    fn does_pass(&self, admitted: Time, ready: Time) -> bool
        ensures { result ≡ (not (of_move is_forced self.now) && (admitted == ready)) }
    {
        !self.begins_forced() && admitted == ready
    }

    /// When the train is ready for the move after this one, which was admitted at `admitted`; after the last
    /// move it is the time at which the head reaches the end.
    fn next_ready(&self, admitted: Time, free_run: Time) -> Time
        requires { free_run < 2 ^ 52 }
        ensures time { result ≡ of_move ready_after self.now admitted free_run }
        ensures soon { result ≤ max admitted (free_run + 2 ^ 25) }
    {
        if self.place < self.last_place() {
            let next = KnownMove::new(self.plant, self.train, self.place + 1);
            next.ready_time(admitted, free_run)
        } else {
            free_run
        }
    }
}
