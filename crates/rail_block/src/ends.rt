//! When a train arrives, leaves a section and clears it.

ghost use Rattle.std.specs.Prelude.{◌≡◌, ℕ, ◌+◌, ◌<◌, ◌≤◌, ◌^◌, List, Option, Some, false, true};
ghost use Rattle.std.specs.Option.{ForSome, option_copied};
ghost use Rattle.rail_rules.specs.Intervals.{does_stand, end_of, end_time};
ghost use Rattle.rail_rules.specs.Plant.{moves, trains};
ghost use Rattle.rail_rules.specs.Times.{arrive, leave, out, start_loss, stop_at, stop_time};
ghost use Rattle.rail_block.specs.CarriedTimes.{AreBelow};
ghost use Rattle.rail_block.specs.KnownMoves.{AreTimesOf, of_step, own_times, timed, timed_step, times_after};
ghost use Rattle.rail_block.specs.Steps.{step_clearing};

use crate::moves::{KnownMove, KnownStep};
use crate::running::{after, start_loss};
use crate::signals::stop_time;
use crate::times::MoveTimes;
use rail_base::{Time, TrainNo};
use rail_plan::Plant;

/// When the train begins to clear the sections on which it stands before the move whose times these are.
pub fn cleared_from(plant: &Plant, train: TrainNo, next: &MoveTimes) -> Time
    requires train { train < trains plant.now }
    requires next { AreBelow (2 ^ 51) next.now }
    ensures time { result ≡ next.now.go + start_loss plant.now train next.now.passes }
    ensures soon { result ≤ next.now.go + 6000 }
{
    after(next.go, start_loss(plant, train, next.passes))
}

impl KnownMove<'_> {
    /// When the train would stand at the end of the move, whose times these are.
    pub fn stop_at(&self, times: &MoveTimes) -> Time
        requires { AreBelow (2 ^ 51) times.now }
        ensures stop { result ≡ stop_time self.now.plant.now self.now.train times.now.free_run }
        ensures time { (adms : List ℕ) → times.now ≡ own_times self.now adms → result ≡ timed stop_at self.now adms }
        ensures soon { result ≤ times.now.free_run + 6000 }
    {
        stop_time(self.plant, self.train, times.free_run)
    }

    /// When the train arrives at the end of the move, whose times are `times`; `next` is the times of the
    /// next move where that is admitted.
    pub fn arrive_time(&self, times: &MoveTimes, next: Option<&MoveTimes>) -> Time
        requires times { AreBelow (2 ^ 51) times.now }
        requires next { ForSome (option_copied next) (AreBelow (2 ^ 51)) }
        ensures time { (adms : List ℕ) → AreTimesOf self.now adms times.now (option_copied next.entry)
            → result ≡ timed arrive self.now adms }
        ensures below { result < 2 ^ 52 }
    {
        if self.place == self.last_place() {
            return times.free_run;
        }
        match next {
            Some(next) => {
                if next.passes {
                    next.go
                } else {
                    self.stop_at(times)
                }
            }
            None => self.stop_at(times),
        }
    }

    /// When the whole train is out, if this is its last move; `times` is the times of the move.
    pub fn out_time(&self, times: &MoveTimes) -> Time
        requires { AreBelow (2 ^ 51) times.now }
        ensures time { self.now.place ≡ moves self.now.plant.now self.now.train → (adms : List ℕ)
            → times.now ≡ own_times self.now adms → result ≡ timed out self.now adms }
        ensures soon { result ≤ times.now.free_run + 2 ^ 22 }
    {
        let last = KnownStep::new(&*self, self.steps());
        after(times.free_run, last.clear_time())
    }
}

impl KnownStep<'_> {
    /// When the head of the train leaves the section of the step, where `times` is the times of the move;
    /// `next` is the times of the next move where that is admitted.
    pub fn leave_time(&self, times: &MoveTimes, next: Option<&MoveTimes>) -> Time
        requires times { AreBelow (2 ^ 51) times.now }
        requires next { ForSome (option_copied next) (AreBelow (2 ^ 51)) }
        ensures time { (adms : List ℕ) → AreTimesOf self.now.of.now adms times.now (option_copied next.entry)
            → result ≡ timed_step leave self.now adms }
        ensures below { result < 2 ^ 52 }
    {
        if self.step == self.of.steps() {
            self.of.arrive_time(times, next)
        } else {
            self.of.reach_time(times, self.step)
        }
    }

    /// The train stands on the section of the step after the move.
    pub fn does_stand(&self) -> bool
        ensures { result ≡ of_step does_stand self.now }
    {
        let section = self.section();
        self.of.stand().contains(&section)
    }

    /// When the interval of the section of the step ends if the train begins to clear the section at `from`.
    fn end_from(&self, from: Time) -> Time
        requires { from < 2 ^ 53 }
        ensures { result ≡ from + of_step step_clearing self.now + self.now.of.now.plant.now.tables.release }
    {
        after(from, self.clear_time() + u64::from(self.of.plant.release()))
    }

    /// When the interval of the section of the step ends, where the train doesn't stand on it; `left` is when
    /// its head leaves the section.
    pub fn end_when_left(&self, left: Time) -> Time
        requires { left < 2 ^ 52 }
        ensures { of_step does_stand self.now ≡ false → (adms : List ℕ) → left ≡ timed_step leave self.now adms
            → result ≡ timed_step end_time self.now adms }
    {
        self.end_from(left)
    }

    /// When the interval of the section of the step ends, where the train stands on it; `next` is the times
    /// of the next move.
    pub fn end_when_stood(&self, next: &MoveTimes) -> Time
        requires { AreBelow (2 ^ 51) next.now }
        ensures { of_step does_stand self.now ≡ true → (adms : List ℕ) → next.now ≡ times_after self.now.of.now adms
            → result ≡ timed_step end_time self.now adms }
    {
        self.end_from(cleared_from(self.of.plant, self.of.train, next))
    }

    /// When the interval of the section of the step ends; `None` while it is open. `times` is the times of the
    /// move, `next` those of the next one where that is admitted.
    pub fn end_of(&self, times: &MoveTimes, next: Option<&MoveTimes>) -> Option<Time>
        requires times { AreBelow (2 ^ 51) times.now }
        requires next { ForSome (option_copied next) (AreBelow (2 ^ 51)) }
        ensures { (adms : List ℕ) → AreTimesOf self.now.of.now adms times.now (option_copied next.entry)
            → result ≡ timed_step end_of self.now adms }
    {
        if self.does_stand() {
            return match next {
                Some(next) => Some(self.end_when_stood(next)),
                None => None,
            };
        }
        let left = self.leave_time(times, next);
        Some(self.end_when_left(left))
    }
}
