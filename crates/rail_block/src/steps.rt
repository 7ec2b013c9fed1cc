//! When the head of a train enters the sections of a move.

ghost use Rattle.std.specs.Prelude.{◌≡◌, ℕ, ◌+◌, ◌-◌, ◌<◌, ◌≤◌, ◌^◌, List};
ghost use Rattle.rail_rules.specs.Plant.{moves, steps, trains};
ghost use Rattle.rail_rules.specs.Times.{enter, head_time};
ghost use Rattle.rail_block.specs.CarriedTimes.{AreBelow, times_at};
ghost use Rattle.rail_block.specs.KnownMoves.{of_move, own_times, timed, timed_step};

use crate::moves::{KnownMove, KnownStep};
use crate::running::{after, start_loss};
use crate::times::MoveTimes;
use rail_base::{Time, TrainNo};
use rail_plan::Plant;

impl KnownMove<'_> {
    /// When the head has run over the first sections of the move, so many, which began at `begun`.
    pub(crate) fn head_time(&self, begun: Time, passes: bool, count: u16) -> Time
        requires within { count ≤ of_move steps self.now }
        requires time { begun < 2 ^ 53 }
        ensures time { result ≡ of_move head_time self.now begun passes count }
        ensures soon { result ≤ begun + (2 ^ 27 + 6000) }
    {
        if count == 0 {
            return begun;
        }
        let lost = start_loss(self.plant, self.train, passes);
        after(begun, lost + self.run_over(count))
    }

    /// When the head has run over the first sections of the move whose times these are, so many: then it enters the next
    /// one. The work grows with the number of sections.
    pub fn reach_time(&self, times: &MoveTimes, count: u16) -> Time
        requires times { AreBelow (2 ^ 51) times.now }
        requires within { count ≤ of_move steps self.now }
        ensures time { (adms : List ℕ) → times.now ≡ own_times self.now adms → result ≡ timed enter self.now adms count }
        ensures soon { result ≤ times.now.go + 2 ^ 28 }
    {
        self.head_time(times.go, times.passes, count)
    }
}

impl KnownStep<'_> {
    /// When the head of the train enters the section after the step of the move whose times these are; it
    /// entered the section of the step at `entered`. After the last step it is the time at which the head
    /// reaches the end of the move. So a caller that begins with `times.go` at step 1 has each time in
    /// turn, with the work of one step.
    pub fn next_enter_time(&self, times: &MoveTimes, entered: Time) -> Time
        requires { entered < 2 ^ 52 }
        ensures time { (adms : List ℕ) → times.now ≡ own_times self.now.of.now adms → entered ≡ timed_step enter self.now adms
            → result ≡ timed enter self.now.of.now adms self.now.step }
        ensures soon { result ≤ entered + 2 ^ 23 }
    {
        let lost = if self.step == 1 {
            start_loss(self.of.plant, self.of.train, times.passes)
        } else {
            0
        };
        after(entered, lost + self.run_time())
    }
}
