//! Blocking intervals with their nine parts.

ghost use Rattle.std.specs.Prelude.{◌≡◌, ℕ, ◌+◌, ◌-◌, ◌<◌, ◌≤◌, ◌^◌, ◌==◌, ◌&&◌, not, cond, List, Some, None};
ghost use Rattle.std.specs.Option.{ForSome, option_copied};
ghost use Rattle.rail_rules.specs.Intervals.{does_stand, interval_of, is_open, is_undecided, parts_of, standing_part};
ghost use Rattle.rail_rules.specs.Plant.{claims, is_forced, move_row, moves, steps, trains};
ghost use Rattle.rail_rules.specs.Times.{enter, leave};
ghost use Rattle.rail_block.specs.CarriedTimes.{AreBelow, AreTimes};
ghost use Rattle.rail_block.specs.KnownMoves.{AreTimesOf, of_move, of_place, of_step, timed_step};

use crate::ends::cleared_from;
use crate::moves::{KnownMove, KnownOver, KnownStep};
use crate::running::{after, between};
use crate::times::MoveTimes;
use rail_base::{Interval, Parts, TrainNo};
use rail_plan::Plant;

/// The blocking interval of the section of the step, counted from 1, by the train's move to this place; behind its steps come
/// the sections of the overlap, whose intervals have an end and no parts.
/// `times` is the times of the move, `next` those of the next one where that is admitted. Without them
/// the interval of a section on which the train stands is open: it has no end and no standing part, and
/// the running part of the last step is undecided where the train may pass.
pub fn interval_of(
    plant: &Plant,
    train: TrainNo,
    place: u16,
    step: u16,
    times: &MoveTimes,
    next: Option<&MoveTimes>,
) -> Interval
    requires train { train < trains plant.now }
    requires first { 1 ≤ place }
    requires last { place ≤ moves plant.now train }
    requires first_step { 1 ≤ step }
    requires last_step { step ≤ claims plant.now train (place - 1) }
    requires times { AreBelow (2 ^ 51) times.now }
    requires next { ForSome (option_copied next) (AreBelow (2 ^ 51)) }
    ensures { (adms : List ℕ) → AreTimes plant.now train adms place times.now (option_copied next.entry)
        → result ≡ interval_of plant.now train adms (place - 1) (step - 1) }
{
    let known = KnownMove::new(plant, train, place);
    if step <= known.steps() {
        let known_step = KnownStep::new(&known, step);
        return known_step.interval(times, next);
    }
    let known_over = KnownOver::new(&known, step);
    known_over.interval(times, next)
}

impl KnownMove<'_> {
    /// The approach where the train passes the beginning of the move, else 0.
    fn approach_part(&self, passes: bool) -> u64
        ensures time { result ≡ cond passes (of_move move_row self.now).approach 0 }
        ensures short { result ≤ 2 ^ 16 }
    {
        if passes {
            u64::from(self.row().approach)
        } else {
            0
        }
    }

    /// From the end of the parts before to the beginning of the move.
    fn waiting_part(&self, times: &MoveTimes) -> u64
        requires { AreBelow (2 ^ 51) times.now }
        ensures { result ≡ times.now.go - (times.now.admitted + (of_move move_row self.now).setting
            + (of_move move_row self.now).watching + cond times.now.passes (of_move move_row self.now).approach 0) }
    {
        let row = self.row();
        let signal = u64::from(row.setting) + u64::from(row.watching);
        let signalled = after(times.admitted, signal + self.approach_part(times.passes));
        between(signalled, times.go)
    }
}

impl KnownStep<'_> {
    /// The blocking interval of the section of the step.
    fn interval(&self, times: &MoveTimes, next: Option<&MoveTimes>) -> Interval
        requires times { AreBelow (2 ^ 51) times.now }
        requires next { ForSome (option_copied next) (AreBelow (2 ^ 51)) }
        ensures { (adms : List ℕ) → AreTimesOf self.now.of.now adms times.now (option_copied next.entry)
            → result ≡ timed_step interval_of self.now adms }
    {
        Interval {
            section: self.section(),
            train: self.of.train,
            place: self.of.place,
            begin: times.admitted,
            end: self.end_of(times, next),
            parts: self.parts(times, next),
        }
    }

    /// The nine parts of the interval.
    fn parts(&self, times: &MoveTimes, next: Option<&MoveTimes>) -> Parts
        requires times { AreBelow (2 ^ 51) times.now }
        requires next { ForSome (option_copied next) (AreBelow (2 ^ 51)) }
        ensures { (adms : List ℕ) → AreTimesOf self.now.of.now adms times.now (option_copied next.entry)
            → result ≡ timed_step parts_of self.now adms }
    {
        let row = self.of.row();
        let entered = self.of.reach_time(times, self.step - 1);
        Parts {
            setting: Some(u64::from(row.setting)),
            watching: Some(u64::from(row.watching)),
            approach: Some(self.of.approach_part(times.passes)),
            waiting: Some(self.of.waiting_part(times)),
            earlier: Some(between(times.go, entered)),
            running: self.running_part(times, next),
            standing: self.standing_part(times, next),
            clearing: Some(self.clear_time()),
            release: Some(u64::from(self.of.plant.release())),
        }
    }

    /// The train stands on the section, and its next move is not admitted.
    fn is_open(&self, admitted: bool) -> bool
        ensures { result ≡ (of_step does_stand self.now && not admitted) }
    {
        self.does_stand() && !admitted
    }

    /// The running part is undecided: the interval is open, and the train may pass at the end of the step.
    fn is_undecided(&self, admitted: bool) -> bool
        ensures { result ≡ (of_step does_stand self.now && not admitted
            && (self.now.step == of_move steps self.now.of.now) && not (of_place is_forced self.now.of.now)) }
    {
        self.is_open(admitted) && self.step == self.of.steps() && !self.of.is_forced()
    }

    /// From the head's entering the section to its leaving it, where that is decided.
    fn running_part(&self, times: &MoveTimes, next: Option<&MoveTimes>) -> Option<u64>
        requires times { AreBelow (2 ^ 51) times.now }
        requires next { ForSome (option_copied next) (AreBelow (2 ^ 51)) }
        ensures { (adms : List ℕ) → AreTimesOf self.now.of.now adms times.now (option_copied next.entry)
            → result ≡ cond (timed_step is_undecided self.now adms) None
            (Some (timed_step leave self.now adms - timed_step enter self.now adms)) }
    {
        if self.is_undecided(next.is_some()) {
            return None;
        }
        let entered = self.of.reach_time(times, self.step - 1);
        let left = self.leave_time(times, next);
        Some(between(entered, left))
    }

    /// From the head's leaving the section, where the train stands on it, to the start of the next move;
    /// undecided while that is not admitted.
    fn standing_part(&self, times: &MoveTimes, next: Option<&MoveTimes>) -> Option<u64>
        requires times { AreBelow (2 ^ 51) times.now }
        requires next { ForSome (option_copied next) (AreBelow (2 ^ 51)) }
        ensures { (adms : List ℕ) → AreTimesOf self.now.of.now adms times.now (option_copied next.entry)
            → result ≡ cond (timed_step is_open self.now adms) None (Some (timed_step standing_part self.now adms)) }
    {
        if !self.does_stand() {
            return Some(0);
        }
        let left = self.leave_time(times, next);
        match next {
            Some(next) => Some(between(left, cleared_from(self.of.plant, self.of.train, next))),
            None => None,
        }
    }
}
