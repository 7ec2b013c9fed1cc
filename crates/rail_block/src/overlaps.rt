//! When the sections of an overlap are given free or taken over.

ghost use Rattle.std.specs.Prelude.{◌≡◌, ℕ, ◌+◌, ◌<◌, ◌≤◌, ◌^◌, length, List};
ghost use Rattle.std.specs.Option.{ForSome, option_copied};
ghost use Rattle.rail_rules.specs.Intervals.{end_time, interval_of, no_parts, timer_end};
ghost use Rattle.rail_rules.specs.Numbers.{is_in};
ghost use Rattle.rail_rules.specs.Plant.{claimed, step_section};
ghost use Rattle.rail_block.specs.CarriedTimes.{AreBelow};
ghost use Rattle.rail_block.specs.declared.times.MoveTimes.{MoveTimes};
ghost use Rattle.rail_block.specs.KnownMoves.{AreTimesOf, of_over, of_place, taken_at, timed, timed_over};

use crate::moves::{KnownMove, KnownOver};
use crate::running::after;
use crate::times::MoveTimes;
use rail_base::{Interval, Parts, SectionNo, Time};

impl KnownMove<'_> {
    /// When the timer of the overlap runs out, which runs from the arrival at the end of the move. `times` is the times of
    /// the move, `next` those of the next one where that is admitted.
    pub fn timer_end(&self, times: &MoveTimes, next: Option<&MoveTimes>) -> Time
        requires times { AreBelow (2 ^ 51) times.now }
        requires next { ForSome (option_copied next) (AreBelow (2 ^ 51)) }
        ensures time { (adms : List ℕ) → AreTimesOf self.now adms times.now (option_copied next.entry)
            → result ≡ timed timer_end self.now adms }
        ensures below { result < 2 ^ 53 }
    {
        let arrived = self.arrive_time(times, next);
        after(arrived, u64::from(self.plant.overlap_time()))
    }
}

impl KnownOver<'_> {
    /// The section.
    fn section(&self) -> SectionNo
        ensures section { result ≡ of_over step_section self.now }
        ensures known { result < length self.now.of.now.plant.now.tables.sections }
    {
        let row = self.of.row();
        let needed = row.sections.as_slice().len();
        row.overlap.as_slice()[usize::from(self.step) - needed - 1]
    }

    /// The next move claims the section.
    fn is_claimed_next(&self) -> bool
        ensures { result ≡ is_in (of_over step_section self.now) (of_place claimed self.now.of.now) }
    {
        if self.of.place == self.of.last_place() {
            return false;
        }
        let section = self.section();
        self.of
            .plant
            .moves()
            .claims(self.of.train, self.of.place + 1, section)
    }

    /// When the next move takes the section over, where it does: as it is admitted, if it claims the section and the timer
    /// hasn't run out, which runs out at `timer`.
    pub fn taken_at(&self, timer: Time, next: Option<&MoveTimes>) -> Option<Time>
        ensures { (adms : List ℕ) → (times : MoveTimes) → AreTimesOf self.now.of.now adms times (option_copied next.entry)
            → timer ≡ timed timer_end self.now.of.now adms → result ≡ timed_over taken_at self.now adms }
    {
        match next {
            Some(next) => {
                if next.admitted < timer && self.is_claimed_next() {
                    Some(next.admitted)
                } else {
                    None
                }
            }
            None => None,
        }
    }

    /// When the interval of the section ends: as the next move takes it over, else with the timer.
    fn end_time(&self, times: &MoveTimes, next: Option<&MoveTimes>) -> Time
        requires times { AreBelow (2 ^ 51) times.now }
        requires next { ForSome (option_copied next) (AreBelow (2 ^ 51)) }
        ensures { (adms : List ℕ) → AreTimesOf self.now.of.now adms times.now (option_copied next.entry)
            → result ≡ timed_over end_time self.now adms }
    {
        let timer = self.of.timer_end(times, next);
        self.taken_at(timer, next).unwrap_or(timer)
    }

    /// The blocking interval of the section, which has no parts.
    pub fn interval(&self, times: &MoveTimes, next: Option<&MoveTimes>) -> Interval
        requires times { AreBelow (2 ^ 51) times.now }
        requires next { ForSome (option_copied next) (AreBelow (2 ^ 51)) }
        ensures { (adms : List ℕ) → AreTimesOf self.now.of.now adms times.now (option_copied next.entry)
            → result ≡ timed_over interval_of self.now adms }
    {
        Interval {
            section: self.section(),
            train: self.of.train,
            place: self.of.place,
            begin: times.admitted,
            end: Some(self.end_time(times, next)),
            parts: without_parts(),
        }
    }
}

/// The parts of an interval of an overlap: none.
fn without_parts() -> Parts
    ensures { result ≡ no_parts }
{
    Parts {
        setting: None,
        watching: None,
        approach: None,
        waiting: None,
        earlier: None,
        running: None,
        standing: None,
        clearing: None,
        release: None,
    }
}
