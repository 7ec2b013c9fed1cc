//! The blocking intervals of one train.

ghost use Rattle.std.specs.Prelude.{◌≡◌, ℕ, ◌+◌, ◌-◌, ◌<◌, ◌≤◌, ◌^◌, cond, length, List, Some, None, IfSome};
ghost use Rattle.std.specs.Option.{ForSome, option_copied};
ghost use Rattle.rail_base.specs.declared.limits.TheConstants.{OVERLAP_SECTIONS, ROUTE_SECTIONS, SECTIONS};
ghost use Rattle.rail_block.specs.CarriedTimes.{AreBelow, AreTimes};
ghost use Rattle.rail_block.specs.KnownMoves.{AreTimesOf, of_move};
ghost use Rattle.rail_rules.specs.Intervals.{has_interval, interval_of};
ghost use Rattle.rail_rules.specs.Plant.{Plant, claims, trains};
ghost use Rattle.rail_stairs.specs.Journeys.{AreTimesTo};
ghost use Rattle.rail_stairs.specs.JourneyTrains.{admissions_in, of_train};

use crate::journey::{Journey, PLACES};
use rail_base::Interval;
use rail_block::{KnownMove, KnownOver, MoveTimes, interval_of};

impl Journey<'_> {
    /// How many moves are admitted.
    pub(crate) fn moves(&self) -> u16
        ensures { result ≡ length (admissions_in self.now) }
    {
        self.stairs.admissions(self.train).len() as u16
    }

    /// How many sections the move claims, which counts from 0: its steps, and behind them those of its overlap.
    pub(crate) fn claims(&self, index: u16) -> u16
        requires { index < length (admissions_in self.now) }
        ensures claims { result ≡ claims self.now.plant.now self.now.train index }
        ensures few { result ≤ ROUTE_SECTIONS + OVERLAP_SECTIONS }
    {
        claims_of(&KnownMove::new(self.plant, self.train, index + 1))
    }

    /// The blocking interval of a step of a move, which both count from 0, where the step has one.
    pub(crate) fn interval(&self, index: u16, step: u16) -> Option<Interval>
        requires index { index < length (admissions_in self.now) }
        requires step { step < claims self.now.plant.now self.now.train index }
        requires few { step < ROUTE_SECTIONS + OVERLAP_SECTIONS }
        ensures interval { result ≡ cond (of_train has_interval self.now index step) (Some (of_train interval_of self.now index step)) None }
        ensures train { IfSome result (λ interval. interval.train < trains self.now.plant.now) }
        ensures section { IfSome result (λ interval. interval.section < length self.now.plant.now.tables.sections) }
        ensures few_sections { length self.now.plant.now.tables.sections ≤ SECTIONS }
    {
        if self.has_interval(index, step) {
            Some(self.interval_there(index, step))
        } else {
            None
        }
    }

    /// The step of the move, which both count from 0, has an interval.
    fn has_interval(&self, index: u16, step: u16) -> bool
        requires index { index < length (admissions_in self.now) }
        requires step { step < claims self.now.plant.now self.now.train index }
        requires few { step < ROUTE_SECTIONS + OVERLAP_SECTIONS }
        ensures { result ≡ of_train has_interval self.now index step }
    {
        let (times, next) = times_at(&self.times, index + 1, self.moves());
        let known = KnownMove::new(self.plant, self.train, index + 1);
        has_interval(&known, step + 1, times, next)
    }

    /// The blocking interval of a step of a move, which both count from 0; it is empty where the step has none.
    fn interval_there(&self, index: u16, step: u16) -> Interval
        requires index { index < length (admissions_in self.now) }
        requires step { step < claims self.now.plant.now self.now.train index }
        requires few { step < ROUTE_SECTIONS + OVERLAP_SECTIONS }
        ensures interval { result ≡ of_train interval_of self.now index step }
        ensures train { result.train < trains self.now.plant.now }
        ensures section { result.section < length self.now.plant.now.tables.sections }
        ensures few_sections { length self.now.plant.now.tables.sections ≤ SECTIONS }
    {
        let (times, next) = times_at(&self.times, index + 1, self.moves());
        interval_of(self.plant, self.train, index + 1, step + 1, times, next)
    }
}

/// How many sections the move claims: those that it needs, and those of its overlap.
fn claims_of(known: &KnownMove) -> u16
    ensures claims { result ≡ of_move claims known.now }
    ensures few { result ≤ ROUTE_SECTIONS + OVERLAP_SECTIONS }
{
    let row = known.row();
    let steps = row.sections.as_slice().len();
    let over = row.overlap.as_slice().len();
    (steps + over) as u16
}

/// The step of the move, which counts from 1, has an interval: it is no section of the overlap that the next move takes
/// over as it is admitted at the same time. `times` is the times of the move, `next` those of the next one where that is
/// admitted.
fn has_interval(known: &KnownMove, step: u16, times: &MoveTimes, next: Option<&MoveTimes>) -> bool
    requires first { 1 ≤ step }
    requires last { step ≤ of_move claims known.now }
    requires times { AreBelow (2 ^ 51) times.now }
    requires next { ForSome (option_copied next) (AreBelow (2 ^ 51)) }
    ensures { (adms : List ℕ) → AreTimesOf known.now adms times.now (option_copied next.entry)
        → result ≡ has_interval known.now.plant.now known.now.train adms (known.now.place - 1) (step - 1) }
{
    if step <= known.steps() {
        return true;
    }
    let over = KnownOver::new(known, step);
    match over.taken_at(known.timer_end(times, next), next) {
        Some(taken) => taken != times.admitted,
        None => true,
    }
}

/// The times of the place, with those of the one after it where the move there is one of so many that are admitted.
fn times_at(
    times: &[MoveTimes; PLACES],
    place: u16,
    admitted: u16,
) -> (&MoveTimes, Option<&MoveTimes>)
    requires place { place ≤ admitted }
    requires admitted { admitted < PLACES }
    ensures { (plant : Plant) (t : ℕ) (adms : List ℕ) → length adms ≡ admitted → AreTimesTo plant t adms admitted times.now
        → AreTimes plant t adms place result.0.now (option_copied result.1) }
{
    let index = usize::from(place);
    if place < admitted {
        (&times[index], Some(&times[index + 1]))
    } else {
        (&times[index], None)
    }
}
